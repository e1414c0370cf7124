//! What only code can try of the mailboxes: each is set up, posted to, taken from, polled and closed on one thread.
//! Two threads at one mail are the program `bench_mail`, and all controllers at once each run of a model on several.
mod call_tests;
mod messages;
mod shared_tests;

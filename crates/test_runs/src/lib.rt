//! What only code can try of the mailboxes.
#![tactic(auto)]

#[cfg(test)]
mod mail_tests;
pub mod test_messages;

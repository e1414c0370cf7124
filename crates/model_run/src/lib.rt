//! The run of a plant over the lines of an injection text: part by part, round by round, up to its end.
//!
//! A round lets each controller work with its end of the mail, then joins them, fetches what is left and takes a
//! turn of each. In `run_model` the controllers work at once, each on a thread; in `run_local` one after another.
//! The laws say that what the controllers do, each by itself, is a round of the one world, and that the journals
//! at the end are lawful, prompt and ended. The mailboxes may be any (`Mail`), and so may be the source of the
//! lines (`PartSource`): what a later part has may depend on what was done before.
#![tactic(auto)]

pub mod fixed_lines;
pub mod joined_round;
pub mod local_run;
pub mod parallel_run;
pub mod part_posts;
pub mod part_source;
pub mod run_ends;
pub mod run_loop;
pub mod run_rounds;
pub mod run_so_far;
pub mod run_start;
pub mod run_worker;
pub mod worker_pauses;

pub use fixed_lines::FixedLines;
pub use local_run::{run_in_order, run_local, run_parts_in_order};
pub use parallel_run::{run_model, run_parts};
pub use part_source::PartSource;

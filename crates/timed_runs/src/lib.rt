//! Runs over lines that move virtual time on.
//!
//! `run_timed` runs a plant over the lines of an injection text, with its timers, on threads, and
//! `run_timed_local` on one. When all is quiet it lets the timers see what happened, which tells
//! which timeouts come next, and gives them to the run as a part (`TimedLines`). Its contract says
//! that what comes out is one run of the world over the expansion of the lines (`room_timer`), that
//! no armed timer is due where the run is done, and that lines which don't move the time on give a
//! run over them.
#![tactic(auto)]

mod examples;
mod laws;
mod lines;
mod timed_lines;
mod timed_run;
mod unseen;
mod walk;

pub use examples::{comes_to_a_moment, comes_to_messages, comes_to_the_end, is_not_yet_due};
pub use laws::{done_timers_are_later, expansions_fit, walks_give_parts, walks_give_timed_runs};
pub use timed_lines::TimedLines;
pub use timed_run::{run_timed, run_timed_local};

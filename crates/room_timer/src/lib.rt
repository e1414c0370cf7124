//! Virtual time: the timers that are armed, as the entries of journals tell them, and what the
//! lines of an injection text come to once `advance` is replaced by the timeouts that are due on
//! the way.
//!
//! The timing service is an actor class that a model writes itself (`TimingService`, with the
//! protocol `PTimer`); its messages, the virtual time and the least delay of 1 are this project's
//! own.
#![tactic(auto)]

mod armed;
mod due_queue;
mod due_turn;
mod ends;
mod examples;
mod laws;
mod place;
mod services;
mod timeouts;
mod timer;
mod timers;

pub use examples::{
    armed_in_between, disarmed_in_time, ended_with_its_actor, moment_not_reached, timer_expires,
    timer_is_not_yet_due,
};
pub use laws::{lines_expand_once, timeouts_fit, timers_are_later};
pub use timer::Timer;
pub use timers::TimerTable;

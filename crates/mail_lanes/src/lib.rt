//! Mail among threads: a deque for each lane.
#![tactic(auto)]

mod address;
pub mod bells;
mod close;
pub mod ends;
pub mod lane;
pub mod mail;
mod make;
mod pair;
mod places;
mod rows;
pub mod rule;
mod settle;
mod steps;
mod tables;

pub use ends::MailLanes;

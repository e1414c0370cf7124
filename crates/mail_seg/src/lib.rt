//! Mail over boxes that several senders share: one ruled queue for a receiver and a priority.
//!
//! Each sender has a pass to the queue, and the receiver takes by the pass with which it posts. The
//! rule of the queue says of each sender: what the receiver took of its messages, followed by those
//! that the queue holds, is what it posted.
#![tactic(auto)]

pub mod caller;
mod close;
pub mod contents;
mod drain;
pub mod ends;
pub mod mail;
mod make;
mod places;
pub mod row;
mod rows;
pub mod rule;
pub mod shared_box;
mod steps;

pub use caller::{close_unused, exchange, post_at};
pub use ends::MailSeg;

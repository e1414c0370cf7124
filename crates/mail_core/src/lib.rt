//! Mailboxes among parties: the contract that every mailbox keeps, and one for a single thread.
//!
//! A party is a controller or the environment, which has the number after the last controller's.
//! A lane is a sender, a receiver and a priority; its messages keep their order. How the lanes are
//! kept is for each body of `Mail` to choose. The order of a poll is this project's own.
#![tactic(auto)]

pub mod boxes;
pub mod caller;
mod drain;
pub mod ends;
mod lists;
mod local_lane;
mod local_mail;
pub mod mail;
mod make;
pub mod poll;
mod steps;

pub use ends::{LocalOffice, MailLocal};
pub use mail::{Mail, Outlook, PostRefused};

//! A controller's mail between its mailboxes and its turns, and what the environment posts.
//!
//! A controller fetches messages into pending lists, takes a turn for one message at a time, and posts
//! what its actors send (ROOM: Selic, Gullekson and Ward 1994). Each event has a stamp of the
//! controller's logical clock (Lamport 1978) and an entry, which the call gives. The contracts are the events
//! of `actor_merge`, one by one; the laws say that the entries always leave just this mail.
#![tactic(auto)]

mod clock;
mod environment;
mod laws;
mod mail_queues;
mod pending;
mod queue;
mod target;

pub use environment::EnvironmentMail;
pub use laws::{environment_leaves, mail_leaves};
pub use mail_queues::{MailQueues, Posted, TurnResult};
pub use target::is_meant;

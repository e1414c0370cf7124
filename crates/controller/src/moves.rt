//! A controller at its end of the mailboxes: what waits in the outbox is posted, boxes are polled, and what
//! they give is fetched.
//!
//! The mailboxes may be any. The contracts name the events of the controller one by one, and beside them
//! what its end of the mailboxes posted and took. The order of a poll and its quota are this project's own.

mod fetching;
mod posting;

pub(crate) use fetching::{fetch_all, poll_boxes};
pub(crate) use posting::post_outbox;

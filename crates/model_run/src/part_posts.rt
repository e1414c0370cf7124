//! The environment's posts: the lines of an injection text, part by part, over any mail.

mod injected;
mod posting;

pub use injected::message_from_outside;
pub use posting::post_part;

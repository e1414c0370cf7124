//! Tied journals: each fetch is told by the post that it names, so a text need not repeat its
//! message. When journals are tied (`specs/Tied.antt`), the first fetch that isn't, and the text in
//! form 2, which is that of form 1 but for its title and its lines of fetches (`specs/Text.antt`).
//! The lines that both forms have are written by the crate `journal`.
#![tactic(auto)]

mod fetches;
mod tables;
mod text;
mod untied;

pub use tables::Posts;
pub use text::{lines_to, text_to};
pub use untied::first_untied;

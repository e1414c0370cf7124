//! Tables of names, in which a name is found without a search.
//!
//! Names are numbered in the order in which they appear (`Numbers`), or the first place of each in a list is kept
//! (`NameIndex`). Whether names are distinct is told by a table, in time proportional to their number. The names that no
//! class and no part of an actor class may have are listed here too.
#![tactic(auto)]

pub mod distinct_names;
pub mod name_index;
pub mod name_numbers;
pub mod reserved_names;

pub use distinct_names::are_distinct;
pub use name_index::NameIndex;
pub use name_numbers::{Numbers, numbered};
pub use reserved_names::{is_part_word, is_type_name};

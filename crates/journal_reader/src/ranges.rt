//! That the numbers of journals in memory are in the ranges of their types.
//!
//! Who reads a text of journals gets numbers in the ranges of their types, so that a law on what is
//! read back asks for journals whose numbers are. Of those that a run gives this is so by their types
//! alone, and `look_through` says it: a number is known to be in its type's range once it is looked at,
//! and no more is done. It changes nothing and takes no memory.

mod journals;
mod messages;
mod turns;

pub use journals::look_through;

//! Journals from their text, line by line.
//!
//! The reading is lenient: each text is read as some journals. A field that isn't written as it
//! should be is read as 0, a line of another form is passed over. What the text of journals is read
//! as are these journals; whether a text is that of the journals that it is read as shows when they
//! are written again.

mod draft;
mod fetches;
mod fields;
mod lines;
mod messages;
mod rest;

pub use lines::read;

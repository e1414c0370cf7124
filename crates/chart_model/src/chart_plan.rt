//! What a chart does with a message, over any kind of names for its states: definitions and a law.
//!
//! A chart by names and its tables by numbers have one meaning, since both are plans.

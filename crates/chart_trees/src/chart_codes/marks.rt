//! What reading has met.

/// Whether each event that was read is one of the class, and each code a program or a condition of
/// the class.
#[derive(Clone, Copy, Drop, PartialEq, Eq)]
pub struct Marks {
    pub events_fit: bool,
    pub codes_fit: bool,
}

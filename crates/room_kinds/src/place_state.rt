//! What an imported slot holds.

/// What the place of an imported slot whose container lives is at: it holds nothing, or an actor of
/// another slot, its home, that it asks for, holds or gives back. The number is that of the home's
/// incarnation, as actions have it.
#[derive(Clone, Copy, Drop, Debug, PartialEq, Eq)]
pub enum PlaceState {
    Empty,
    Asking(u64),
    Held(u64),
    Leaving(u64),
}

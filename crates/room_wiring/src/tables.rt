//! The tables of a wiring.
use crate::label::Label;
use crate::names::ClassNames;
use crate::slot::{Partner, Slot};
use room_kinds::Sequence;

/// The places of a port: `count` rows of the table of partners, the first of them at `first`.
#[derive(Clone, Copy, Debug, PartialEq, Eq)]
pub struct PlaceSpan {
    pub first: u32,
    pub count: u32,
}

/// A wiring as its tables.
#[derive(Drop, Debug)]
pub struct Tables {
    /// The slots in order of number.
    pub slots: Sequence<Slot>,
    /// The names of the controllers in order of number.
    pub controllers: Sequence<Label>,
    /// The actor classes in order of number.
    pub classes: Sequence<ClassNames>,
    /// For each slot the row of its port 0 in `ports`; its other ports follow.
    pub first_ports: Sequence<u32>,
    /// The places of each port of each slot.
    pub ports: Sequence<PlaceSpan>,
    /// What each place is joined to.
    pub partners: Sequence<Partner>,
    /// For each slot and each controller whether the slot's owner tells that controller of the
    /// actors that come and go in the slot.
    pub told: Sequence<Sequence<bool>>,
}

//! The rules on classes that extend others.

mod bases;
mod once;
mod plain;

pub(crate) use bases::{actor_at, base_of, bases_are_known, extended_classes, names_of_classes};
pub(crate) use once::refinements_differ;
pub(crate) use plain::{extends_nothing, refinements_stand_right};

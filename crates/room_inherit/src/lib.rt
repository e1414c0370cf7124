//! Actor classes that extend others, and the model without them.
//!
//! A class that extends another one has all that its base has, and then its own; its chart is the
//! base's, with what it refines there. `flatten` makes a model in which no class extends another one,
//! or tells the lowest of the rules 26 to 31 that a model breaks. The rules below 26, the wiring and the
//! charts are asked of the flat model, so that nothing behind this crate knows of bases.
#![tactic(auto)]

ghost use Rattle.room_inherit.specs.Names.{FlatKeepsNames};

mod base_rule;
mod class_order;
mod counting;
mod fault;
mod filling;
mod flattening;
mod judging;
mod rules;

pub use base_rule::BaseRule;
pub use fault::InheritFault;
pub use flattening::flatten;

/// The names in a model without bases are names of the language where those of the model are.
#[tactic(auto, using(crate::proofs::NamesLaw::names_stay))]
pub fn flat_keeps_names()
    ensures { FlatKeepsNames }
{}

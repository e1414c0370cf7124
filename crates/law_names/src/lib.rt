//! Agreement on names: laws that hold of every run, as functions without a body, whose contract is the
//! law; they hold over any kind `M` of machine and any tables.
//!
//! Service points register under names in the name table of controller 0, which links them.
#![tactic(auto)]

mod agreed;
mod links;
mod registrations;

pub use agreed::all_agree;
pub use links::{links_agree, links_foretell, names_agree, tables_are_sound};
pub use registrations::{
    joined_users_have_no_name, names_are_of_the_created, registrations_are_in_rows,
    registrations_settle,
};

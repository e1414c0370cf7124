//! The layer service, by which service provision points and service access points meet by name: the
//! name table of controller 0 (`NameService`), and what each controller keeps of its own points
//! (`Links`).
#![tactic(auto)]

pub mod layer_links;
pub mod name_service;

pub use crate::layer_links::Links;
pub use crate::name_service::NameService;

//! The name table: services, where service provision points and service access points meet by name
//! (ROOM has layer connections; meeting by name at run time is this project's own).

mod entries;
mod linking;
mod name_service;
mod requests;
mod service;

pub use name_service::NameService;

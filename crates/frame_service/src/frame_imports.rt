//! Imports: an actor of one container, the home, is lent to an imported slot of another (ROOM: Selic,
//! Gullekson and Ward 1994; the messages between the owners of the two are this project's own). Here are
//! the commands `import` and `deport`, what the owner of a home does at a request, and what the owner of
//! an import place does at the answer.

mod answers;
mod commands;
pub mod frame_forms;
pub mod frame_peers;
mod homes;
pub mod import_places;
mod ports;

pub use answers::{Answer, What, hear};
pub use commands::{Asked, request_deport, request_import};
pub use frame_forms::{is_announced, is_answer, is_back, is_forth, is_part_told, is_request};
pub use frame_peers::{Lent, peer};
pub use homes::{deport, import};
pub use import_places::Imports;

//! What a controller keeps of imports: what each imported slot of its own containers holds, and for each
//! of its own slots the import places that hold what stands there (ROOM: imports; the states of an import
//! place are this project's own).

mod place;
mod plugs;
mod table;

pub use place::{ImportPlace, is_same_actor};
pub use table::Imports;

//! To whom an end place leads, but for links by name: the joined end place, what is lent to an imported
//! slot, or what a plug of the actor leads to (ROOM: bindings and imports; the order of the cases is this
//! project's own).

mod lent;
mod peers;

pub use lent::Lent;
pub use peers::peer;

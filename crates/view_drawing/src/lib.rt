//! Pictures as texts, of two kinds.
//!
//! Nested blocks with points on their borders and links among these (`Diagram`), as texts: as an SVG that
//! needs no other file (`put_svg`), as a graph for Graphviz (`put_dot`), as a flowchart for Mermaid (`put_mermaid`).
//!
//! Lifelines on which messages go from row to row (`Sequence`): by `put_sequence_svg`, `put_sequence_dot` and
//! `put_sequence_mermaid`.
//!
//! A text is the same for the same picture, byte for byte. It takes time and memory linear in the parts of the picture.
#![tactic(auto)]

mod colours;
mod diagram;
mod dot;
mod grid;
mod layout;
mod mermaid;
mod nesting;
mod place;
mod plain;
mod sequence;
mod sequence_dot;
mod sequence_mermaid;
mod sequence_svg;
mod shapes;
mod sides;
mod svg;

pub use diagram::{Block, Diagram, End, Key, Leads, Link, Mark, Point, Shape, Sign};
pub use dot::put_dot;
pub use mermaid::put_mermaid;
pub use plain::{Label, add_name, add_plain, name_of, tail_of};
pub use sequence::{Event, Group, Lead, Lifeline, Row, Sequence, Way};
pub use sequence_dot::put_sequence_dot;
pub use sequence_mermaid::put_sequence_mermaid;
pub use sequence_svg::put_sequence_svg;
pub use svg::put_svg;

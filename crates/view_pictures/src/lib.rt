//! Pictures of a model and of its runs: the actors with what joins their ports (`put_wiring`), the chart of a class
//! (`put_chart`), who sent what to whom in a run (`put_run`), and who lived at a stamp of a run, in which state, and
//! whom the ports led to (`put_scene`). A picture is drawn and written here, under a title (`title_of`), so that who
//! asks for one has nothing of it but the text.
#![tactic(auto)]

mod actors;
mod bindings;
mod cast;
mod charts;
mod choice;
mod drawing;
mod leads;
mod living;
mod meetings;
mod orders;
mod run_texts;
mod runs;
mod scene_blocks;
mod scene_links;
mod scene_notes;
mod scenes;
mod titles;
mod transitions;
mod tree;
mod wirings;
mod written;

pub use living::Scene;
pub use titles::title_of;
pub use tree::{machine_of, tell_machines};
pub use written::{Form, Titled, form_of, put_chart, put_run, put_scene, put_wiring};

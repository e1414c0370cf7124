//! Why journals aren't those of a run (docs/VERIFY.md): the verdict in words, the place in their text, what
//! would have stood there or why nothing could, and from which earlier entries that follows
//! (`tell_verdict`). In one line it is told by the views of single messages (`tell_unlawful`).
//!
//! And how the system stood at stamps of journals (docs/SHOW.md): what is seen there, and which messages wait
//! (`moment_at`), and what changed from one stamp to another (`tell_changes_between`).
//!
//! The verdict and the snapshots are those of `room_verify`, which is proved. What is told of them is safe and ends;
//! that it is right is shown by cases.
#![tactic(auto)]

mod actor_changes;
mod changes;
mod earlier;
mod end_faults;
mod entry_faults;
mod entry_text;
mod judged;
mod left_faults;
mod moments;
mod open_events;
mod peer_changes;
mod places;
mod reached;
mod refused;
mod shape_faults;
mod sheet;
mod supposed;
mod telling;
mod waiting_changes;
mod words;

pub use changes::tell_changes_between;
pub use judged::{Judged, Texts, fuel_told};
pub use moments::{Moment, moment_at};
pub use supposed::tell_no_run;
pub use telling::{tell_unlawful, tell_verdict};

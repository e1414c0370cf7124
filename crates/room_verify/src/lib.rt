//! A second judgement of journals: whether they are those of a run of a model over injection lines; and what is
//! seen of the system on their way.
//!
//! The judgement takes nothing from the run that wrote the journals. It merges them by stamp and party and lets
//! each entry happen again, in a world of its own: controllers without journals, and lanes between them. An entry
//! is refused where what it names can't happen, or makes another entry. The same replay, up to a stamp, shows the
//! system as it stood then (`show`).
#![tactic(auto)]

mod checks;
mod ends;
mod heads;
mod judging;
mod lanes;
mod laws;
mod lefts;
mod line_cursor;
mod looks;
mod merging;
mod promptness;
mod replay;
mod showing;
mod verdict;
mod view;

pub use heads::Head;
pub use judging::verify;
pub use lanes::{LaneQueue, LaneTable};
pub use laws::{
    lawful_are_runs, one_is_shown, runs_are_lawful_alone, runs_lead_to_shown, shows_are_by_charts,
    verdicts_are_by_charts, verdicts_are_one,
};
pub use line_cursor::LineCursor;
pub use merging::{Outcome, replay_merge};
pub use promptness::{EarlyTurn, OwnCounts};
pub use replay::{Begun, Replay};
pub use showing::{Seen, show};
pub use verdict::Verdict;
pub use view::Look;

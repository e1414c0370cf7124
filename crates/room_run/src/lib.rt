//! From the words of a command line to the bytes of the journals.
//!
//! `room_top` is the whole program over a shelf of texts and two sinks. Its contract is the
//! headline of the project: every model that keeps the rules and has no fault runs, and what is printed is a
//! run of it. It is the exact answer of the check of a model, of the text of its wiring, and of the conversion
//! of journals, too; and the text of the system at a stamp of journals.
#![tactic(auto)]

pub mod answers;
mod asked;
mod convert;
pub mod fitting_journals;
pub mod fitting_plants;
mod judge;
mod made;
mod model_fault;
pub mod model_plants;
mod named;
mod note;
mod plant_runs;
mod prepare;
mod refusal;
mod show;
mod stack;
mod status;
mod top;
mod verify;

pub use answers::{
    accepted_calls_end, conversions_keep_journals, one_answer, printed_runs_are_lawful,
    printed_runs_are_shown, shows_are_exact, verdicts_are_exact,
};
pub use asked::stamp_of;
pub use fitting_journals::{fitting_journals_fit, fitting_runs_journals};
pub use fitting_plants::{fitting_runs_settle, fitting_worlds_agree, plants_fit};
pub use judge::{read_plant, read_wiring};
pub use model_fault::ModelFault;
pub use model_plants::plant_of;
pub use model_run::{run_local, run_model};
pub use named::{NamedFiles, named_files};
pub use refusal::Refusal;
pub use stack::stack_of;
pub use status::Status;
pub use timed_runs::{run_timed, run_timed_local};
pub use top::room_top;

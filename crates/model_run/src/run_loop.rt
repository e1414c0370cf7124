//! How a run goes, over any mail: part by part the environment posts its lines, and the controllers go round by
//! round until nothing moves any more. What is done in a round stands between two calls of these.

mod next;
mod rests;
mod rounds;
mod state;

pub(crate) use next::next_round;
pub(crate) use state::Run;

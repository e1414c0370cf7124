//! What the journals of a run tell people: `tell_story`, a line a turn over all controllers in the order of their
//! stamps, `tell_end`, what was still open where the run ended, and `tell_outputs`, what nobody hears. What journals
//! don't tell, and whether they are those of this model, is known where the charts did the run again (`Redone`).
//!
//! They speak in the names of the model: of actors by their paths, of messages as charts and actions write them, of
//! priorities by name. They take time and memory in proportion to the journals, but for the sorting of the turns.
#![tactic(auto)]

mod attributes;
mod differs;
mod end;
mod fetched;
mod filter;
mod frame;
mod lines;
mod messages;
mod moments;
mod names;
mod notes;
mod outputs;
mod ports;
mod redone;
mod standing;
mod story;
mod told;
mod turns;
mod unheard;

pub use attributes::{put_attributes, put_changed_attributes};
pub use differs::{put_difference, tell_difference};
pub use end::tell_end;
pub use fetched::{Fetched, Name};
pub use filter::Wanted;
pub use frame::{actor_of_number, put_actor_number, put_home};
pub use lines::{end_word, put_left, tell_turn, word_of};
pub use messages::{actor_at, put_end, put_incoming, put_received};
pub use moments::{Arming, Moment, arming_before, is_timeout, moments_of, put_arming, put_moment};
pub use names::{
    find_signal, place_count, put_actor, put_controller, put_name, put_path, put_port, put_state,
    put_states,
};
pub use notes::{is_trouble_note, put_note};
pub use outputs::tell_outputs;
pub use ports::{Outlets, has_joined, incoming, is_end, is_joined, is_outlet, partner_of};
pub use redone::{Deed, Difference, Redone, Said, Sayings};
pub use standing::{Actors, Standing};
pub use story::tell_story;
pub use told::{Start, Told, starts_of};
pub use turns::{Turn, turns_of};

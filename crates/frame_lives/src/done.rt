//! What a duty leaves to the controller.
use room_kinds::{Incarnation, Msg, Sequence};

/// What is to be done after a duty: the initial transitions of the actors that were made, in slot order,
/// or the withdrawals of those that ended, in descending slot order; and then the message that closes
/// the request.
#[derive(Drop)]
pub struct DutyDone {
    pub made: Sequence<Incarnation>,
    pub ended: Sequence<Incarnation>,
    pub last: Option<Msg>,
}

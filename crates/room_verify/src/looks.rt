//! What a replay holds, to look at: so that it can be told what would have happened where an entry is refused.
ghost use Rattle.std.specs.Prelude.{◌≡◌, slice_get, option_copied, IfSome};
ghost use Rattle.actor_merge.specs.Mail.{lane};
ghost use Rattle.controller_mail.specs.MailState.{has_messages, pending_of};
ghost use Rattle.room_verify.specs.Lanes.{lanes_in};

use crate::replay::Replay;
use room_kinds::{ControllerId, Msg, Priority};

impl Replay {
    /// One of the messages on their way in a lane, by how many are older.
    pub fn on_its_way(
        &self,
        sender: ControllerId,
        receiver: ControllerId,
        prio: Priority,
        i: usize,
    ) -> Option<&Msg>
        ensures { option_copied result
            ≡ slice_get (lanes_in self.now.lanes (lane sender.0 receiver.0 prio.0)) i }
    {
        self.lanes.message(sender, receiver, prio, i)
    }

    /// One of the messages that wait for a controller's turns at a priority, by how many of that priority are
    /// older.
    pub fn waiting(&self, c: ControllerId, prio: Priority, i: usize) -> Option<&Msg>
        ensures { IfSome (slice_get self.now.controllers.items c.0) (λ controller.
            option_copied result ≡ slice_get (pending_of controller.mail.pending prio.0) i) }
    {
        match self.controllers.as_slice().get(usize::from(c.0)) {
            Some(controller) => controller.mail().waiting(prio.0, i),
            None => None,
        }
    }

    /// Whether a message waits to be posted by a controller.
    pub fn has_outbox(&self, c: ControllerId) -> bool
        ensures { IfSome (slice_get self.now.controllers.items c.0) (λ controller.
            result ≡ has_messages controller.mail.outbox) }
    {
        match self.controllers.as_slice().get(usize::from(c.0)) {
            Some(controller) => controller.mail().has_outbox(),
            None => false,
        }
    }

    /// How many lines stand before the one at which the environment stands.
    pub fn lines_passed(&self) -> usize
        ensures { result ≡ self.now.environment.at }
    {
        self.environment.at
    }
}

//! One box for each lane, in the order of a poll.
ghost use Rattle.std.specs.Prelude.{◌≡◌, ◌+◌, ◌*◌, ◌<◌, true, false};
ghost use Rattle.mail_core.specs.Boxes.{IsLaneBox, lane_boxes};
ghost use Rattle.mail_core.specs.Takes.{MayPostAt};

/// Whose messages go into a box, and at which priority.
#[derive(Clone, Copy)]
pub struct BoxLane {
    pub sender: u8,
    pub prio: u8,
}

impl BoxLane {
    /// Whether messages go into the box: the environment, the last of so many parties, posts nothing at
    /// the system level.
    pub fn is_in_use(&self, parties: u8) -> bool
        requires { self.now.sender < parties }
        ensures used { result ≡ true → MayPostAt parties self.now.sender self.now.prio }
        ensures unused { result ≡ false → (self.now.prio ≡ 0) × (self.now.sender + 1 ≡ parties) }
    {
        self.prio != 0 || self.sender + 1 != parties
    }
}

/// The lane of a box, where each lane has one.
#[tactic(auto, using(crate::proofs::BoxLemmas::lane_boxes_steps))]
pub fn lane_in(parties: u8, b: u32) -> BoxLane
    requires some { 0 < parties }
    requires in_range { b < parties * 6 }
    ensures { IsLaneBox parties b result.sender result.prio }
{
    let prio = 5 - (b / u32::from(parties)) as u8;
    let place = (b % u32::from(parties)) as u8;
    let sender = if place == 0 { parties - 1 } else { place - 1 };
    BoxLane { sender, prio }
}

/// How many boxes a party has, where each lane has one.
pub fn box_count(party: u8, parties: u8) -> u32
    ensures { result ≡ lane_boxes party parties }
{
    if u32::from(party) + 1 < u32::from(parties) {
        u32::from(parties) * 6
    } else {
        0
    }
}

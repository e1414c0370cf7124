//! The rule of a lane's deque.
ghost use Rattle.std.specs.Prelude.{◌≡◌, ◌++◌, ◌≤◌, List, length, true, false, []};
ghost use Rattle.mail_lanes.specs.Rule.{lane_view, InOrder};

use crossbeam_deque::protocol::{Join, Outcome, Protocol, Split};
use room_kinds::Msg;
use std::collections::LinkedList;

/// What a pass may do, what it pushed and what it took. No value of it is made.
pub struct LaneView {
    pub pushes: bool,
    pub takes: bool,
    pub sent: LinkedList<Msg>,
    pub got: LinkedList<Msg>,
}

pub struct LaneRule;

impl Protocol<Msg, LaneView> for LaneRule {
    ghost use Rattle.std.specs.Prelude.{true, false, []};
    ghost use Rattle.mail_lanes.specs.Rule.{lane_view, InOrder};

    ghost holds = { InOrder };

    ghost first = { lane_view true true [] [] };

    ghost guest = { lane_view false false [] [] };
}

pub struct Roles;

impl Split<LaneView> for Roles {
    ghost use Rattle.std.specs.Prelude.{true, false, []};
    ghost use Rattle.mail_lanes.specs.Rule.{lane_view};

    ghost left = { λ v. lane_view true false v.sent [] };

    ghost right = { λ v. lane_view false true [] v.got };
}

impl Join<LaneView> for Roles {
    ghost use Rattle.std.specs.Prelude.{true, false, []};
    ghost use Rattle.mail_lanes.specs.Rule.{lane_view};

    ghost both = { λ v w. lane_view true true v.sent w.got };

    ghost spent = { lane_view false false [] [] };
}

/// A push.
pub struct Sent;

impl Outcome<Msg, LaneView> for Sent {
    ghost then = { λ v xs w. w ≡ lane_view v.pushes v.takes (v.sent ++ xs) v.got };
}

/// A steal.
pub struct Got;

impl Outcome<Msg, LaneView> for Got {
    ghost then = { λ v xs w. w ≡ lane_view v.pushes v.takes v.sent (v.got ++ xs) };
}

/// A pop of one that alone pushes and takes.
pub struct Own;

impl Outcome<Msg, LaneView> for Own {
    ghost use Rattle.std.specs.Prelude.{List};
    ghost use Rattle.room_kinds.specs.declared.message.Msg.{Msg};

    ghost then = { λ v xs w.
        (w ≡ lane_view v.pushes v.takes v.sent (v.got ++ xs))
        × (rest : List Msg)
        × (v.sent ≡ (v.got ++ xs) ++ rest) };

    ghost empty = { λ v. v.sent ≡ v.got };
}

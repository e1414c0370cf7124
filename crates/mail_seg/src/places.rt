//! A step at one of an end's passes.
ghost use Rattle.std.specs.Prelude.{◌≡◌, ◌+◌, ◌*◌, ◌<◌, true, map, length, slice_set, OnOk, OnErr, IfErr, MatchOption};
ghost use Rattle.mail_seg.specs.Sides.{side, sending, getting, IsInto, IsOutOf, IsEmptied};
ghost use Rattle.mail_seg.specs.Ends.{side_at};

use crate::shared_box::BoxPass;
use room_kinds::Msg;
use std::sync::Wait;

/// Where the pass to a box of a receiver stands.
pub(crate) fn place(receiver: u8, b: u32) -> usize
    ensures { result ≡ receiver * 6 + b }
{
    usize::from(receiver) * 6 + b as usize
}

#[tactic(auto, using(crate::proofs::PlaceLemmas::place_steps))]
pub(crate) fn post_at<R: Wait>(
    rt: &R,
    outlets: &mut Vec<BoxPass>,
    at: usize,
    m: Msg,
) -> Result<(), Msg>
    requires within { at < length outlets.old.items }
    requires into { IsInto (side_at (map side outlets.old.items) at) m }
    ensures ok { OnOk result (map side outlets.new.items ≡ slice_set (map side outlets.old.items) at
        (sending (side_at (map side outlets.old.items) at) m)) }
    ensures err { OnErr result (map side outlets.new.items ≡ map side outlets.old.items) }
    ensures back { IfErr result (λ x. x ≡ m) }
{
    let outlet = &mut outlets[at];
    outlet.post(rt, m)
}

#[tactic(auto, using(crate::proofs::PlaceLemmas::place_steps))]
pub(crate) fn take_at<R: Wait>(rt: &R, outlets: &mut Vec<BoxPass>, at: usize) -> Option<Msg>
    requires within { at < length outlets.old.items }
    requires takes { (side_at (map side outlets.old.items) at).takes ≡ true }
    ensures took { let a = side_at (map side outlets.old.items) at in
        MatchOption result
        ((map side outlets.new.items ≡ map side outlets.old.items) × IsEmptied a)
        (λ m.
        (map side outlets.new.items ≡ slice_set (map side outlets.old.items) at (getting a m))
        × IsOutOf a m) }
{
    let outlet = &mut outlets[at];
    outlet.take(rt)
}

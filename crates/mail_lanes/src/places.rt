//! A step at one place of an end's lanes.
ghost use Rattle.std.specs.Prelude.{◌≡◌, ◌<◌, true, map, length, slice_set, OnOk, OnErr, IfErr, MatchOption, Option, Some, None};
ghost use Rattle.mail_core.specs.Lanes.{IsFor};
ghost use Rattle.mail_lanes.specs.Lanes.{InLane, out_lane, in_side, out_at, in_at, sending, popping, stealing};

use crate::lane::{Inlet, Outlet};
use room_kinds::Msg;

#[tactic(auto, using(crate::proofs::PlaceLemmas::place_steps))]
pub(crate) fn post_at(outlets: &mut Vec<Outlet>, at: usize, m: Msg) -> Result<(), Msg>
    requires within { at < length outlets.old.items }
    requires is_for { let o = (out_at (map out_lane outlets.old.items) at).wire in
        IsFor o.from o.to o.prio m }
    ensures ok { OnOk result (map out_lane outlets.new.items
        ≡ slice_set (map out_lane outlets.old.items) at
        (sending (out_at (map out_lane outlets.old.items) at) m)) }
    ensures err { OnErr result
        (map out_lane outlets.new.items ≡ map out_lane outlets.old.items) }
    ensures back { IfErr result (λ x. x ≡ m) }
{
    let outlet = &mut outlets[at];
    outlet.post(m)
}

#[inline(always)]
#[tactic(auto, using(crate::proofs::PlaceLemmas::place_steps))]
pub(crate) fn pop_at(outlets: &mut Vec<Outlet>, at: usize, found: &mut Option<Msg>)
    requires within { at < length outlets.old.items }
    requires own { (out_at (map out_lane outlets.old.items) at).wire.takes ≡ true }
    requires empty { found.old ≡ None }
    ensures lane { let o = out_at (map out_lane outlets.old.items) at in
        MatchOption found.new
        ((map out_lane outlets.new.items ≡ map out_lane outlets.old.items)
        × (o.posted ≡ o.taken))
        (λ m.
        map out_lane outlets.new.items
        ≡ slice_set (map out_lane outlets.old.items) at (popping o m)) }
    ensures is_for { let o = (out_at (map out_lane outlets.old.items) at).wire in
        MatchOption found.new (Unit {0}) (λ m. IsFor o.from o.to o.prio m) }
{
    let outlet = &mut outlets[at];
    outlet.look_to(found)
}

#[inline(always)]
#[tactic(auto, using(crate::proofs::PlaceLemmas::place_steps))]
pub(crate) fn steal_at(inlets: &mut Vec<Option<Inlet>>, at: usize, found: &mut Option<Msg>)
    requires within { at < length inlets.old.items }
    requires empty { found.old ≡ None }
    ensures lane { MatchOption found.new
        (map in_side inlets.new.items ≡ map in_side inlets.old.items)
        (λ m.
        (i : InLane)
        × (in_at (map in_side inlets.old.items) at ≡ Some i)
        × (map in_side inlets.new.items
        ≡ slice_set (map in_side inlets.old.items) at (Some (stealing i m)))
        × IsFor i.wire.from i.wire.to i.wire.prio m) }
{
    if let Some(inlet) = &mut inlets[at] {
        inlet.take_to(found);
    }
}

//! One box at the close.
ghost use Rattle.std.specs.Prelude.{ℕ, ◌≡◌, ◌+◌, ◌-◌, ◌<◌, ◌≤◌, ◌++◌, ◌∷◌, [], true, IfOk, OnOk, length, map, drop, replicate, slice_set};
ghost use Rattle.mail_core.specs.SetUp.{at_priority};
ghost use Rattle.mail_seg.specs.Sides.{side, Side};
ghost use Rattle.mail_seg.specs.Rows.{row_at};
ghost use Rattle.mail_seg.specs.Left.{queues_of, pass_at, Fronts, gathered, IsBox, left_in, IsSettled, lists_of, list_at, Drained};

use crate::row::Row;
use crate::shared_box::BoxPass;
use room_kinds::Msg;
use std::alloc::{AllocError, Global};
use std::sync::Wait;

#[tactic(auto, using(crate::proofs::LeftLemmas::table_steps))]
fn front(rows: &mut Vec<Row>, party: u8) -> BoxPass
    requires party { party < length rows.old.items }
    requires some { 0 < length (row_at (queues_of rows.old.items) party) }
    ensures pass { side result ≡ pass_at (queues_of rows.old.items) 0 party }
    ensures rows { queues_of rows.new.items ≡ slice_set (queues_of rows.old.items) party
        (drop 1 (row_at (queues_of rows.old.items) party)) }
{
    let row = &mut rows[usize::from(party)];
    match row.passes.pop_front() {
        Some(pass) => pass,
        None => unreachable!(),
    }
}

/// Takes in the first passes of the parties from one to another.
fn take_in(own: &mut BoxPass, rows: &mut Vec<Row>, from: u8, to: u8)
    requires takes { (side own.old).takes ≡ true }
    requires order { from ≤ to }
    requires rows { to ≤ length rows.old.items }
    requires some { (s : ℕ) → from ≤ s → s < to → 0 < length (row_at (queues_of rows.old.items) s) }
    requires same { (s : ℕ) → from ≤ s → s < to
        → ((pass_at (queues_of rows.old.items) 0 s).to ≡ (side own.old).to)
        × ((pass_at (queues_of rows.old.items) 0 s).prio ≡ (side own.old).prio)
        × ((pass_at (queues_of rows.old.items) 0 s).queue ≡ (side own.old).queue) }
    ensures own { side own.new ≡ record (side own.old) {
      posts = (side own.old).posts
          ++ gathered (pass_at (queues_of rows.old.items) 0) from (to - from);
    } }
    ensures fronts { Fronts from to (queues_of rows.old.items) (queues_of rows.new.items) }
{
    for party in from..to {
        own.join(front(rows, party));
    }
}

/// The receiver's pass to its next box, with what all parties posted into it.
fn whole(rows: &mut Vec<Row>, parties: u8, receiver: u8) -> BoxPass
    requires receiver { receiver < parties }
    requires rows { length rows.old.items ≡ parties }
    requires some { (s : ℕ) → s < parties → 0 < length (row_at (queues_of rows.old.items) s) }
    requires is_box { IsBox parties receiver (pass_at (queues_of rows.old.items) 0) }
    ensures pass { let f = pass_at (queues_of rows.old.items) 0 in
        side result ≡ record (f receiver) {
          posts = ((f receiver).posts ++ gathered f 0 receiver)
              ++ gathered f (receiver + 1) (parties - (receiver + 1));
        } }
    ensures fronts { Fronts 0 parties (queues_of rows.old.items) (queues_of rows.new.items) }
{
    let mut own = front(rows, receiver);
    take_in(&mut own, rows, 0, receiver);
    take_in(&mut own, rows, receiver + 1, parties);
    own
}

#[tactic(auto, using(crate::proofs::LeftLemmas::list_steps))]
fn put(lists: &mut Vec<Vec<Msg>>, m: Msg) -> Result<(), AllocError>
    requires { m.from.0 < length lists.old.items }
    ensures { OnOk result (lists_of lists.new.items ≡ slice_set (lists_of lists.old.items) m.from.0
        (list_at (lists_of lists.old.items) m.from.0 ++ m ∷ [])) }
{
    let list = &mut lists[usize::from(m.from.0)];
    list.push(m)?;
    Ok(())
}

/// Takes messages, each to the end of its sender's list, until a take finds none.
#[tactic(auto, using(crate::proofs::LeftLemmas::drain_steps))]
fn drain<R: Wait>(rt: &R, own: &mut BoxPass, lists: &mut Vec<Vec<Msg>>) -> Result<(), AllocError>
    requires takes { (side own.old).takes ≡ true }
    requires lists { (side own.old).next ≤ length lists.old.items }
    ensures { OnOk result (Drained (side own.old) (side own.new) (lists_of lists.old.items)
        (lists_of lists.new.items)) }
{
    for _look in rt.forever() {
        match own.take(rt) {
            Some(m) => put(lists, m)?,
            None => return Ok(()),
        }
    }
    unreachable!()
}

#[tactic(auto, using(crate::proofs::LeftLemmas::list_steps))]
fn append(list: &mut Vec<Msg>, lists: &mut Vec<Vec<Msg>>, party: u8) -> Result<(), AllocError>
    requires { party < length lists.old.items }
    ensures list { OnOk result (list.new.items
        ≡ list.old.items ++ list_at (lists_of lists.old.items) party) }
    ensures lists { OnOk result (lists_of lists.new.items
        ≡ slice_set (lists_of lists.old.items) party []) }
{
    let more = &mut lists[usize::from(party)];
    list.append(more)
}

/// Moves the lists of all senders to the end of one: the environment's first, and then the
/// controllers' ascending.
fn append_all(list: &mut Vec<Msg>, lists: &mut Vec<Vec<Msg>>, parties: u8) -> Result<(), AllocError>
    requires some { 0 < parties }
    requires lists { length lists.old.items ≡ parties }
    ensures { OnOk result (list.new.items
        ≡ list.old.items ++ at_priority parties (list_at (lists_of lists.old.items))) }
{
    let environment = parties - 1;
    append(list, lists, environment)?;
    for sender in 0..environment {
        append(list, lists, sender)?;
    }
    Ok(())
}

fn empty_lists(alloc: Global, parties: u8) -> Result<Vec<Vec<Msg>>, AllocError>
    ensures { IfOk result (λ lists. lists_of lists.items ≡ replicate parties []) }
{
    let mut lists = Vec::new(alloc);
    for _party in 0..parties {
        lists.push(Vec::new(alloc))?;
    }
    Ok(lists)
}

/// Moves what is left in the next box of a receiver to the end of a list, sender by sender.
pub(crate) fn drain_box<R: Wait>(
    rt: &R,
    alloc: Global,
    rows: &mut Vec<Row>,
    parties: u8,
    receiver: u8,
    list: &mut Vec<Msg>,
) -> Result<(), AllocError>
    requires receiver { receiver < parties }
    requires rows { length rows.old.items ≡ parties }
    requires some { (s : ℕ) → s < parties → 0 < length (row_at (queues_of rows.old.items) s) }
    requires is_box { IsBox parties receiver (pass_at (queues_of rows.old.items) 0) }
    ensures list { OnOk result (list.new.items ≡ list.old.items
        ++ at_priority parties (left_in (pass_at (queues_of rows.old.items) 0) receiver)) }
    ensures settled { OnOk result ((s : ℕ) → s < parties
        → IsSettled (pass_at (queues_of rows.old.items) 0) receiver s) }
    ensures fronts { OnOk result (Fronts 0 parties (queues_of rows.old.items)
        (queues_of rows.new.items)) }
{
    let mut own = whole(rows, parties, receiver);
    let mut lists = empty_lists(alloc, parties)?;
    drain(rt, &mut own, &mut lists)?;
    append_all(list, &mut lists, parties)
}

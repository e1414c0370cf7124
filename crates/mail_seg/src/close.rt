//! What is left in the boxes.
ghost use Rattle.std.specs.Prelude.{ℕ, ◌≡◌, ◌+◌, ◌-◌, ◌*◌, ◌<◌, ◌≤◌, ◌++◌, IfOk, OnOk, map, length, slice_get, Some};
ghost use Rattle.mail_core.specs.SetUp.{IsLeft, in_poll_order};
ghost use Rattle.mail_seg.specs.Ends.{log_of, sides_of, AreTied};
ghost use Rattle.mail_seg.specs.Rows.{row_at};
ghost use Rattle.mail_seg.specs.Left.{queues_of, pass_at, Shifted, IsBox, left_in, IsSettled};

use crate::drain::drain_box;
use crate::ends::MailSeg;
use crate::row::Row;
use room_kinds::Msg;
use std::alloc::{AllocError, Global};
use std::collections::VecDeque;
use std::sync::Wait;

fn drain_receiver<R: Wait>(
    rt: &R,
    alloc: Global,
    rows: &mut Vec<Row>,
    parties: u8,
    receiver: u8,
    list: &mut Vec<Msg>,
) -> Result<(), AllocError>
    requires receiver { receiver < parties }
    requires rows { length rows.old.items ≡ parties }
    requires long { (s : ℕ) → s < parties → 6 ≤ length (row_at (queues_of rows.old.items) s) }
    requires boxes { (b : ℕ) → b < 6
        → IsBox parties receiver (pass_at (queues_of rows.old.items) b) }
    ensures list { OnOk result (list.new.items ≡ list.old.items
        ++ in_poll_order parties (λ s p.
        left_in (pass_at (queues_of rows.old.items) (5 - p)) receiver s)) }
    ensures settled { OnOk result ((s b : ℕ) → s < parties → b < 6
        → IsSettled (pass_at (queues_of rows.old.items) b) receiver s) }
    ensures shifted { OnOk result (Shifted 6 parties (queues_of rows.old.items)
        (queues_of rows.new.items)) }
{
    for _b in 0..6u8 {
        drain_box(rt, alloc, rows, parties, receiver, list)?;
    }
    Ok(())
}

/// A list for each controller.
fn drain_all<R: Wait>(
    rt: &R,
    alloc: Global,
    rows: &mut Vec<Row>,
    parties: u8,
) -> Result<Vec<Vec<Msg>>, AllocError>
    requires some { 0 < parties }
    requires rows { length rows.old.items ≡ parties }
    requires long { (s : ℕ) → s < parties
        → length (row_at (queues_of rows.old.items) s) + 6 ≡ parties * 6 }
    requires boxes { (r b : ℕ) → r + 1 < parties → b < 6
        → IsBox parties r (pass_at (queues_of rows.old.items) (r * 6 + b)) }
    ensures count { IfOk result (λ v. length v.items + 1 ≡ parties) }
    ensures order { IfOk result (λ v.
        (r : ℕ) → r + 1 < parties
        → slice_get (map (λ x. x.items) v.items) r ≡ Some (in_poll_order parties (λ s p.
        left_in (pass_at (queues_of rows.old.items) (r * 6 + (5 - p))) r s))) }
    ensures settled { IfOk result (λ _.
        (s r b : ℕ) → s < parties → r + 1 < parties → b < 6
        → IsSettled (pass_at (queues_of rows.old.items) (r * 6 + b)) r s) }
{
    let mut all = Vec::new(alloc);
    for receiver in 0..parties - 1 {
        let mut list = Vec::new(alloc);
        drain_receiver(rt, alloc, rows, parties, receiver, &mut list)?;
        all.push(list)?;
    }
    Ok(all)
}

/// The passes of all ends, by party.
#[tactic(auto, using(crate::proofs::CloseLemmas::apart_steps))]
fn apart(alloc: Global, ends: Vec<MailSeg>) -> Result<Vec<Row>, AllocError>
    ensures { IfOk result (λ rows. queues_of rows.items ≡ map sides_of ends.items) }
{
    let mut queue = VecDeque::from(ends);
    let mut rows = Vec::new(alloc);
    while let Some(end) = queue.pop_front() {
        rows.push(Row {
            passes: VecDeque::from(end.outlets),
        })?;
    }
    Ok(rows)
}

pub(crate) fn all_left<R: Wait>(
    rt: &R,
    alloc: Global,
    ends: Vec<MailSeg>,
) -> Result<Vec<Vec<Msg>>, AllocError>
    requires some { 0 < length ends.items }
    requires tied { AreTied tt ends.items }
    ensures { IfOk result (λ left. IsLeft (map log_of ends.items) (map (λ v. v.items) left.items)) }
{
    let parties = ends[0].parties;
    let mut rows = apart(alloc, ends)?;
    drain_all(rt, alloc, &mut rows, parties)
}

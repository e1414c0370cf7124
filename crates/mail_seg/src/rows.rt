//! The passes of all parties, with nothing posted yet.
ghost use Rattle.std.specs.Prelude.{ℕ, ◌≡◌, ◌+◌, ◌-◌, ◌*◌, ◌<◌, ◌≤◌, ◌∷◌, ◌++◌, [], true, IfOk, OnOk, length, replicate, slice_set};
ghost use Rattle.mail_seg.specs.Sides.{side, poster_side};
ghost use Rattle.mail_seg.specs.Wires.{poster_count};
ghost use Rattle.mail_seg.specs.Rows.{rows_of, row_at, Dealt, AddedBox, RowsTo};

use crate::shared_box::BoxPass;
use std::alloc::{AllocError, Global};

#[tactic(auto, using(crate::proofs::RowLemmas::table_steps))]
fn give(rows: &mut Vec<Vec<BoxPass>>, party: u8, pass: BoxPass) -> Result<(), AllocError>
    requires { party < length rows.old.items }
    ensures { OnOk result (rows_of rows.new.items ≡ slice_set (rows_of rows.old.items) party
        (row_at (rows_of rows.old.items) party ++ side pass ∷ [])) }
{
    let row = &mut rows[usize::from(party)];
    row.push(pass)?;
    Ok(())
}

/// Splits off passes for the parties from one to another.
fn deal(own: &mut BoxPass, rows: &mut Vec<Vec<BoxPass>>, from: u8, to: u8) -> Result<(), AllocError>
    requires takes { (side own.old).takes ≡ true }
    requires next { (side own.old).next ≡ from }
    requires order { from ≤ to }
    requires rows { to ≤ length rows.old.items }
    ensures own { OnOk result (side own.new ≡ record (side own.old) { next = to }) }
    ensures dealt { OnOk result (Dealt from to
        (poster_side (side own.old).to (side own.old).prio (side own.old).queue)
        (rows_of rows.old.items) (rows_of rows.new.items)) }
{
    for party in from..to {
        give(rows, party, own.split_next()?)?;
    }
    Ok(())
}

/// How many parties post at a priority, from the first on: at the system level, priority 0, all but
/// the environment, which is the last.
fn poster_count(parties: u8, prio: u8) -> u8
    requires { 0 < parties }
    ensures { result ≡ poster_count parties prio }
{
    if prio == 0 { parties - 1 } else { parties }
}

/// Gives the parties that don't post at a priority a pass that does nothing. There is one at the
/// system level, the environment, and none else.
fn give_idle(
    rows: &mut Vec<Vec<BoxPass>>,
    parties: u8,
    prio: u8,
    idle: BoxPass,
) -> Result<(), AllocError>
    requires some { 0 < parties }
    requires rows { length rows.old.items ≡ parties }
    ensures { OnOk result (Dealt (poster_count parties prio) parties (λ s. side idle)
        (rows_of rows.old.items) (rows_of rows.new.items)) }
{
    if prio == 0 {
        return give(rows, parties - 1, idle);
    }
    Ok(())
}

/// A box, with a pass for each party.
fn add_box(
    alloc: Global,
    rows: &mut Vec<Vec<BoxPass>>,
    parties: u8,
    receiver: u8,
    prio: u8,
) -> Result<(), AllocError>
    requires receiver { receiver + 1 < parties }
    requires rows { length rows.old.items ≡ parties }
    ensures { OnOk result ((queue : ℕ × ℕ)
        × AddedBox parties receiver prio queue (rows_of rows.old.items) (rows_of rows.new.items)) }
{
    let mut own = BoxPass::new(alloc, receiver, prio)?;
    deal(&mut own, rows, 0, receiver)?;
    let idle = own.keep_next()?;
    deal(&mut own, rows, receiver + 1, poster_count(parties, prio))?;
    give_idle(rows, parties, prio, idle)?;
    give(rows, receiver, own)
}

/// The six boxes of a controller.
fn add_six(
    alloc: Global,
    rows: &mut Vec<Vec<BoxPass>>,
    parties: u8,
    receiver: u8,
) -> Result<(), AllocError>
    requires receiver { receiver + 1 < parties }
    requires rows { RowsTo (receiver * 6) parties (rows_of rows.old.items) }
    ensures { OnOk result (RowsTo (receiver * 6 + 6) parties (rows_of rows.new.items)) }
{
    for step in 0..6u8 {
        add_box(alloc, rows, parties, receiver, 5 - step)?;
    }
    Ok(())
}

fn no_passes(alloc: Global, parties: u8) -> Result<Vec<Vec<BoxPass>>, AllocError>
    ensures { IfOk result (λ rows. rows_of rows.items ≡ replicate parties []) }
{
    let mut rows = Vec::new(alloc);
    for _party in 0..parties {
        rows.push(Vec::new(alloc))?;
    }
    Ok(rows)
}

/// All passes, by party.
pub(crate) fn all_rows(alloc: Global, parties: u8) -> Result<Vec<Vec<BoxPass>>, AllocError>
    requires { 1 < parties }
    ensures { IfOk result (λ rows. RowsTo ((parties - 1) * 6) parties (rows_of rows.items)) }
{
    let mut rows = no_passes(alloc, parties)?;
    for receiver in 0..parties - 1 {
        add_six(alloc, &mut rows, parties, receiver)?;
    }
    Ok(rows)
}

//! Ends with nothing posted yet.
ghost use Rattle.std.specs.Prelude.{◌≡◌, ◌-◌, ◌*◌, ◌<◌, IfOk, map};
ghost use Rattle.mail_core.specs.SetUp.{AreFresh};
ghost use Rattle.mail_seg.specs.Ends.{log_of, AreTied};
ghost use Rattle.mail_seg.specs.Rows.{RowsTo, EndsTo, rows_of};

use crate::ends::MailSeg;
use crate::rows::all_rows;
use crate::shared_box::BoxPass;
use std::alloc::{AllocError, Global};
use std::mem;

impl MailSeg {
    ghost use Rattle.std.specs.Prelude.{◌≡◌, [], IfOk, map};
    ghost use Rattle.mail_seg.specs.Sides.{side};
    ghost use Rattle.mail_seg.specs.Wires.{wiring, IsWired};
    ghost use Rattle.mail_seg.specs.Ends.{posted_at, taken_at};
    ghost use Rattle.mail_seg.specs.Rows.{IsEnd};

    #[tactic(auto, using(mail_core::proofs::FreshLemmas::fresh_steps, crate::proofs::MakeLemmas::end_steps))]
    fn new(
        alloc: Global,
        party: u8,
        parties: u8,
        outlets: Vec<BoxPass>,
    ) -> Result<MailSeg, AllocError>
        requires wired { IsWired (wiring party parties (map side outlets.items)) }
        requires posted { posted_at (map side outlets.items) ≡ (λ _ _. []) }
        requires taken { taken_at (map side outlets.items) party ≡ (λ _ _. []) }
        ensures { IfOk result (λ e. IsEnd parties party (map side outlets.items) e) }
    {
        let looks = vec![in alloc; 0u64; 6]?;
        Ok(MailSeg {
            party,
            parties,
            outlets,
            looks,
        })
    }
}

#[tactic(auto, using(crate::proofs::MakeLemmas::make_steps))]
fn ends_of(alloc: Global, parties: u8, rows: Vec<Vec<BoxPass>>) -> Result<Vec<MailSeg>, AllocError>
    requires { RowsTo ((parties - 1) * 6) parties (rows_of rows.items) }
    ensures { IfOk result (λ ends. EndsTo parties parties (rows_of rows.items) ends.items) }
{
    let mut rows = rows;
    let mut ends = Vec::new(alloc);
    for party in 0..parties {
        let outlets = mem::replace(&mut rows[usize::from(party)], Vec::new(alloc));
        ends.push(MailSeg::new(alloc, party, parties, outlets)?)?;
    }
    Ok(ends)
}

#[tactic(auto, using(crate::proofs::MakeLemmas::make_steps))]
pub(crate) fn all_ends(alloc: Global, parties: u8) -> Result<Vec<MailSeg>, AllocError>
    requires { 1 < parties }
    ensures fresh { IfOk result (λ ends. AreFresh parties (map log_of ends.items)) }
    ensures tied { IfOk result (λ ends. AreTied tt ends.items) }
{
    let rows = all_rows(alloc, parties)?;
    ends_of(alloc, parties, rows)
}

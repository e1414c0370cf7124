//! An office and its ends, with nothing posted yet.
ghost use Rattle.std.specs.Prelude.{ℕ, ◌≡◌, ◌+◌, ◌*◌, ◌<◌, [], IfOk, replicate, length, vec_len, map};
ghost use Rattle.mail_core.specs.EndLog.{fresh};
ghost use Rattle.mail_core.specs.SetUp.{AreFresh};

use crate::ends::{LocalOffice, MailLocal};
use crate::local_lane::Lane;
use room_kinds::Msg;
use std::alloc::{AllocError, Global};
use std::collections::LinkedList;

fn empty_lists(alloc: Global, count: usize) -> Result<Vec<LinkedList<Msg>>, AllocError>
    ensures items { IfOk result (λ v. v.items ≡ replicate count []) }
    ensures len { IfOk result (λ v. vec_len v ≡ count) }
{
    let mut lists = Vec::new(alloc);
    for _i in 0..count {
        lists.push(LinkedList::new(alloc))?;
    }
    Ok(lists)
}

fn empty_lanes(alloc: Global, count: usize) -> Result<Vec<Lane>, AllocError>
    ensures items { IfOk result (λ v. v.items ≡ replicate count []) }
    ensures len { IfOk result (λ v. vec_len v ≡ count) }
{
    let mut lanes = Vec::new(alloc);
    for _i in 0..count {
        lanes.push(Lane::new(alloc))?;
    }
    Ok(lanes)
}

impl LocalOffice {
    pub(crate) fn new(alloc: Global, parties: u8) -> Result<LocalOffice, AllocError>
        ensures parties { IfOk result (λ o. o.parties ≡ parties) }
        ensures lanes { IfOk result (λ o. o.lanes.items ≡ replicate ((parties * parties) * 6) []) }
    {
        let lanes = empty_lanes(alloc, usize::from(parties) * usize::from(parties) * 6)?;
        Ok(LocalOffice { parties, lanes })
    }
}

impl MailLocal {
    ghost use Rattle.std.specs.Prelude.{ℕ, ◌≡◌, ◌+◌, ◌*◌, ◌<◌, IfOk, map, length};
    ghost use Rattle.mail_core.specs.EndLog.{fresh};
    ghost use Rattle.mail_core.specs.SetUp.{AreFresh};
    ghost use Rattle.mail_core.specs.Local.{log_of};

    #[tactic(auto, using(crate::proofs::FreshLemmas::fresh_steps))]
    fn new(alloc: Global, parties: u8, party: u8) -> Result<MailLocal, AllocError>
        requires { party < parties }
        ensures { IfOk result (λ e. log_of e ≡ fresh parties party) }
    {
        let posted = empty_lists(alloc, usize::from(parties) * 6)?;
        let taken = empty_lists(alloc, usize::from(parties) * 6)?;
        let looks = vec![in alloc; 0u64; usize::from(parties) * 6]?;
        Ok(MailLocal {
            alloc,
            party,
            parties,
            posted,
            taken,
            looks,
        })
    }

    #[tactic(auto, using(crate::proofs::FreshLemmas::fresh_steps))]
    pub(crate) fn all(alloc: Global, parties: u8) -> Result<Vec<MailLocal>, AllocError>
        ensures { IfOk result (λ v. AreFresh parties (map log_of v.items)) }
    {
        let mut ends = Vec::new(alloc);
        for party in 0..parties {
            ends.push(MailLocal::new(alloc, parties, party)?)?;
        }
        Ok(ends)
    }
}

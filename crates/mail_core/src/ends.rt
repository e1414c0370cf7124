//! The office and the ends of mail on one thread.
ghost use Rattle.std.specs.Prelude.{◌≡◌, ◌*◌, ◌<◌, vec_len};

use crate::local_lane::Lane;
use room_kinds::Msg;
use std::alloc::Global;
use std::collections::LinkedList;

/// The lanes of all parties.
#[derive(Drop)]
pub struct LocalOffice {
    pub(crate) parties: u8,
    pub(crate) lanes: Vec<Lane>,
    ghost all_lanes: { vec_len lanes ≡ (parties * parties) * 6 },
}

/// The end of one party, with copies of what it posted and took.
#[derive(Drop)]
pub struct MailLocal {
    pub(crate) alloc: Global,
    pub(crate) party: u8,
    pub(crate) parties: u8,
    pub(crate) posted: Vec<LinkedList<Msg>>,
    pub(crate) taken: Vec<LinkedList<Msg>>,
    pub(crate) looks: Vec<u64>,
    ghost one_of: { party < parties },
    ghost all_posted: { vec_len posted ≡ parties * 6 },
    ghost all_taken: { vec_len taken ≡ parties * 6 },
    ghost all_looks: { vec_len looks ≡ parties * 6 },
}

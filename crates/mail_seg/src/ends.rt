//! The end of one party.
ghost use Rattle.std.specs.Prelude.{◌≡◌, map, vec_len};
ghost use Rattle.mail_seg.specs.Sides.{side};
ghost use Rattle.mail_seg.specs.Wires.{wiring, IsWired};

use crate::shared_box::BoxPass;

/// The end of one party: its passes to the six boxes of each controller, priority 5 first. The passes
/// to its own boxes take, too.
#[derive(Drop)]
pub struct MailSeg {
    pub(crate) party: u8,
    pub(crate) parties: u8,
    pub(crate) outlets: Vec<BoxPass>,
    pub(crate) looks: Vec<u64>,
    ghost wired: { IsWired (wiring party parties (map side outlets.items)) },
    ghost all_looks: { vec_len looks ≡ 6 },
}

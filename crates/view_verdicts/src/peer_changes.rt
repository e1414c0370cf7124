//! Whom the places of an actor's ports lead to, and led to before.
use room_kinds::SlotId;
use room_show::PeerView;
use room_wiring::Wiring;
use view_journals::{put_end, put_port};
use view_pages::Page;

/// A place of one of the ports of an actor, on a line of its own.
fn begin_line(page: &mut Page, wiring: &Wiring, slot: SlotId, peer: &PeerView) {
    page.put(b"        ");
    put_port(page, wiring, slot, peer.port, i64::from(peer.place));
}

/// Tells whom a place leads to.
pub(crate) fn tell_peer(page: &mut Page, wiring: &Wiring, slot: SlotId, peer: &PeerView) {
    begin_line(page, wiring, slot, peer);
    page.put(b" leads to ");
    put_end(page, wiring, peer.peer);
    page.end_line();
}

/// Tells that a place leads to nobody, and whom it led to.
fn tell_gone(page: &mut Page, wiring: &Wiring, slot: SlotId, old: &PeerView) {
    begin_line(page, wiring, slot, old);
    page.put(b" led to ");
    put_end(page, wiring, old.peer);
    page.put_line(b", and leads to nobody");
}

/// Tells whom a place led to, and whom it leads to, where these are others.
fn tell_moved(page: &mut Page, wiring: &Wiring, slot: SlotId, old: &PeerView, new: &PeerView) {
    if old.peer == new.peer {
        return;
    }
    begin_line(page, wiring, slot, old);
    page.put(b" led to ");
    put_end(page, wiring, old.peer);
    page.put(b", and leads to ");
    put_end(page, wiring, new.peer);
    page.end_line();
}

/// Where a peer stands in the order of ports and places.
fn rank(peer: &PeerView) -> (u16, u32) {
    (peer.port, peer.place)
}

/// Tells of those before a place that they lead to nobody; the others are left.
fn tell_before<'a>(
    page: &mut Page,
    wiring: &Wiring,
    slot: SlotId,
    old: &'a [PeerView],
    place: (u16, u32),
) -> &'a [PeerView] {
    let count = old.iter().take_while(|peer| rank(peer) < place).count();
    let (gone, left) = old.split_at(count.min(old.len()));
    for peer in gone {
        tell_gone(page, wiring, slot, peer);
    }
    left
}

/// Tells which places led to others, and are no more.
fn tell_gone_ones(page: &mut Page, wiring: &Wiring, slot: SlotId, gone: &[PeerView]) {
    for old in gone {
        tell_gone(page, wiring, slot, old);
    }
}

/// Tells which places of the ports of an actor in a slot lead to others than before. Both are in order of port and
/// place.
pub(crate) fn tell_peer_changes(
    page: &mut Page,
    wiring: &Wiring,
    slot: SlotId,
    before: &[PeerView],
    after: &[PeerView],
) {
    let mut left = before;
    for new in after {
        left = tell_before(page, wiring, slot, left, rank(new));
        match left.split_first() {
            Some((old, rest)) if rank(old) == rank(new) => {
                tell_moved(page, wiring, slot, old, new);
                left = rest;
            }
            _ => tell_peer(page, wiring, slot, new),
        }
    }
    tell_gone_ones(page, wiring, slot, left);
}

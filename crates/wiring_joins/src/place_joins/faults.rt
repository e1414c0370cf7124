//! Joins that a wiring may not have.
ghost use Rattle.std.specs.Prelude.{◌≡◌, length};
ghost use Rattle.wiring_places.specs.place_rules.Partners.{is_socket_pair, is_socket_away, has_socket_pair, has_socket_away};

use crate::owners::owner_of;
use room_wiring::{Partner, Slot};
use wiring_places::Place;

/// Whether a place that is joined to this partner is a socket joined to a socket.
fn is_socket_pair(place: Place, partner: Partner) -> bool
    ensures { result ≡ is_socket_pair place partner }
{
    match partner {
        Partner::Nobody => false,
        Partner::End { .. } => false,
        Partner::Socket { .. } => place.role.is_socket(),
    }
}

/// Whether it is an end place joined to a socket of another owner.
fn is_socket_away(slots: &[Slot], place: Place, partner: Partner) -> bool
    ensures { result ≡ is_socket_away slots.now place partner }
{
    match partner {
        Partner::Nobody => false,
        Partner::End { .. } => false,
        Partner::Socket { slot, .. } => {
            if place.role.is_end() {
                owner_of(slots, place.slot) != owner_of(slots, slot.0)
            } else {
                false
            }
        }
    }
}

/// Whether some two sockets are joined to each other. It takes time in proportion to the places.
pub fn has_socket_pair(places: &[Place], partners: &[Partner]) -> bool
    requires { length places.now ≡ length partners.now }
    ensures { result ≡ has_socket_pair places.now partners.now }
{
    for (i, place) in places.iter().enumerate() {
        if is_socket_pair(*place, partners[i]) {
            return true;
        }
    }
    false
}

/// Whether some end place is joined to a socket of a slot with another owner. It takes time in
/// proportion to the places.
pub fn has_socket_away(slots: &[Slot], places: &[Place], partners: &[Partner]) -> bool
    requires { length places.now ≡ length partners.now }
    ensures { result ≡ has_socket_away slots.now places.now partners.now }
{
    for (i, place) in places.iter().enumerate() {
        if is_socket_away(slots, *place, partners[i]) {
            return true;
        }
    }
    false
}

//! The keys of states.
ghost use Rattle.std.specs.Prelude.{◌≡◌, map, IfOk};
ghost use Rattle.chart_compile.specs.chart_places.Places.{place_view, state_key};

use crate::chart_places::Place;
use chart_reader::named_key;
use room_kinds::Sequence;
use std::alloc::{AllocError, Global};

/// The keys of states.
pub fn state_keys<'a>(alloc: Global, places: &[Place<'a>]) -> Result<Vec<Sequence<u8>>, AllocError>
    ensures { IfOk result (λ keys.
        keys.items ≡ map (λ p. state_key p.path) (map place_view places.now)) }
{
    let mut keys = Vec::new(alloc);
    for place in places {
        let key = named_key(alloc, 1, &place.state.name, place.graph.owner.as_slice())?;
        keys.push(Sequence::from(key))?;
    }
    Ok(keys)
}

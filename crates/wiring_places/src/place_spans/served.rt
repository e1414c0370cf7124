//! How many service access points are joined to each service provision point.
ghost use Rattle.std.specs.Prelude.{◌≡◌, ℕ, ◌+◌, ◌*◌, IfOk};
ghost use Rattle.wiring_places.specs.binding_stretches.Taken.{taken_in};
ghost use Rattle.wiring_places.specs.place_rules.Counts.{service_key, served_at};

use crate::binding_stretches::Taken;
use crate::place_rules::LayerJoin;
use std::alloc::{AllocError, Global};

/// The number of a port of a slot among all services.
pub fn service_key(slot: u16, port: u16) -> u64
    ensures { result ≡ service_key slot port }
{
    u64::from(slot) * 65536 + u64::from(port)
}

/// For each port of each slot, by its key, how many service access points these joins give it.
pub fn served_table(alloc: Global, joins: &[LayerJoin]) -> Result<Taken, AllocError>
    ensures { IfOk result (λ t. taken_in t ≡ served_at joins.now) }
{
    let mut table = Taken::new(alloc);
    for join in joins {
        table.take(service_key(join.spp_slot, join.spp), 1)?;
    }
    Ok(table)
}

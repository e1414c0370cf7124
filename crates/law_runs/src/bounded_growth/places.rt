//! The places of links by name.
ghost use Rattle.std.specs.Prelude.{ℕ, ◌+◌, ◌≤◌};
ghost use Rattle.room_kinds.specs.declared.message.Msg.{Msg as AnyMsg};
ghost use Rattle.room_kinds.specs.declared.numbers.Endpoint.{Endpoint as AnyEndpoint};
ghost use Rattle.room_kinds.specs.declared.system.SysKind.{SysKind as AnyKind};
ghost use Rattle.room_wiring.specs.declared.tables.Tables.{Tables as AnyTables};
ghost use Rattle.room_wiring.specs.Places.{place_count};
ghost use Rattle.actor_duties.specs.State.{NameTable};
ghost use Rattle.actor_duties.specs.Names.{register_spp, register_sap, withdraw, table_duty};
ghost use Rattle.law_runs.specs.bounded_growth.Growth.{AreGrown};

/// A name table after `n` registrations is one after `n + 1` when one more point registers, and stays
/// one after `n` when a point withdraws.
pub fn registrations_grow_by_one()
    ensures provider { (t : AnyTables) (b n name protocol base : ℕ) (e : AnyEndpoint)
        (table : NameTable)
        → base ≤ b
        → AreGrown b n table
        → AreGrown b (n + 1) (register_spp t name protocol base e table).now }
    ensures user { (t : AnyTables) (b n name protocol : ℕ) (e : AnyEndpoint) (table : NameTable)
        → AreGrown b n table
        → AreGrown b (n + 1) (register_sap t name protocol e table).now }
    ensures withdrawal { (t : AnyTables) (b n : ℕ) (e : AnyEndpoint) (table : NameTable)
        → AreGrown b n table
        → AreGrown b n (withdraw t e table).now }
{}

/// So a name table after `n` messages is one after `n + 1` at each message, where no port has more than
/// `b` places.
pub fn duties_grow_by_one()
    ensures { (t : AnyTables) (me b n : ℕ) (table : NameTable) (kind : AnyKind) (m : AnyMsg)
        → ((s p : ℕ) → place_count t s p ≤ b)
        → AreGrown b n table
        → AreGrown b (n + 1) (table_duty t me table kind m).now }
{}

//! A model has one wiring.
//!
//! No code: the law that the definition of a model's wiring leaves nothing open.
ghost use Rattle.std.specs.Prelude.{◌≡◌};
ghost use Rattle.room_ast.specs.Trees.{ModelTree};
ghost use Rattle.room_wiring.specs.declared.tables.Tables.{Tables as AnyTables};
ghost use Rattle.binding_expand.specs.Wirings.{IsWiringOf};

/// Two wirings of a model are the same.
pub fn wirings_are_one()
    ensures { (m : ModelTree) (t u : AnyTables) → IsWiringOf m t → IsWiringOf m u → t ≡ u }
{}

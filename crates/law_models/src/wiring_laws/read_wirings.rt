//! The wiring of a model that is read from a text is well named.
//!
//! No code: the law.
ghost use Rattle.std.specs.Prelude.{◌≡◌, None};
ghost use Rattle.room_ast.specs.Tokens.{model_tokens};
ghost use Rattle.room_ast.specs.Trees.{ModelTree};
ghost use Rattle.room_wiring.specs.WellNamed.{IsWellNamed};
ghost use Rattle.room_wiring.specs.declared.tables.Tables.{Tables as AnyTables};
ghost use Rattle.structure_check.specs.List.{all_rules};
ghost use Rattle.structure_check.specs.Rules.{first_broken};
ghost use Rattle.room_tokens.specs.token_names.Names.{HasNames};
ghost use Rattle.binding_expand.specs.Wirings.{IsWiringOf};
ghost use Rattle.law_models.specs.wiring_laws.read_wirings.Differ.{StatesDiffer};

/// The wiring of a model that keeps all rules is well named, where the names among its tokens are names
/// of the language, as they are in each text, and the states of each graph of a chart have different
/// names.
pub fn read_wirings_are_well_named()
    ensures { (m : ModelTree) (t : AnyTables)
        → first_broken all_rules m ≡ None
        → HasNames (model_tokens m)
        → StatesDiffer m
        → IsWiringOf m t
        → IsWellNamed t }
{}

//! The states of each graph of a chart without a fault have different names, so that the wiring of a
//! model that is read from a text and has no fault is well named.
//!
//! No code: the laws.
ghost use Rattle.std.specs.Prelude.{◌≡◌, List, Option, None};
ghost use Rattle.room_ast.specs.Tokens.{model_tokens};
ghost use Rattle.room_ast.specs.Trees.{ModelTree};
ghost use Rattle.room_wiring.specs.WellNamed.{IsWellNamed};
ghost use Rattle.room_wiring.specs.declared.tables.Tables.{Tables as AnyTables};
ghost use Rattle.structure_check.specs.List.{all_rules};
ghost use Rattle.structure_check.specs.Rules.{first_broken};
ghost use Rattle.room_tokens.specs.token_names.Names.{HasNames};
ghost use Rattle.chart_model.specs.Chart.{Chart};
ghost use Rattle.chart_reader.specs.model_charts.Charts.{HasCharts};
ghost use Rattle.binding_expand.specs.Wirings.{IsWiringOf};
ghost use Rattle.law_models.specs.wiring_laws.read_wirings.Differ.{StatesDiffer};

/// The wiring of a model that keeps all rules, and none of whose charts has a fault, is well named, where
/// the names among the model's tokens are names of the language, as they are in each text.
pub fn sound_wirings_are_well_named()
    ensures { (m : ModelTree) (t : AnyTables) (charts : List (Option Chart))
        → first_broken all_rules m ≡ None
        → HasNames (model_tokens m)
        → HasCharts m charts
        → IsWiringOf m t
        → IsWellNamed t }
{}

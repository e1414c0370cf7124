//! Each port of a model's wiring has a number of 16 bits, and so the frame service can be asked.
//!
//! No code: laws of models whose classes have few ports, as those that break no rule.
ghost use Rattle.std.specs.Prelude.{◌≡◌, None, true};
ghost use Rattle.room_ast.specs.Trees.{ModelTree};
ghost use Rattle.room_wiring.specs.declared.tables.Tables.{Tables as AnyTables};
ghost use Rattle.wiring_plan.specs.wiring_classes.Classes.{classes_of};
ghost use Rattle.wiring_slots.specs.model_slots.Answers.{slots_in};
ghost use Rattle.check_mappings.specs.count_rules.Counts.{has_few_parts};
ghost use Rattle.structure_check.specs.Rules.{first_broken};
ghost use Rattle.structure_check.specs.List.{all_rules};
ghost use Rattle.service_messages.specs.slot_runs.Runs.{IsDepthFirst};
ghost use Rattle.frame_service.specs.frame_imports.Numbered.{ArePortsNumbered};

/// Tables that have the slots and the classes of a model that breaks no rule, as its wiring has, meet
/// what the frame service asks of a wiring.
pub fn wiring_fits()
    ensures order { (m : ModelTree) (t : AnyTables)
        → first_broken all_rules m ≡ None
        → t.slots ≡ slots_in m
        → t.classes ≡ classes_of m
        → IsDepthFirst t }
    ensures ports { (m : ModelTree) (t : AnyTables)
        → first_broken all_rules m ≡ None
        → t.slots ≡ slots_in m
        → t.classes ≡ classes_of m
        → ArePortsNumbered t }
{}

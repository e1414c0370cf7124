//! Tables that are put together name only what they have.
ghost use Rattle.std.specs.Prelude.{◌≡◌, ◌≤◌, Bool, List, true, length};
ghost use Rattle.room_ast.specs.Trees.{ModelTree};
ghost use Rattle.room_wiring.specs.Consistent.{IsConsistent};
ghost use Rattle.room_wiring.specs.declared.slot.Partner.{Partner};
ghost use Rattle.check_classes.specs.class_rules.Ends.{has_known_actors};
ghost use Rattle.check_bindings.specs.structure_rules.Threads.{threads_are_few};
ghost use Rattle.wiring_places.specs.declared.place_rules.place.LayerJoin.{LayerJoin};
ghost use Rattle.wiring_slots.specs.model_slots.Answers.{slots_in, wired};
ghost use Rattle.binding_expand.specs.wiring_tables.Assembled.{assembled, AreComplete};

/// The tables of a model that keeps the rules, with at most 4,096 slots, are consistent where each place
/// has a partner and each slot an answer for each controller.
pub fn assembled_tables_are_consistent()
    ensures { (m : ModelTree) (joins : List LayerJoin) (partners : List Partner)
        (told : List (List Bool))
        → has_known_actors m ≡ true
        → threads_are_few m ≡ true
        → length (slots_in m) ≤ 4096
        → AreComplete (wired m) joins partners told
        → IsConsistent (assembled (wired m) joins partners told) }
{}

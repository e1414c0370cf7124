//! The subsystem class that is wired.
ghost use Rattle.std.specs.Prelude.{◌≡◌, map, option_map};
ghost use Rattle.room_ast.specs.Trees.{class_view};
ghost use Rattle.wiring_slots.specs.slot_names.Found.{named_in, wired_in};
ghost use Rattle.wiring_slots.specs.slot_names.Wireds.{wired_view};

use check_tables::Container;
use room_ast::{Class, Name, SubsystemItem};
use wiring_plan::wired_name;

/// A subsystem class: its items, and what it knows of its references.
#[derive(Clone, Copy, Drop)]
pub(crate) struct Wired<'m, 't> {
    pub(crate) items: &'t [SubsystemItem],
    pub(crate) container: &'t Container<'m>,
}

/// The first subsystem class with this name, if there is one.
fn named_in<'m, 't>(
    name: &Name,
    classes: &'t [Class],
    subsystems: &'t [Container<'m>],
) -> Option<Wired<'m, 't>>
    ensures { option_map wired_view result
        ≡ named_in (map class_view classes.entry.now) subsystems.entry.now name.now }
{
    let mut left = subsystems;
    for class in classes {
        if let Class::Subsystem(subsystem) = class {
            let [container, others @ ..] = left else {
                return None;
            };
            if name.is(subsystem.name.as_bytes()) {
                return Some(Wired {
                    items: subsystem.items.as_slice(),
                    container,
                });
            }
            left = others;
        }
    }
    None
}

/// The subsystem class that is wired, if there is one.
pub(crate) fn wired_in<'m, 't>(
    classes: &'t [Class],
    subsystems: &'t [Container<'m>],
) -> Option<Wired<'m, 't>>
    ensures { option_map wired_view result
        ≡ wired_in (map class_view classes.entry.now) subsystems.entry.now }
{
    match wired_name(classes) {
        Some(name) => named_in(name, classes, subsystems),
        None => None,
    }
}

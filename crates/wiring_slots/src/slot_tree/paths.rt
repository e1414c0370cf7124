//! The ends of paths: what the path of a slot has behind that of its container.
//!
//! No whole path is written, since each would repeat those of all containers around it.

ghost use Rattle.std.specs.Prelude.{◌≡◌, ◌++◌, [], option_map, OnOk};
ghost use Rattle.std.specs.Option.{option_map_or};
ghost use Rattle.wiring_slots.specs.slot_tree.Slots.{index_text, segment_text, labels_of_class};
ghost use Rattle.wiring_slots.specs.slot_tree.WaitingSlots.{slash_behind, labels_in, end_in};

use crate::slot_tree::children::Waiting;
use crate::slot_tree::names::{ReferenceLabel, SlotNames};
use itoa::Buffer;
use std::alloc::AllocError;

fn push_index(text: &mut Vec<u8>, replicated: bool, index: u32) -> Result<(), AllocError>
    ensures { OnOk result (text.new.items ≡ text.old.items ++ index_text replicated index) }
{
    if replicated {
        let mut digits = Buffer::new();
        text.push(b':')?;
        text.extend_from_slice(digits.format(index).as_bytes())?;
    }
    Ok(())
}

fn push_segment(
    text: &mut Vec<u8>,
    label: Option<&ReferenceLabel>,
    index: u32,
) -> Result<(), AllocError>
    ensures { OnOk result (text.new.items ≡ text.old.items
        ++ option_map_or (segment_text index) (option_map (λ l. l.now) label.entry) []) }
{
    if let Some(label) = label {
        text.extend_from_slice(label.name.as_bytes())?;
        push_index(text, label.replicated, index)?;
    }
    Ok(())
}

/// The labels of the references of a class.
fn labels_of<'a>(names: &'a SlotNames, class: u16) -> &'a [ReferenceLabel]
    ensures { result.now ≡ labels_of_class names.entry.now class }
{
    match names.classes.as_slice().get(usize::from(class)) {
        Some(labels) => labels.as_slice(),
        None => &[],
    }
}

/// The labels of the references of a container: of this class, or of the subsystem.
fn labels_in<'a>(names: &'a SlotNames, class: Option<u16>) -> &'a [ReferenceLabel]
    ensures { result.now ≡ labels_in names.entry.now class }
{
    match class {
        Some(class) => labels_of(names, class),
        None => names.subsystem.as_slice(),
    }
}

/// Adds the `/` that stands behind the path of a container of this class; the subsystem has no path.
fn push_slash(text: &mut Vec<u8>, class: Option<u16>) -> Result<(), AllocError>
    ensures { OnOk result (text.new.items ≡ text.old.items ++ slash_behind class) }
{
    if let Some(_) = class {
        text.push(b'/')?;
    }
    Ok(())
}

/// Writes over the text what the path of a slot that waits has behind that of its container.
pub(crate) fn write_end(
    text: &mut Vec<u8>,
    names: &SlotNames,
    waiting: &Waiting,
) -> Result<(), AllocError>
    ensures { OnOk result (text.new.items ≡ end_in names.now waiting.now) }
{
    let labels = labels_in(names, waiting.container_class);
    let label = labels.get(usize::from(waiting.slot.reference));
    text.clear();
    push_slash(text, waiting.container_class)?;
    push_segment(text, label, waiting.slot.index)
}

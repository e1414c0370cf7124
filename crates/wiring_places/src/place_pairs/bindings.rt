//! The pairs of the bindings of containers.
ghost use Rattle.std.specs.Prelude.{◌≡◌, ◌<◌, ◌++◌, List, All, length, OnOk};
ghost use Rattle.room_wiring.specs.declared.slot.Slot.{Slot as AnySlot};
ghost use Rattle.wiring_places.specs.place_rules.Pairs.{stretch_pair, stretch_pairs, binding_pairs};
ghost use Rattle.wiring_places.specs.slot_children.Table.{IsTableOf};
ghost use Rattle.wiring_places.specs.place_pairs.Fits.{EndsWithin, PairFits, StretchFits, BindingsFit};

use crate::place_pairs::faces::side_face;
use crate::place_rules::Stretch;
use crate::slot_children::Children;
use number_graphs::FacePair;
use room_wiring::PlaceSpan;
use std::alloc::AllocError;
use wiring_plan::{BindingPlan, ClassPlan};

/// What the pairs of a container's bindings depend on.
#[derive(Clone, Copy)]
pub struct Container<'a> {
    pub first_ports: &'a [u32],
    pub spans: &'a [PlaceSpan],
    pub children: &'a Children,
    pub class: &'a ClassPlan,
    /// The number of the container: 0 for the subsystem, `s + 1` for the inside of slot `s`.
    pub number: u32,
}

/// The faces that a binding of a container pairs, where it takes this stretch, at `k` of it.
fn pair_at(container: &Container, binding: BindingPlan, stretch: Stretch, k: u64) -> FacePair
    requires within { k < stretch.count }
    requires ends { EndsWithin stretch }
    requires faces { PairFits container.now.children.now container.now.first_ports.now
        container.now.spans.now container.now.class.now container.now.number binding stretch k }
    ensures { (slots : List AnySlot) → IsTableOf container.now.children.now slots
        → result ≡ stretch_pair slots container.now.first_ports.now container.now.spans.now
        container.now.class.now container.now.number binding stretch k }
{
    let left = side_face(
        container.first_ports,
        container.spans,
        container.class,
        container.children,
        container.number,
        binding.left,
        stretch.left + k,
    );
    let right = side_face(
        container.first_ports,
        container.spans,
        container.class,
        container.children,
        container.number,
        binding.right,
        stretch.right + k,
    );
    FacePair { left, right }
}

/// Adds the pairs of a binding of a container, which takes this stretch.
fn add_stretch(
    pairs: &mut Vec<FacePair>,
    container: &Container,
    binding: BindingPlan,
    stretch: Stretch,
) -> Result<(), AllocError>
    requires ends { EndsWithin stretch }
    requires faces { StretchFits container.now.children.now container.now.first_ports.now
        container.now.spans.now container.now.class.now container.now.number binding stretch }
    ensures { OnOk result ((slots : List AnySlot) → IsTableOf container.now.children.now slots
        → pairs.new.items ≡ pairs.old.items
        ++ stretch_pairs slots container.now.first_ports.now container.now.spans.now
        container.now.class.now container.now.number binding stretch 0 stretch.count) }
{
    for k in 0..stretch.count {
        pairs.push(pair_at(container, binding, stretch, k))?;
    }
    Ok(())
}

/// Adds the pairs of bindings of a container, which take these stretches. It takes time in proportion
/// to them.
pub fn add_binding_pairs(
    pairs: &mut Vec<FacePair>,
    container: &Container,
    bindings: &[BindingPlan],
    stretches: &[Stretch],
) -> Result<(), AllocError>
    requires sizes { length bindings.now ≡ length stretches.now }
    requires ends { All EndsWithin stretches.now }
    requires faces { BindingsFit container.now.children.now container.now.first_ports.now
        container.now.spans.now container.now.class.now container.now.number
        bindings.now stretches.now }
    ensures { OnOk result ((slots : List AnySlot) → IsTableOf container.now.children.now slots
        → pairs.new.items ≡ pairs.old.items
        ++ binding_pairs slots container.now.first_ports.now container.now.spans.now
        container.now.class.now container.now.number bindings.now stretches.now) }
{
    for (i, binding) in bindings.iter().enumerate() {
        add_stretch(pairs, container, *binding, stretches[i])?;
    }
    Ok(())
}

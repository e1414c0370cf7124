//! A wiring of one actor that is joined to nobody.
ghost use Rattle.std.specs.Prelude.{◌≡◌, [], ◌∷◌, IfOk, length, replicate};
ghost use Rattle.room_wiring.specs.Single.{single_tables, one_place};

use crate::label::Label;
use crate::names::ClassNames;
use crate::path::Path;
use crate::slot::{Partner, Slot};
use crate::tables::{PlaceSpan, Tables};
use crate::wiring::Wiring;
use room_kinds::{ControllerId, ReferenceKind as Kind, Sequence};
use std::alloc::{AllocError, Global};

impl Wiring {
    /// One fixed slot with this path and class, run by the one controller `default`. Each port has
    /// one place, and no place is joined to another.
    pub fn single(alloc: Global, path: Label, class: ClassNames) -> Result<Wiring, AllocError>
        ensures { IfOk result (λ w. w ≡ single_tables path class) }
    {
        let tables = tables_of_one(alloc, path, class)?;
        Ok(Wiring::new(tables))
    }
}

fn tables_of_one(alloc: Global, path: Label, class: ClassNames) -> Result<Tables, AllocError>
    ensures { IfOk result (λ t. t ≡ single_tables path class) }
{
    let ports = one_place_each(alloc, class.ports.len())?;
    let slot = Slot {
        path: Path::from_bytes(alloc, path.as_bytes())?,
        class: 0,
        kind: Kind::Fixed,
        parent: None,
        owner: ControllerId(0),
        reference: 0,
        index: 0,
    };
    Ok(Tables {
        slots: one(alloc, slot)?,
        controllers: one(alloc, Label::from_text(alloc, "default")?)?,
        classes: one(alloc, class)?,
        first_ports: one(alloc, 0)?,
        ports,
        partners: one(alloc, Partner::Nobody)?,
        told: one(alloc, one(alloc, false)?)?,
    })
}

/// One place for each of so many ports. As all are joined to nobody, they share one row.
fn one_place_each(alloc: Global, ports: usize) -> Result<Sequence<PlaceSpan>, AllocError>
    ensures { IfOk result (λ s. s ≡ replicate ports one_place) }
{
    let spans = vec![in alloc; PlaceSpan { first: 0, count: 1 }; ports]?;
    Ok(Sequence::from(spans))
}

fn one<T: Drop>(alloc: Global, item: T) -> Result<Sequence<T>, AllocError>
    ensures { IfOk result (λ s. s ≡ item ∷ []) }
{
    let mut items = Sequence::new(alloc);
    items.push(item)?;
    Ok(items)
}

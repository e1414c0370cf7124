//! States that are never entered, deferrals that nothing recalls, references that no action fills.
use crate::finding::{Finding, Kind};
use crate::model::Class;
use room_kinds::ReferenceKind;
use room_wiring::RefNames;
use std::alloc::{AllocError, Global};
use view_charts::{Chart, Item, Source, State, Ways, joined};

/// Whether a state is on a way from the initial transition.
fn is_reached(ways: &Ways, reached: &[bool], key: &[u8]) -> bool {
    match ways.number_of(key) {
        Some(number) => reached.get(number).copied().unwrap_or(false),
        None => false,
    }
}

/// A finding at the head of a part of the text.
fn at_head(source: Source<'_>, kind: Kind, item: Item, detail: Vec<u8>) -> Finding {
    let (start, end) = source.head(item);
    Finding {
        kind,
        start,
        end,
        detail,
    }
}

/// Whether a state is never entered, but for those inside such a state.
fn is_unentered(ways: &Ways, reached: &[bool], chart: &Chart, state: &State) -> bool {
    let holds = state.part.owner.is_none()
        || is_reached(ways, reached, chart.key_of(state.part.owner));
    holds && !is_reached(ways, reached, state.key.as_slice())
}

/// What is told of a state of a class that is never entered.
fn unentered(alloc: Global, key: &[u8], class: &[u8]) -> Result<Vec<u8>, AllocError> {
    let mut detail = Vec::from_slice(alloc, key.strip_prefix(b".").unwrap_or(key))?;
    detail.extend_from_slice(b", in an actor of ")?;
    detail.extend_from_slice(class)?;
    Ok(detail)
}

/// Adds a finding for each state of the chart of a class that is never entered, but for those inside such a state.
pub(crate) fn add_unentered_states(
    source: Source<'_>,
    class: &Class<'_>,
    ways: &Ways,
    findings: &mut Vec<Finding>,
) -> Result<(), AllocError> {
    let chart = &class.text.chart;
    let reached = ways.reached(source.alloc)?;
    for state in chart.states() {
        if is_unentered(ways, reached.as_slice(), chart, state) {
            let detail = unentered(
                source.alloc,
                state.key.as_slice(),
                class.names.name.as_bytes(),
            )?;
            findings.push(at_head(source, Kind::UnenteredState, state.part.item, detail))?;
        }
    }
    Ok(())
}

/// Adds a finding at the first deferral of a class of which no action recalls.
pub(crate) fn add_lost_deferral(
    alloc: Global,
    class: &Class<'_>,
    findings: &mut Vec<Finding>,
) -> Result<(), AllocError> {
    let Some((start, end)) = class.text.deeds.lost_deferral() else {
        return Ok(());
    };
    let name = class.names.name.as_bytes();
    let detail = joined(alloc, &[b"no action of ", name, b" recalls"])?;
    Ok(findings.push(Finding {
        kind: Kind::LostDeferral,
        start,
        end,
        detail,
    })?)
}

/// The word that fills a reference, with a blank; none where the reference is filled from the start.
fn filling_word(kind: ReferenceKind) -> Option<&'static [u8]> {
    match kind {
        ReferenceKind::Fixed => None,
        ReferenceKind::Optional => Some(b"incarnate "),
        ReferenceKind::Imported => Some(b"import "),
    }
}

/// What is told of a reference of a class that no action fills.
fn unfilled(alloc: Global, class: &[u8], verb: &[u8], name: &[u8]) -> Result<Vec<u8>, AllocError> {
    let mut detail = joined(alloc, &[b"no action of ", class, b" has `"])?;
    detail.extend_from_slice(verb)?;
    detail.extend_from_slice(name)?;
    detail.push(b'`')?;
    Ok(detail)
}

/// Adds a finding for a reference of a class, if no action of the class fills it.
fn add_reference(
    source: Source<'_>,
    class: &Class<'_>,
    reference: &RefNames,
    findings: &mut Vec<Finding>,
) -> Result<(), AllocError> {
    let name = reference.name.as_bytes();
    let Some(verb) = filling_word(reference.kind) else {
        return Ok(());
    };
    if class.text.deeds.fills(name) {
        return Ok(());
    }
    let Some(item) = class.text.declared.get(name) else {
        return Ok(());
    };
    let detail = unfilled(source.alloc, class.names.name.as_bytes(), verb, name)?;
    Ok(findings.push(at_head(source, Kind::UnfilledReference, item, detail))?)
}

/// Adds a finding for each optional or imported reference of a class that no action of it fills.
pub(crate) fn add_unfilled_references(
    source: Source<'_>,
    class: &Class<'_>,
    findings: &mut Vec<Finding>,
) -> Result<(), AllocError> {
    for reference in class.names.references.as_slice() {
        add_reference(source, class, reference, findings)?;
    }
    Ok(())
}

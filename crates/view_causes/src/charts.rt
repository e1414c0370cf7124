//! What is wrong with the chart of a class.
use crate::cause::Cause;
use crate::circles::circle_causes;
use crate::code_causes::code_causes;
use crate::shape_causes::Shape;
use crate::triggers::trigger_causes;
use chart_reader::ChartFault;
use room_ast::Scope;
use std::alloc::AllocError;
use view_charts::{Chart, ClassItems, Item, Source};

/// The most causes that are told.
pub(crate) const MOST_CAUSES: usize = 12;

/// An actor class whose chart has a fault, and what the class's actions can name, if that is known.
#[derive(Clone, Copy)]
pub struct FaultyChart<'a> {
    pub class: &'a [u8],
    pub fault: ChartFault,
    pub scope: Option<&'a Scope>,
}

/// A class that is looked at for causes: its place in the text and those of its bases, its chart, and what its actions
/// can name.
#[derive(Clone, Copy)]
pub(crate) struct Suspect<'a> {
    pub source: Source<'a>,
    pub chain: &'a [Item],
    pub chart: &'a Chart,
    pub scope: &'a Scope,
}

/// Puts a cause in its place among those that stand before it in the text. Of two at one place the first is kept.
fn put(causes: Vec<Cause>, cause: Cause) -> Result<Vec<Cause>, AllocError> {
    let mut all = causes;
    let known = all.as_slice();
    if known.iter().any(|other| other.start == cause.start && other.end == cause.end) {
        return Ok(all);
    }
    let place = known
        .iter()
        .filter(|other| other.start < cause.start)
        .count();
    if place <= all.len() {
        all.insert(place, cause)?;
    }
    Ok(all)
}

/// The first of these causes in the order of the text.
fn in_order(source: Source<'_>, causes: Vec<Cause>) -> Result<Vec<Cause>, AllocError> {
    let mut all = Vec::new(source.alloc);
    for cause in causes {
        all = put(all, cause)?;
    }
    all.truncate(MOST_CAUSES);
    Ok(all)
}

/// What is wrong with a chart by its fault, in any order. Triggers and codes are looked at only where it is known what
/// the class's actions can name.
fn causes_of(
    source: Source<'_>,
    chain: &[Item],
    chart: &Chart,
    faulty: FaultyChart<'_>,
) -> Result<Vec<Cause>, AllocError> {
    match (faulty.fault, faulty.scope) {
        (ChartFault::BadPoint, _) => Shape::of(source, chart)?.name_causes(),
        (ChartFault::TwoInitials, _) => Shape::of(source, chart)?.beginning_causes(),
        (ChartFault::NoInitial, _) => Shape::of(source, chart)?.missing_causes(chain),
        (ChartFault::NoDefault, _) => Shape::of(source, chart)?.branch_causes(),
        (ChartFault::ChoiceCycle, _) => circle_causes(source, chart),
        (ChartFault::BadTrigger, Some(scope)) => trigger_causes(&Suspect {
            source,
            chain,
            chart,
            scope,
        }),
        (ChartFault::BadAction, Some(scope)) => code_causes(&Suspect {
            source,
            chain,
            chart,
            scope,
        }),
        (ChartFault::DepthAbove16, _)
        | (ChartFault::BadTrigger, None)
        | (ChartFault::BadAction, None) => Ok(Vec::new(source.alloc)),
    }
}

/// The place of a class in the text, and those of its bases behind it.
fn chain_of(source: Source<'_>, class: &[u8]) -> Result<Vec<Item>, AllocError> {
    let classes = ClassItems::of(source)?;
    classes.chain(source, class)
}

/// What is wrong with the chart of a class in these places, in any order.
fn causes_in(
    source: Source<'_>,
    chain: &[Item],
    faulty: FaultyChart<'_>,
) -> Result<Vec<Cause>, AllocError> {
    let chart = Chart::of(source, chain)?;
    causes_of(source, chain, &chart, faulty)
}

/// What is wrong with the chart of a class that has a fault, in the order of the text: the first places that are seen;
/// none where the text doesn't show it.
pub fn chart_causes(source: Source<'_>, faulty: FaultyChart<'_>) -> Result<Vec<Cause>, AllocError> {
    let chain = chain_of(source, faulty.class)?;
    let causes = causes_in(source, chain.as_slice(), faulty)?;
    in_order(source, causes)
}

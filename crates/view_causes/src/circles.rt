//! Transitions that lead in a circle without a stop.
use crate::cause::{Cause, cause_with};
use crate::charts::MOST_CAUSES;
use crate::shapes::{Counts, Keys, Shapes};
use std::alloc::AllocError;
use view_charts::{Chart, Part, Source, ends_of};

/// How often transitions are taken out at most that are on no circle. A chain without a stop is hardly longer.
const MOST_ROUNDS: usize = 2_000;

/// A transition that goes on at once: from which key, and to which.
#[derive(Drop)]
struct Hop {
    part: Part,
    from: Vec<u8>,
    to: Vec<u8>,
}

/// The transitions of a chart that go on at once.
fn hops_of(keys: &Keys<'_>, shapes: &Shapes) -> Result<Vec<Hop>, AllocError> {
    let mut hops = Vec::new(keys.source.alloc);
    for arrow in keys.chart.arrows() {
        let Some(ends) = ends_of(keys.source, *arrow) else {
            continue;
        };
        let Some(from) = keys.origin(&shapes.there, arrow.owner, ends.source)? else {
            continue;
        };
        if let Some(to) = keys.aim(&shapes.there, arrow.owner, ends.target)? {
            hops.push(Hop {
                part: *arrow,
                from,
                to,
            })?;
        }
    }
    Ok(hops)
}

fn all_hops(source: Source<'_>, chart: &Chart) -> Result<Vec<Hop>, AllocError> {
    let keys = Keys { source, chart };
    let shapes = Shapes::of(&keys)?;
    hops_of(&keys, &shapes)
}

/// How many transitions begin and how many end at each key.
#[derive(Drop)]
struct Ways {
    beginning: Counts,
    ending: Counts,
}

impl Ways {
    fn of(source: Source<'_>, hops: &[Hop]) -> Result<Ways, AllocError> {
        let mut ways = Ways {
            beginning: Counts::new(source.alloc),
            ending: Counts::new(source.alloc),
        };
        ways.add_all(source, hops)?;
        Ok(ways)
    }

    fn add_all(&mut self, source: Source<'_>, hops: &[Hop]) -> Result<(), AllocError> {
        for hop in hops {
            let from = Vec::from_slice(source.alloc, hop.from.as_slice())?;
            self.beginning.add(from)?;
            let to = Vec::from_slice(source.alloc, hop.to.as_slice())?;
            self.ending.add(to)?;
        }
        Ok(())
    }

    /// Whether one comes to a transition by another one, and goes on from it.
    fn is_between(&self, hop: &Hop) -> bool {
        self.ending.of(hop.from.as_slice()) > 0 && self.beginning.of(hop.to.as_slice()) > 0
    }
}

/// Those of some transitions to which one comes by another one of them, and from which one goes on by one.
fn between(source: Source<'_>, hops: Vec<Hop>) -> Result<Vec<Hop>, AllocError> {
    let ways = Ways::of(source, hops.as_slice())?;
    let mut left = Vec::new(source.alloc);
    for hop in hops {
        if ways.is_between(&hop) {
            left.push(hop)?;
        }
    }
    Ok(left)
}

/// The transitions of a chart that lead in circles, or from one circle to another one.
fn circling(source: Source<'_>, chart: &Chart) -> Result<Vec<Hop>, AllocError> {
    let mut hops = all_hops(source, chart)?;
    for _round in 0..MOST_ROUNDS {
        let before = hops.len();
        hops = between(source, hops)?;
        if hops.len() == before {
            break;
        }
    }
    Ok(hops)
}

/// What is wrong with a chart in which transitions lead in a circle.
pub(crate) fn circle_causes(source: Source<'_>, chart: &Chart) -> Result<Vec<Cause>, AllocError> {
    let hops = circling(source, chart)?;
    let mut causes = Vec::new(source.alloc);
    for hop in hops.as_slice().iter().take(MOST_CAUSES) {
        causes.push(cause_with(
            source.alloc,
            source.head(hop.part.item),
            &[b"it is on a way that leads back to where it began, without a stop at a state"],
        )?)?;
    }
    Ok(causes)
}

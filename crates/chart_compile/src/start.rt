//! The initial transition of the tables.
ghost use Rattle.std.specs.Prelude.{◌≡◌, ◌<◌, ◌∷◌, [], Some, length, map, IfOk};
ghost use Rattle.name_tables.specs.name_numbers.Names.{same};
ghost use Rattle.chart_reader.specs.chart_nodes.Keys.{codes};
ghost use Rattle.chart_reader.specs.chart_nodes.Steps.{step_view};
ghost use Rattle.chart_compile.specs.chart_parts.Parts.{LeadTo, from_key};
ghost use Rattle.chart_compile.specs.chart_parts.Nodes.{IsFirst};

use crate::chart_rows::make_arrow;
use chart_reader::{Step, plain_key};
use chart_run::Arrow;
use name_tables::NameIndex;
use std::alloc::{AllocError, Global};

/// Whether a step begins at the place with a key.
fn begins_at<'b>(step: &Step<'b>, key: &[u8]) -> bool
    ensures { result ≡ same (step_view step.now).origin key.now }
{
    step.origin.as_slice() == key
}

/// The arrow of the initial transition of the top graph.
pub fn initial_arrow<'b, 'n>(
    alloc: Global,
    nodes: &NameIndex<'n>,
    steps: &[Step<'b>],
) -> Result<Arrow, AllocError>
    requires starts { 0 < length (from_key (0 ∷ codes []) (map step_view steps.now)) }
    requires lead { LeadTo nodes.now (map step_view steps.now) }
    ensures { IfOk result (λ arrow.
        IsFirst nodes.now (Some arrow) (from_key (0 ∷ codes []) (map step_view steps.now))) }
{
    let key = plain_key(alloc, 0, &[])?;
    for step in steps {
        if begins_at(step, key.as_slice()) {
            let arrow = make_arrow(alloc, nodes, step)?;
            return Ok(arrow);
        }
    }
    unreachable!()
}

//! How many transitions begin at each place, told without a search.
ghost use Rattle.std.specs.Prelude.{◌≡◌, ◌+◌, ◌<◌, ◌^◌, ℕ, List, map, IfOk, OnOk};
ghost use Rattle.chart_reader.specs.chart_nodes.Steps.{step_view};
ghost use Rattle.chart_reader.specs.chart_rules.Index.{count_in, CountsOneMore, CountsPlainly, beginning, beginning_plainly};

use crate::chart_nodes::Step;
use indexmap::IndexMap;
use std::alloc::{AllocError, Global};

/// How often a key was counted.
pub(crate) fn count_of<'a>(counts: &IndexMap<&'a [u8], usize>, key: &[u8]) -> usize
    ensures { result ≡ count_in counts.now key.now }
{
    counts.get(key).copied().unwrap_or(0)
}

/// Counts a key once more.
fn count_one<'a>(counts: &mut IndexMap<&'a [u8], usize>, key: &'a [u8]) -> Result<(), AllocError>
    requires { count_in counts.old key.now + 1 < 2 ^ 64 }
    ensures { OnOk result (CountsOneMore (count_in counts.old) (count_in counts.new) key.now) }
{
    let count = count_of(counts, key);
    counts.insert(key, count + 1)?;
    Ok(())
}

/// How many steps begin at each place.
pub(crate) fn count_origins<'a, 'b>(
    alloc: Global,
    steps: &'a [Step<'b>],
) -> Result<IndexMap<&'a [u8], usize>, AllocError>
    ensures { IfOk result (λ counts.
        (key : List ℕ) → count_in counts key ≡ beginning (map step_view steps.now) key) }
{
    let mut counts = IndexMap::new(alloc);
    for step in steps {
        count_one(&mut counts, step.origin.as_slice())?;
    }
    Ok(counts)
}

/// Counts a step where it begins, if it has no condition.
fn count_plain<'a, 'b>(
    counts: &mut IndexMap<&'a [u8], usize>,
    step: &'a Step<'b>,
) -> Result<(), AllocError>
    requires { count_in counts.old (step_view step.now).origin + 1 < 2 ^ 64 }
    ensures { OnOk result (CountsPlainly (count_in counts.old) (count_in counts.new)
        (step_view step.now)) }
{
    if step.transition.condition.is_some() {
        return Ok(());
    }
    count_one(counts, step.origin.as_slice())?;
    Ok(())
}

/// How many steps without a condition begin at each place.
pub(crate) fn count_plain_origins<'a, 'b>(
    alloc: Global,
    steps: &'a [Step<'b>],
) -> Result<IndexMap<&'a [u8], usize>, AllocError>
    ensures { IfOk result (λ counts.
        (key : List ℕ) → count_in counts key ≡ beginning_plainly (map step_view steps.now) key) }
{
    let mut counts = IndexMap::new(alloc);
    for step in steps {
        count_plain(&mut counts, step)?;
    }
    Ok(counts)
}

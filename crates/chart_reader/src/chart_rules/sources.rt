//! Where transitions begin.
ghost use Rattle.std.specs.Prelude.{◌≡◌};
ghost use Rattle.chart_trees.specs.chart_graphs.Views.{source_view};
ghost use Rattle.chart_model.specs.Valid.{is_triggered, is_branch};

use chart_trees::Source;

/// Whether a transition from here is triggered by messages.
pub(crate) fn is_triggered(source: &Source) -> bool
    ensures { result ≡ is_triggered (source_view source.now) }
{
    matches!(source, Source::State(_) | Source::Point(_))
}

/// Whether a transition from here is a branch of a choice point.
pub(crate) fn is_branch(source: &Source) -> bool
    ensures { result ≡ is_branch (source_view source.now) }
{
    matches!(source, Source::Choice(_))
}

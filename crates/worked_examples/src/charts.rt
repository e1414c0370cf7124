//! Worked charts: small state machines, and what they do with messages as the definitions say. Each
//! function is a law without a body; its proof computes the definitions.

ghost use Rattle.worked_examples.specs.charts.History.{HistoryIsComputed, NoHistoryIsComputed};
ghost use Rattle.worked_examples.specs.charts.Choice.{ChoiceIsComputed};
ghost use Rattle.worked_examples.specs.charts.Deferring.{DeferringIsComputed};
ghost use Rattle.worked_examples.specs.charts.Points.{PointsAreComputed};
ghost use Rattle.worked_examples.specs.charts.Guards.{GuardsAreComputed};

/// A group transition leaves states from inner to outer, and history brings them back two levels deep.
pub fn group_transition_and_history()
    ensures { HistoryIsComputed }
{}

/// A composite state that was never left is entered by its initial transition.
pub fn border_never_visited()
    ensures { NoHistoryIsComputed }
{}

/// A condition that divides by zero is 0, with a note, and the default is taken.
pub fn choice_with_zero_divisor()
    ensures { ChoiceIsComputed }
{}

/// A message is deferred, and recalled by another.
pub fn defer_and_recall()
    ensures { DeferringIsComputed }
{}

/// Entry, exit and transition points, and a transition from a state to itself.
pub fn points()
    ensures { PointsAreComputed }
{}

/// Guards from the innermost state outward, with their notes.
pub fn guards()
    ensures { GuardsAreComputed }
{}

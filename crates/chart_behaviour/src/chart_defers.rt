//! The law that an actor says of a message that it is deferred exactly where its commands have a `defer`:
//! a premise of the laws on where a message is, met by the charts of every model.

ghost use Rattle.chart_behaviour.specs.chart_defers.Laws.{ChartsTellDefers};

/// An actor says of a message that it is deferred exactly where its commands have a `defer`.
pub fn charts_tell_defers()
    ensures { ChartsTellDefers }
{}

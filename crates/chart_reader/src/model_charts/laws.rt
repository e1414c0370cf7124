//! What the definitions say of every model.

ghost use Rattle.room_ast.specs.Trees.{ModelTree};
ghost use Rattle.chart_reader.specs.model_charts.Laws.{AreOne};

/// What the texts of a model's classes write is one thing, and so is the first fault among their
/// charts; a model with a first fault has no charts.
pub fn charts_are_one()
    ensures { (m : ModelTree) → AreOne m }
{}

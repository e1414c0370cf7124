//! What verdicts say of runs, and what is so of all that is shown. No code: the laws.
ghost use Rattle.room_verify.specs.Laws.{LawfulAlone, LawfulAreRuns, VerdictsAreByCharts, VerdictsAreOne};
ghost use Rattle.room_verify.specs.Showing.{OneIsShown, RunsLeadToShown, ShownOrUnlawful, ShowsAreByCharts};

/// Journals that are lawful, prompt and ended have no other verdict, whatever the machines of a model are.
pub fn runs_are_lawful_alone<M>()
    ensures { LawfulAlone M }
{}

/// Journals have one verdict.
pub fn verdicts_are_one<M>()
    ensures { VerdictsAreOne M }
{}

/// Journals are lawful exactly where they are those of a run.
pub fn lawful_are_runs()
    ensures { LawfulAreRuns }
{}

/// The verdict doesn't depend on the tables that were compiled of a model, but on its charts alone.
pub fn verdicts_are_by_charts()
    ensures { VerdictsAreByCharts }
{}

/// What is shown doesn't depend on the tables that were compiled of a model, but on its charts alone.
pub fn shows_are_by_charts()
    ensures { ShowsAreByCharts }
{}

/// At a stamp of journals one snapshot is shown at most, and where one is, no verdict is told in its place.
pub fn one_is_shown<M>()
    ensures one { OneIsShown M }
    ensures alone { ShownOrUnlawful M }
{}

/// A run leads to the world that is shown at a stamp behind which nothing is stamped.
pub fn runs_lead_to_shown()
    ensures { RunsLeadToShown }
{}

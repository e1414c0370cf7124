//! Laws of timed runs, as functions without a body, whose contract is the law.

ghost use Rattle.timed_runs.specs.Laws.{ExpansionsFit, DoneTimersAreLater, WalksGiveParts, WalksStayFitting, WalksGiveTimedRuns, PlainWalksGiveRuns};

/// Lines that name what the wiring has come to such lines.
pub fn expansions_fit()
    ensures { ExpansionsFit }
{}

/// Where a run is done and all its lines were finished, no armed timer is due.
pub fn done_timers_are_later()
    ensures { DoneTimersAreLater }
{}

/// A walk over timed lines, from part to part, is what a run asks of a source of parts. `fits`: its
/// parts name what the wiring has.
pub fn walks_give_parts()
    ensures parts { WalksGiveParts }
    ensures fits { WalksStayFitting }
{}

/// The journals of a run whose parts came from a walk over timed lines are those of a timed run over
/// the lines. `plain`: over lines that don't move the time on they are those of a run over them.
pub fn walks_give_timed_runs()
    ensures timed { WalksGiveTimedRuns }
    ensures plain { PlainWalksGiveRuns }
{}

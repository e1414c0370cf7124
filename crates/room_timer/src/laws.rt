//! Laws of timers and of expansions, as functions without a body, whose contract is the law.
ghost use Rattle.room_timer.specs.Laws.{SeeingKeepsLater, MomentsKeepLater, WaitingKeepsLater, SeeingKeepsHearing, MomentsFit, LinesExpandOnce, PlainLinesStay};

/// Each armed timer is due later than the time: so after all that is seen, after each moment, and
/// when a time comes until which none is due.
pub fn timers_are_later()
    ensures seeing { SeeingKeepsLater }
    ensures moments { MomentsKeepLater }
    ensures waiting { WaitingKeepsLater }
{}

/// Timeouts come in where each timer was armed, so that the lines of each moment name what the
/// wiring has.
pub fn timeouts_fit()
    ensures seeing { SeeingKeepsHearing }
    ensures moments { MomentsFit }
{}

/// Lines come to one thing over one merge. `plain`: lines that don't move the time come to
/// themselves.
pub fn lines_expand_once()
    ensures once { LinesExpandOnce }
    ensures plain { PlainLinesStay }
{}

//! More worked runs, as in `worlds`: each function is a law without a body, whose proof
//! computes the definitions of the world entry by entry.

ghost use Rattle.worked_examples.specs.worlds.world_rows.Alone.{AloneIsComputed};
ghost use Rattle.worked_examples.specs.worlds.world_rows.Switch.{OneMessageIsComputed, UnhandledIsComputed, SixtyFiveIsComputed};
ghost use Rattle.worked_examples.specs.worlds.world_rows.Choice.{ChoiceIsComputed};
ghost use Rattle.worked_examples.specs.worlds.world_rows.History.{GroupIsComputed, BorderIsComputed};
ghost use Rattle.worked_examples.specs.worlds.world_rows.Numbers.{NumbersIsComputed, SpentIsComputed, NoLinesIsComputed};
ghost use Rattle.worked_examples.specs.worlds.world_rows.SideBySide.{SideBySideIsComputed};
ghost use Rattle.worked_examples.specs.worlds.world_rows.Exchanged.{ExchangedIsComputed};
ghost use Rattle.worked_examples.specs.worlds.world_rows.Quiet.{AllEndQuietly, SpentLeavesOne};
ghost use Rattle.worked_examples.specs.worlds.Import.{SecondPlugIsComputed};

/// An actor without ports: the start is all.
pub fn smallest_model()
    ensures { AloneIsComputed }
{}

/// One message, which is handled.
pub fn one_message()
    ensures { OneMessageIsComputed }
{}

/// A message that nothing handles, and one that is handled.
pub fn message_that_nothing_handles()
    ensures { UnhandledIsComputed }
{}

/// Sixty-five messages, of which the first poll takes sixty-four.
pub fn sixty_five_lines()
    ensures { SixtyFiveIsComputed }
{}

/// A choice whose condition divides by zero, which is noted.
pub fn choice_with_zero_divisor()
    ensures { ChoiceIsComputed }
{}

/// A group transition, and the way back by history.
pub fn group_transition_and_history()
    ensures { GroupIsComputed }
{}

/// A border without a history.
pub fn border_never_visited()
    ensures { BorderIsComputed }
{}

/// Two actors on one controller send each other a number.
pub fn numbers_on_one_controller()
    ensures { NumbersIsComputed }
{}

/// The same with fuel for one turn: what is fetched stays pending.
pub fn fuel_for_one_turn()
    ensures { SpentIsComputed }
{}

/// The same without lines.
pub fn no_lines()
    ensures { NoLinesIsComputed }
{}

/// Two pairs of actors, each on a controller of its own.
pub fn two_controllers_side_by_side()
    ensures { SideBySideIsComputed }
{}

/// The same with the controllers declared the other way round.
pub fn two_controllers_exchanged()
    ensures { ExchangedIsComputed }
{}

/// A second import of an actor is refused where its port is taken.
pub fn second_plug_refused()
    ensures { SecondPlugIsComputed }
{}

/// At the end of every worked example but one all lines were posted, all is quiet, and nothing is left.
pub fn runs_end_quietly()
    ensures { AllEndQuietly }
{}

/// Where the fuel is spent, what was fetched is left as pending.
pub fn spent_run_leaves_one()
    ensures { SpentLeavesOne }
{}

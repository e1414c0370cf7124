//! What handling a message gave.
ghost use Rattle.std.specs.Prelude.{◌≡◌};
ghost use Rattle.std.specs.List.{list_any};
ghost use Rattle.chart_model.specs.Acting.{is_defer, result_of};
ghost use Rattle.chart_run.specs.Machines.{result_view};

use action_program::{Effects, Moment};
use room_kinds::Command;

/// What became of a message.
#[derive(Clone, Copy, Drop, PartialEq, Eq)]
pub enum Handling {
    /// A transition was taken.
    Handled,
    /// A transition was taken, and its chain executed a `defer`.
    Deferred,
    /// No transition was enabled.
    Unhandled,
}

/// What became of a message, and what the actions that ran told and asked for.
#[derive(Drop)]
pub struct Outcome {
    pub result: Handling,
    pub effects: Effects,
}

fn is_defer(command: &Command) -> bool
    ensures { result ≡ is_defer command.now }
{
    match command {
        Command::Defer => true,
        _ => false,
    }
}

fn has_defer(commands: &[Command]) -> bool
    ensures { result ≡ list_any is_defer commands.now }
{
    commands.iter().any(|command| is_defer(command))
}

/// `Deferred` where a `defer` was executed with a message.
pub(crate) fn result_of(at: &Moment, enabled: bool, commands: &[Command]) -> Handling
    ensures { result_view result ≡ result_of at.now enabled commands.now }
{
    if !enabled {
        return Handling::Unhandled;
    }
    if at.has_message && has_defer(commands) {
        Handling::Deferred
    } else {
        Handling::Handled
    }
}

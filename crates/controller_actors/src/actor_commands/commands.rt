//! Commands, one and several.
ghost use Rattle.std.specs.Prelude.{◌<◌, true, length, OnOk};
ghost use Rattle.actor_duties.specs.Commands.{defer};
ghost use Rattle.controller_actors.specs.actor_commands.command_sends.Adding.{Adds, content_of};
ghost use Rattle.controller_actors.specs.actor_commands.Doings.{AppliesNow, HasApplied, Keeps, sent_at};

use crate::actor_commands::command_sends::{Content, Services, Speaker, broadcast, send};
use crate::actor_commands::deferred_messages::DeferredMessages;
use crate::actor_commands::output::Output;
use room_kinds::{Command, Commands, Msg};
use std::alloc::{AllocError, Global};
use std::collections::VecDeque;

/// What an actor has in hand in the turn of a message or at its start.
#[derive(Drop)]
pub(crate) struct Hand {
    /// The message, until it is kept for later; none at a start.
    message: Option<Msg>,
    /// Whether the message is kept.
    kept: bool,
}

impl Hand {
    /// `defer`: the message in hand is moved to those that are kept for later.
    #[tactic(auto, using(crate::proofs::actor_commands::Steps::keeps_here))]
    fn defer(
        &mut self,
        deferred: &mut DeferredMessages,
        output: &mut Output,
    ) -> Result<(), AllocError>
        ensures { OnOk result (Keeps (defer self.old.kept self.old.message deferred.old) true
            (record { deferred = deferred.old; output = output.old; kept = self.old.kept })
            (record { deferred = deferred.new; output = output.new; kept = self.new.kept })) }
    {
        deferred.defer(self.kept, self.message.take(), &mut output.notes)?;
        self.kept = true;
        Ok(())
    }
}

/// A send at a place of a port; without a place, at all of them.
fn say<S: Services>(
    alloc: Global,
    speaker: &Speaker<'_>,
    services: &S,
    port: u16,
    place: Option<i64>,
    content: Content,
    output: &mut Output,
) -> Result<(), AllocError>
    requires serves { S.serves speaker.now.wiring.now speaker.now.me.0 services.now }
    requires there { speaker.now.who.slot.0 < length speaker.now.wiring.now.slots }
    ensures { OnOk result (Adds
        (sent_at speaker.now.wiring.now speaker.now.me.0 (S.frame_of services.now)
        (S.links_of services.now) speaker.now.who port place (content_of content))
        output.old output.new) }
{
    match place {
        Some(at) => {
            send(speaker, services, port, at, content, output)?;
            Ok(())
        }
        None => {
            broadcast(alloc, speaker, services, port, &content, output)?;
            Ok(())
        }
    }
}

/// Applies a command of the speaker, who has this in hand, keeps these messages for later, and has put out
/// this so far.
#[tactic(auto, using(crate::proofs::actor_commands::Steps::sends_now, crate::proofs::actor_commands::Steps::asks_frame_now, crate::proofs::actor_commands::Steps::asks_name_now, crate::proofs::actor_commands::Steps::defers_now, crate::proofs::actor_commands::Steps::recalls_here, crate::proofs::actor_commands::Steps::recalls_all_here))]
fn apply<S: Services>(
    alloc: Global,
    speaker: &Speaker<'_>,
    services: &mut S,
    hand: &mut Hand,
    command: Command,
    deferred: &mut DeferredMessages,
    output: &mut Output,
) -> Result<(), AllocError>
    requires serves { S.serves speaker.now.wiring.now speaker.now.me.0 services.old }
    requires there { speaker.now.who.slot.0 < length speaker.now.wiring.now.slots }
    ensures serves { OnOk result (S.serves speaker.now.wiring.now speaker.now.me.0 services.new) }
    ensures applied { OnOk result (AppliesNow speaker.now.wiring.now speaker.now.me.0
        (S.frame_of services.old)
        (S.links_of services.old)
        (S.frame_of services.new)
        (S.links_of services.new) speaker.now.who command hand.old.message
        (record { deferred = deferred.old; output = output.old; kept = hand.old.kept })
        hand.new.message
        (record { deferred = deferred.new; output = output.new; kept = hand.new.kept })) }
{
    match command {
        Command::Send {
            port,
            place,
            signal,
            payload,
            prio,
        } => {
            let content = Content {
                signal,
                payload,
                prio,
            };
            say(alloc, speaker, services, port, place, content, output)?;
            Ok(())
        }
        Command::Defer => {
            hand.defer(deferred, output)?;
            Ok(())
        }
        Command::Recall => {
            deferred.recall(&mut output.back, &mut output.notes)?;
            Ok(())
        }
        Command::RecallAll => {
            deferred.recall_all(&mut output.back, &mut output.notes)?;
            Ok(())
        }
        Command::Frame(command) => {
            services.ask_frame(
                speaker.wiring,
                speaker.me,
                speaker.who,
                &command,
                &mut output.messages,
            )?;
            Ok(())
        }
        Command::Name(command) => {
            services.ask_name(
                speaker.wiring,
                speaker.me,
                speaker.who,
                &command,
                &mut output.messages,
            )?;
            Ok(())
        }
    }
}

/// Applies commands of the speaker in order, in the turn of a message, or at its start without one, on what
/// it keeps for later and on top of what was put out before. What is sent and what is kept is moved, and
/// copied only where it goes to several places. After want of memory what was done is unspecified: the
/// controller has failed.
#[tactic(auto, using(crate::proofs::actor_commands::Steps::none_applied))]
pub fn apply_all<S: Services>(
    alloc: Global,
    speaker: &Speaker<'_>,
    services: &mut S,
    message: Option<Msg>,
    commands: Commands,
    deferred: &mut DeferredMessages,
    output: &mut Output,
) -> Result<(), AllocError>
    requires serves { S.serves speaker.now.wiring.now speaker.now.me.0 services.old }
    requires there { speaker.now.who.slot.0 < length speaker.now.wiring.now.slots }
    ensures serves { OnOk result (S.serves speaker.now.wiring.now speaker.now.me.0 services.new) }
    ensures applied { OnOk result (HasApplied speaker.now.wiring.now speaker.now.me.0
        (S.frame_of services.old)
        (S.links_of services.old)
        (S.frame_of services.new)
        (S.links_of services.new) speaker.now.who message commands deferred.old output.old
        deferred.new output.new) }
{
    let mut hand = Hand {
        message,
        kept: false,
    };
    let mut queue = VecDeque::from_vec(commands.into_vec());
    while let Some(command) = queue.pop_front() {
        apply(
            alloc, speaker, services, &mut hand, command, deferred, output,
        )?;
    }
    Ok(())
}

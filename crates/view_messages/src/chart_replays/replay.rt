//! The turns of a run at the charts of its actors.
ghost use Rattle.std.specs.Prelude.{◌≡◌, length, IfSome};
ghost use Rattle.chart_run.specs.chart_tables.Tables.{IsSound};

use crate::Replayed;
use crate::chart_replays::hearing::{Hearing, Told};
use crate::chart_replays::machine::Replay;
use crate::chart_replays::sound::tables_of;
use chart_run::{Handling, Tables};
use controller_actors::Plant;
use journal::{Did, Journals};
use room_kinds::{Commands, Incarnation, Msg, Note, SlotId, Stamp};
use std::alloc::{AllocError, Global};
use view_journals::{
    Deed, Difference, Fetched, Name, Outlets, Redone, Said, Start, Turn, starts_of, turns_of,
};

/// The number of the state of an actor whose class has no chart.
const NO_STATE: u16 = 65535;

/// A run that was done again, and the turns of one message at its actor's chart.
#[derive(Drop)]
pub struct Replays {
    pub redone: Redone,
    pub of_message: Vec<Replayed>,
}

/// What the chart of an actor makes of a start or a message.
#[derive(Drop)]
struct Outcome {
    handling: Handling,
    state: u16,
    commands: Commands,
    /// The turn, where more of it is told.
    replayed: Option<Replayed>,
}

/// When an actor comes up or has a turn.
#[derive(Clone, Copy)]
struct Moment {
    /// The stamp of the turn; none at a start.
    stamp: Option<Stamp>,
    controller: usize,
    who: Incarnation,
}

/// What journals tell of a run, in the order in which it is done again.
#[derive(Drop)]
struct Course<'a> {
    fetched: Fetched<'a>,
    starts: Vec<Start<'a>>,
    turns: Vec<Turn<'a>>,
}

/// A run on its way.
#[derive(Drop)]
struct Run<'a> {
    alloc: Global,
    plant: &'a Plant,
    outlets: &'a Outlets,
    /// The message of which more is told.
    wanted: Option<Name>,
    /// The actors with charts that stand in the slots, by the slots' numbers.
    actors: Vec<Option<Replay>>,
    differs: Option<Difference>,
    of_message: Vec<Replayed>,
}

/// What a journal says of a message that an actor handled.
fn did_of(handling: Handling, who: Incarnation, state: u16) -> Did {
    match handling {
        Handling::Handled => Did::Handled { who, state },
        Handling::Deferred => Did::Deferred { who, state },
        Handling::Unhandled => Did::Unhandled { who, state },
    }
}

/// What an actor without a chart makes of a start or a message.
fn outcome_without_chart(alloc: Global) -> Outcome {
    Outcome {
        handling: Handling::Unhandled,
        state: NO_STATE,
        commands: Commands::new(alloc),
        replayed: None,
    }
}

/// A turn of an actor, done again.
fn react(
    alloc: Global,
    replay: &mut Replay,
    tables: &Tables,
    msg: &Msg,
) -> Result<Outcome, AllocError>
    requires sound { IsSound tables.now }
    requires size { length replay.old.mind.past.items ≡ length tables.now.states.items }
{
    let handling = replay.handle(alloc, tables, msg)?;
    Ok(Outcome {
        handling,
        state: replay.state(),
        commands: replay.take_commands(alloc),
        replayed: None,
    })
}

/// A turn of an actor, done again, of which more is told.
fn react_openly(
    alloc: Global,
    replay: &mut Replay,
    tables: &Tables,
    msg: &Msg,
) -> Result<Outcome, AllocError>
    requires sound { IsSound tables.now }
    requires size { length replay.old.mind.past.items ≡ length tables.now.states.items }
{
    let before = replay.numbers(alloc)?;
    let holds = replay.tries(alloc, tables, msg)?;
    let passed = replay.steps(alloc, tables, msg)?;
    let mut outcome = react(alloc, replay, tables, msg)?;
    outcome.replayed = Some(Replayed {
        before,
        after: replay.numbers(alloc)?,
        holds,
        passed,
    });
    Ok(outcome)
}

/// A turn of an actor, done again, of which more may be told; none where the actor isn't in the chart of these tables.
fn react_if_fitting(
    alloc: Global,
    replay: &mut Replay,
    tables: &Tables,
    msg: &Msg,
    is_open: bool,
) -> Result<Option<Outcome>, AllocError>
    requires { IsSound tables.now }
{
    if !replay.fits(tables) {
        return Ok(None);
    }
    if is_open {
        return Ok(Some(react_openly(alloc, replay, tables, msg)?));
    }
    Ok(Some(react(alloc, replay, tables, msg)?))
}

/// When an actor has a turn, or comes up in it.
fn moment_of(turn: &Turn<'_>, who: Incarnation) -> Moment {
    Moment {
        stamp: Some(turn.stamp),
        controller: turn.controller,
        who,
    }
}

/// What the journals tell of a turn.
fn told_by<'a>(turn: &Turn<'a>) -> Told<'a> {
    Told {
        notes: turn.notes,
        posts: turn.behind,
    }
}

/// The notes from a place on, up to the next actor that comes up.
fn notes_of_one(notes: &[Note], first: usize) -> &[Note] {
    let rest = notes.get(first..).unwrap_or(&[]);
    let count = rest
        .iter()
        .take_while(|note| !matches!(note, Note::Up { .. }))
        .count();
    rest.get(..count).unwrap_or(&[])
}

/// Adds some to others.
fn add_all(all: &mut Vec<Said>, some: Vec<Said>) -> Result<(), AllocError> {
    for said in some {
        all.push(said)?;
    }
    Ok(())
}

/// Nobody in any slot of a plant.
fn nobody(alloc: Global, plant: &Plant) -> Result<Vec<Option<Replay>>, AllocError> {
    let mut actors = Vec::new(alloc);
    for _slot in 0..plant.wiring.slot_count() {
        actors.push(None)?;
    }
    Ok(actors)
}

impl<'a> Course<'a> {
    fn of(
        alloc: Global,
        journals: &'a Journals,
        nothing: &'a Redone,
    ) -> Result<Course<'a>, AllocError> {
        let starts = starts_of(alloc, journals, nothing)?;
        let turns = turns_of(alloc, journals, nothing)?;
        Ok(Course {
            fetched: Fetched::of(alloc, journals)?,
            starts,
            turns,
        })
    }
}

impl<'a> Run<'a> {
    /// A run before its starts.
    fn of(
        alloc: Global,
        plant: &'a Plant,
        outlets: &'a Outlets,
        wanted: Option<Name>,
    ) -> Result<Run<'a>, AllocError> {
        Ok(Run {
            alloc,
            plant,
            outlets,
            wanted,
            actors: nobody(alloc, plant)?,
            differs: None,
            of_message: Vec::new(alloc),
        })
    }

    /// The tables of the class of a slot, if it has a chart.
    fn tables_at(&self, slot: SlotId) -> Option<&'a Tables>
        ensures { IfSome result (λ t. IsSound t.now) }
    {
        let plant = self.plant;
        match plant.wiring.get_slot(slot) {
            Some(slot) => tables_of(plant, usize::from(slot.class)),
            None => None,
        }
    }

    /// An actor stands in a slot, or nobody does.
    fn put(&mut self, slot: SlotId, replay: Option<Replay>) {
        if let Some(place) = self.actors.get_mut(usize::from(slot.0)) {
            *place = replay;
        }
    }

    /// An actor comes up.
    fn come_up(&mut self, who: Incarnation) -> Result<Outcome, AllocError> {
        let alloc = self.alloc;
        let Some(tables) = self.tables_at(who.slot) else {
            self.put(who.slot, None);
            return Ok(outcome_without_chart(alloc));
        };
        let mut replay = Replay::start(alloc, tables, who)?;
        let commands = replay.take_commands(alloc);
        let state = replay.state();
        self.put(who.slot, Some(replay));
        Ok(Outcome {
            handling: Handling::Handled,
            state,
            commands,
            replayed: None,
        })
    }

    /// What an actor makes of a message; none where it hasn't come up.
    fn handle(&mut self, who: Incarnation, msg: &Msg) -> Result<Option<Outcome>, AllocError> {
        let alloc = self.alloc;
        let Some(tables) = self.tables_at(who.slot) else {
            return Ok(Some(outcome_without_chart(alloc)));
        };
        let is_wanted = self.wanted == Some(Name::new(msg.from, msg.stamp));
        let Some(Some(replay)) = self.actors.get_mut(usize::from(who.slot.0)) else {
            return Ok(None);
        };
        if !replay.is(who) {
            return Ok(None);
        }
        react_if_fitting(alloc, replay, tables, msg, is_wanted)
    }

    /// The journals tell something else than the chart does.
    fn differ(&mut self, at: Moment, told: Deed, done: Deed) {
        self.differs = Some(Difference {
            stamp: at.stamp,
            controller: at.controller,
            who: at.who,
            told,
            done,
        });
    }

    /// Compares what an actor says with what the journals tell, and adds what nobody hears; answers what the journals
    /// tell behind it.
    fn hear<'b>(
        &mut self,
        at: Moment,
        commands: &Commands,
        told: Told<'b>,
        unheard: &mut Vec<Said>,
    ) -> Result<Told<'b>, AllocError> {
        let plant = self.plant;
        let outlets = self.outlets;
        let mut hearing = Hearing::of(self.alloc, &plant.wiring, outlets, at.who.slot, told);
        let differs = hearing.compare(commands.as_slice())?;
        let (said, rest) = hearing.into_parts();
        match differs {
            Some((told, done)) => self.differ(at, told, done),
            None => add_all(unheard, said)?,
        }
        Ok(rest)
    }

    /// An actor comes up that does so by the journals, in this state and saying this.
    fn check_up<'b>(
        &mut self,
        at: Moment,
        state: u16,
        told: Told<'b>,
        unheard: &mut Vec<Said>,
    ) -> Result<Told<'b>, AllocError> {
        let outcome = self.come_up(at.who)?;
        if outcome.state != state {
            self.differ(at, Deed::Stands(state), Deed::Stands(outcome.state));
            return Ok(told);
        }
        self.hear(at, &outcome.commands, told, unheard)
    }

    /// The start of an actor.
    fn start(&mut self, start: &Start<'_>, unheard: &mut Vec<Said>) -> Result<(), AllocError> {
        let at = Moment {
            stamp: None,
            controller: start.controller,
            who: start.who,
        };
        let told = Told {
            notes: start.notes,
            posts: start.sends,
        };
        let _rest = self.check_up(at, start.state, told, unheard)?;
        Ok(())
    }

    /// The actors that come up and go down in a duty.
    fn duty(&mut self, turn: &Turn<'_>, unheard: &mut Vec<Said>) -> Result<(), AllocError> {
        let mut posts = turn.behind;
        for (place, note) in turn.notes.iter().enumerate() {
            match note {
                Note::Up { who, state } if self.differs.is_none() => {
                    let told = Told {
                        notes: notes_of_one(turn.notes, place.saturating_add(1)),
                        posts,
                    };
                    let at = moment_of(turn, *who);
                    posts = self.check_up(at, *state, told, unheard)?.posts;
                }
                Note::Down { who, .. } => self.put(who.slot, None),
                _ => (),
            }
        }
        Ok(())
    }

    /// The turn of a message at an actor.
    fn treat(
        &mut self,
        turn: &Turn<'_>,
        who: Incarnation,
        msg: &Msg,
        unheard: &mut Vec<Said>,
    ) -> Result<(), AllocError> {
        let at = moment_of(turn, who);
        let Some(outcome) = self.handle(who, msg)? else {
            self.differ(at, Deed::Turns(turn.did), Deed::Nobody);
            return Ok(());
        };
        let Outcome {
            handling,
            state,
            commands,
            replayed,
        } = outcome;
        let did = did_of(handling, who, state);
        if did != turn.did {
            self.differ(at, Deed::Turns(turn.did), Deed::Turns(did));
            return Ok(());
        }
        let _rest = self.hear(at, &commands, told_by(turn), unheard)?;
        if let Some(replayed) = replayed
            && self.differs.is_none()
        {
            self.of_message.push(replayed)?;
        }
        Ok(())
    }

    /// The turn of a message that nobody treats, or that is nowhere.
    fn pass(
        &mut self,
        turn: &Turn<'_>,
        who: Incarnation,
        unheard: &mut Vec<Said>,
    ) -> Result<(), AllocError> {
        let at = moment_of(turn, who);
        let _rest = self.hear(at, &Commands::new(self.alloc), told_by(turn), unheard)?;
        Ok(())
    }

    /// A turn.
    fn turn(
        &mut self,
        turn: &Turn<'_>,
        fetched: &Fetched<'_>,
        unheard: &mut Vec<Said>,
    ) -> Result<(), AllocError> {
        match turn.did {
            Did::Handled { who, .. } | Did::Deferred { who, .. } | Did::Unhandled { who, .. } => {
                match fetched.get(turn.name()) {
                    Some(msg) => self.treat(turn, who, msg, unheard),
                    None => self.pass(turn, who, unheard),
                }
            }
            Did::Duty => self.duty(turn, unheard),
            Did::Stale { target } | Did::Empty { target } => self.pass(turn, target, unheard),
        }
    }

    /// All starts, up to where the journals first differ; answers what is said that nobody hears.
    fn all_starts(&mut self, starts: &[Start<'_>]) -> Result<Vec<Said>, AllocError> {
        let mut unheard = Vec::new(self.alloc);
        for start in starts {
            if self.differs.is_some() {
                break;
            }
            self.start(start, &mut unheard)?;
        }
        Ok(unheard)
    }

    /// All turns, up to where the journals first differ; answers what is said that nobody hears.
    fn all_turns(
        &mut self,
        turns: &[Turn<'_>],
        fetched: &Fetched<'_>,
    ) -> Result<Vec<Said>, AllocError> {
        let mut unheard = Vec::new(self.alloc);
        for turn in turns {
            if self.differs.is_some() {
                break;
            }
            self.turn(turn, fetched, &mut unheard)?;
        }
        Ok(unheard)
    }

    /// The numbers of the attributes of those who stand in the slots; none where the journals differ.
    fn attributes(&self) -> Result<Vec<Option<Vec<i64>>>, AllocError> {
        let mut attributes = Vec::new(self.alloc);
        if self.differs.is_some() {
            return Ok(attributes);
        }
        for actor in self.actors.as_slice() {
            let numbers = match actor {
                Some(replay) => Some(replay.numbers(self.alloc)?),
                None => None,
            };
            attributes.push(numbers)?;
        }
        Ok(attributes)
    }

    /// Does a run again from its starts on.
    fn redo(&mut self, course: &Course<'_>) -> Result<Redone, AllocError> {
        let at_starts = self.all_starts(course.starts.as_slice())?;
        let in_turns = self.all_turns(course.turns.as_slice(), &course.fetched)?;
        let attributes = self.attributes()?;
        Ok(Redone {
            at_starts,
            in_turns,
            differs: self.differs.take(),
            attributes,
        })
    }
}

/// Does the run of a course again.
fn replays_on(
    alloc: Global,
    plant: &Plant,
    outlets: &Outlets,
    course: &Course<'_>,
    wanted: Option<Name>,
) -> Result<Replays, AllocError> {
    let mut run = Run::of(alloc, plant, outlets, wanted)?;
    let redone = run.redo(course)?;
    let Run { of_message, .. } = run;
    Ok(Replays { redone, of_message })
}

/// Does a run again of which nothing was done yet.
fn replays_from(
    alloc: Global,
    plant: &Plant,
    journals: &Journals,
    nothing: &Redone,
    wanted: Option<Name>,
) -> Result<Replays, AllocError> {
    let outlets = Outlets::of(alloc, &plant.wiring)?;
    let course = Course::of(alloc, journals, nothing)?;
    replays_on(alloc, plant, &outlets, &course, wanted)
}

/// Does a run again by the charts of its plant: each start and each turn of an actor once, in the order of the stamps,
/// up to where the journals first tell another state or other sends than the chart gives. Of one message more is
/// told: each of its turns at its actor's chart, in their order.
pub fn replays_of(
    alloc: Global,
    plant: &Plant,
    journals: &Journals,
    wanted: Option<Name>,
) -> Result<Replays, AllocError> {
    let nothing = Redone::nothing(alloc);
    replays_from(alloc, plant, journals, &nothing, wanted)
}

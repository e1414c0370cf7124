//! The picture of a run: who took part, and what became of the messages.
use crate::cast::MOST_LIFELINES;
use crate::choice::{Choice, Crowd, Happening};
use crate::drawing::Drawing;
use crate::run_texts::{
    crowd_text, difference_text, end_text, gap_text, settle_text, undrawn_text,
};
use journal::{Entry, Journals};
use room_kinds::SlotId;
use room_wiring::Wiring;
use std::alloc::{AllocError, Global};
use view_drawing::Sequence;
use view_journals::{Moment, Redone, Start, Told, Turn, Wanted, moments_of, starts_of, turns_of};

/// A run, and its starts and turns.
#[derive(Clone, Copy)]
struct Run<'a, 'b> {
    told: &'b Told<'a>,
    starts: &'b [Start<'a>],
    turns: &'b [Turn<'a>],
}

/// The stamps with which the environment went on when all was quiet: those that aren't one above the one before.
fn settled_of(alloc: Global, journals: &Journals) -> Result<Vec<u64>, AllocError> {
    let mut settled = Vec::new(alloc);
    let mut last = 0u64;
    for entry in journals.environment.as_slice() {
        if let Entry::Post { stamp, .. } = entry {
            if stamp.0 > last.saturating_add(1) {
                settled.push(stamp.0)?;
            }
            last = stamp.0;
        }
    }
    Ok(settled)
}

/// How far a run is drawn.
#[derive(Drop)]
struct Progress {
    /// The stamps with which the environment went on behind a `settle`.
    settled: Vec<u64>,
    /// How many of them are passed.
    passed: usize,
    /// The moments at which timers expired, each with such a stamp.
    moments: Vec<Moment>,
    /// The first turn behind those that are drawn or passed over.
    next_turn: usize,
}

impl Progress {
    /// Nothing is drawn yet of a run.
    fn none(alloc: Global, wiring: &Wiring, journals: &Journals) -> Result<Progress, AllocError> {
        Ok(Progress {
            settled: settled_of(alloc, journals)?,
            passed: 0,
            moments: moments_of(alloc, wiring, journals)?,
            next_turn: 0,
        })
    }

    /// Whether all was quiet since the last time, up to a stamp.
    fn settles(&mut self, stamp: u64) -> bool {
        let rest = self.settled.as_slice().get(self.passed..).unwrap_or(&[]);
        let count = rest.iter().take_while(|settled| **settled <= stamp).count();
        self.passed = self.passed.saturating_add(count);
        count > 0
    }

    /// The moment at which all was quiet last, if it was one.
    fn moment(&self) -> Option<Moment> {
        let last = self.passed.saturating_sub(1);
        let stamp = self.settled.as_slice().get(last)?;
        let moments = self.moments.as_slice();
        moments
            .iter()
            .find(|moment| moment.stamp == *stamp)
            .copied()
    }

    /// How many turns are passed over up to one that is drawn.
    fn gap_before(&mut self, turn: usize) -> usize {
        let gap = turn.saturating_sub(self.next_turn);
        self.next_turn = turn.saturating_add(1);
        gap
    }
}

/// Draws that turns are passed over.
fn add_gap(drawing: &mut Drawing<'_, '_>, turns: usize) -> Result<(), AllocError> {
    if turns == 0 {
        return Ok(());
    }
    let text = gap_text(drawing.alloc(), turns)?;
    drawing.add_divider(text)
}

fn add_settle(
    drawing: &mut Drawing<'_, '_>,
    progress: &mut Progress,
    stamp: u64,
) -> Result<(), AllocError> {
    if !progress.settles(stamp) {
        return Ok(());
    }
    let text = settle_text(drawing.alloc(), drawing.wiring(), progress.moment())?;
    drawing.add_divider(text)
}

/// Draws a message that is posted.
fn draw_post(
    drawing: &mut Drawing<'_, '_>,
    progress: &mut Progress,
    number: usize,
) -> Result<(), AllocError> {
    if let Some(stamp) = drawing.stamp_of(number) {
        add_settle(drawing, progress, stamp)?;
    }
    drawing.add_post(number)
}

/// Draws a turn, and what lies before it.
fn draw_turn<'a>(
    drawing: &mut Drawing<'a, '_>,
    progress: &mut Progress,
    number: usize,
    turn: &Turn<'a>,
) -> Result<(), AllocError> {
    add_gap(drawing, progress.gap_before(number))?;
    add_settle(drawing, progress, turn.stamp.0)?;
    drawing.add_turn(turn)
}

/// Draws what happened.
fn add_happening<'a>(
    drawing: &mut Drawing<'a, '_>,
    progress: &mut Progress,
    turns: &[Turn<'a>],
    happening: Happening,
) -> Result<(), AllocError> {
    match happening {
        Happening::Post(number) => draw_post(drawing, progress, number),
        Happening::Turn(number) => match turns.get(number) {
            Some(turn) => draw_turn(drawing, progress, number, turn),
            None => Ok(()),
        },
    }
}

/// Draws what happened, as far as there is room.
fn add_happenings<'a>(
    drawing: &mut Drawing<'a, '_>,
    progress: &mut Progress,
    turns: &[Turn<'a>],
    happenings: &[Happening],
) -> Result<(), AllocError> {
    for happening in happenings {
        if drawing.is_full() {
            break;
        }
        add_happening(drawing, progress, turns, *happening)?;
    }
    Ok(())
}

/// Chooses the starts that are wanted.
fn choose_starts<'a>(choice: &mut Choice<'a>, run: Run<'a, '_>) -> Result<(), AllocError> {
    for start in run.starts {
        if run.told.wants_start(start) {
            choice.add_start(run.told, start)?;
        }
    }
    Ok(())
}

/// Chooses the turns that are wanted.
fn choose_turns<'a>(choice: &mut Choice<'a>, run: Run<'a, '_>) -> Result<(), AllocError> {
    for (number, turn) in run.turns.iter().enumerate() {
        if run.told.wants_turn(turn) {
            choice.add_turn(run.told, number, turn)?;
        }
    }
    Ok(())
}

/// Chooses the messages that are wanted of those that were left.
fn choose_left<'a>(choice: &mut Choice<'a>, told: &Told<'a>) -> Result<(), AllocError> {
    for left in told.journals.left.as_slice() {
        if told.wants_left(left) {
            choice.add_message(&left.msg)?;
        }
    }
    Ok(())
}

/// Chooses what is wanted. Those who act come before those who only start, should there be no room for all.
fn choose<'a>(choice: &mut Choice<'a>, run: Run<'a, '_>) -> Result<(), AllocError> {
    choose_turns(choice, run)?;
    choose_left(choice, run.told)?;
    choose_starts(choice, run)
}

/// What of a run is wanted, where these are passed over, and all others have lifelines for whom there is room.
fn usual_choice<'a>(
    alloc: Global,
    run: Run<'a, '_>,
    crowd: Crowd,
) -> Result<Choice<'a>, AllocError> {
    let mut choice = Choice::nothing(alloc, run.told, crowd, MOST_LIFELINES)?;
    choose(&mut choice, run)?;
    Ok(choice)
}

/// What of a run is wanted, where one slot alone has a lifeline of its own.
fn narrow_choice<'a>(
    alloc: Global,
    run: Run<'a, '_>,
    actor: SlotId,
) -> Result<Choice<'a>, AllocError> {
    let mut choice = Choice::nothing(alloc, run.told, Crowd::Unnamed, 1)?;
    let _has_line = choice.cast.admit(actor);
    choose(&mut choice, run)?;
    Ok(choice)
}

/// What of a run is wanted. Where more take part than there is room for, those are passed over to whom nothing happens,
/// and then all but the one that options name.
fn choice_of<'a>(alloc: Global, run: Run<'a, '_>) -> Result<Choice<'a>, AllocError> {
    let whole = usual_choice(alloc, run, Crowd::Seated)?;
    if !whole.cast.is_crowded {
        return Ok(whole);
    }
    let mut acting = usual_choice(alloc, run, Crowd::Idle)?;
    if !acting.cast.is_crowded {
        return Ok(acting);
    }
    if let Some(actor) = run.told.wanted.actor {
        return narrow_choice(alloc, run, actor);
    }
    acting.crowd = Crowd::Late;
    Ok(acting)
}

/// Draws who is passed over.
fn add_crowd(drawing: &mut Drawing<'_, '_>, crowd: Crowd) -> Result<(), AllocError> {
    match crowd_text(drawing.alloc(), crowd)? {
        Some(text) => drawing.add_divider(text),
        None => Ok(()),
    }
}

/// Draws how a run ended, and what isn't drawn.
fn add_end(drawing: &mut Drawing<'_, '_>, gap: usize, undrawn: usize) -> Result<(), AllocError> {
    drawing.open_ways();
    add_gap(drawing, gap)?;
    if undrawn > 0 {
        let text = undrawn_text(drawing.alloc(), undrawn)?;
        drawing.add_divider(text)?;
    }
    if drawing.told.wanted.wants_end() {
        let text = end_text(drawing.alloc(), drawing.told.journals)?;
        drawing.add_divider(text)?;
    }
    Ok(())
}

/// Draws that the journals are those of another model, if they are.
fn add_difference(drawing: &mut Drawing<'_, '_>) -> Result<(), AllocError> {
    let told = drawing.told;
    match &told.redone.differs {
        Some(difference) => {
            let text = difference_text(drawing.alloc(), told.wiring, difference)?;
            drawing.add_divider(text)
        }
        None => Ok(()),
    }
}

/// Draws what was chosen of a run from its starts to its end; of messages and turns these happenings.
fn draw<'a>(
    drawing: &mut Drawing<'a, '_>,
    run: Run<'a, '_>,
    choice: &Choice<'a>,
    happenings: &[Happening],
) -> Result<(), AllocError> {
    let mut progress = Progress::none(drawing.alloc(), run.told.wiring, run.told.journals)?;
    add_difference(drawing)?;
    add_crowd(drawing, choice.crowd)?;
    drawing.add_starts(run.starts)?;
    add_happenings(drawing, &mut progress, run.turns, happenings)?;
    let gap = progress.gap_before(run.turns.len());
    add_end(drawing, gap, choice.undrawn)
}

/// The picture of what was chosen of a run.
fn picture_of_choice<'a, 'b>(
    alloc: Global,
    run: Run<'a, 'b>,
    choice: &'b Choice<'a>,
    happenings: &[Happening],
) -> Result<Sequence, AllocError> {
    let mut drawing = Drawing::of(alloc, run.told, choice)?;
    draw(&mut drawing, run, choice, happenings)?;
    Ok(drawing.into_sequence())
}

/// The picture of what is wanted of a run.
fn picture_of_run(alloc: Global, run: Run<'_, '_>) -> Result<Sequence, AllocError> {
    let mut choice = choice_of(alloc, run)?;
    let happenings = choice.in_order(alloc)?;
    picture_of_choice(alloc, run, &choice, happenings.as_slice())
}

fn picture_of_told(alloc: Global, told: &Told<'_>) -> Result<Sequence, AllocError> {
    let starts = starts_of(alloc, told.journals, told.redone)?;
    let turns = turns_of(alloc, told.journals, told.redone)?;
    let run = Run {
        told,
        starts: starts.as_slice(),
        turns: turns.as_slice(),
    };
    picture_of_run(alloc, run)
}

/// The picture of what is wanted of a run. No more than some 4,000 rows are drawn, and no more than 40 slots have
/// lifelines of their own; where more take part, only the one has that is wanted alone. The picture says so, and where
/// something is cut, or the journals are those of another model.
pub(crate) fn run_picture(
    alloc: Global,
    wiring: &Wiring,
    journals: &Journals,
    redone: &Redone,
    wanted: Wanted<'_>,
) -> Result<Sequence, AllocError> {
    let told = Told::of(alloc, wiring, journals, redone, wanted)?;
    picture_of_told(alloc, &told)
}

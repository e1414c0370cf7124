//! What is told where the lines `left` aren't the messages that are left.
ghost use Rattle.inject_reader.specs.Fitting.{LinesFit};

use crate::earlier::Front;
use crate::entry_text::put_left;
use crate::places::Part;
use crate::reached::{Stop, reach};
use crate::sheet::{Sheet, Sources};
use controller_actors::Plant;
use inject_reader::Line;
use journal::{Journals, Left};
use room_kinds::{ControllerId, Msg, Priority};
use room_verify::Replay;
use std::alloc::{AllocError, Global};
use view_pages::Page;

/// How many priorities there are.
const PRIORITIES: u8 = 6;

/// What is left in the end, and how many entries of each party there are.
#[derive(Drop)]
pub(crate) struct Lefts {
    all: Vec<Left>,
    passed: Vec<usize>,
}

/// Adds a message that is left for a controller.
fn add(
    alloc: Global,
    all: &mut Vec<Left>,
    to: ControllerId,
    pending: bool,
    msg: &Msg,
) -> Result<(), AllocError> {
    let msg = msg.copy(alloc)?;
    all.push(Left { to, pending, msg })?;
    Ok(())
}

/// Adds the messages that wait for a controller's turns at a priority.
fn add_waiting(
    alloc: Global,
    all: &mut Vec<Left>,
    replay: &Replay,
    c: ControllerId,
    prio: Priority,
) -> Result<(), AllocError> {
    for i in 0..usize::MAX {
        let Some(msg) = replay.waiting(c, prio, i) else {
            return Ok(());
        };
        add(alloc, all, c, true, msg)?;
    }
    Ok(())
}

/// Adds the messages of a lane.
fn add_lane(
    alloc: Global,
    all: &mut Vec<Left>,
    replay: &Replay,
    sender: ControllerId,
    c: ControllerId,
    prio: Priority,
) -> Result<(), AllocError> {
    for i in 0..usize::MAX {
        let Some(msg) = replay.on_its_way(sender, c, prio, i) else {
            return Ok(());
        };
        add(alloc, all, c, false, msg)?;
    }
    Ok(())
}

/// Adds the messages on their way to a controller at a priority, those of the environment first.
fn add_lanes(
    alloc: Global,
    all: &mut Vec<Left>,
    replay: &Replay,
    controllers: u8,
    c: ControllerId,
    prio: Priority,
) -> Result<(), AllocError> {
    add_lane(alloc, all, replay, ControllerId(controllers), c, prio)?;
    for sender in 0..controllers {
        add_lane(alloc, all, replay, ControllerId(sender), c, prio)?;
    }
    Ok(())
}

/// What is left in the world of a replay, by receiver: what waits there, and then what is on its way, by
/// priority.
pub(crate) fn lefts_of(
    alloc: Global,
    replay: &Replay,
    controllers: u8,
) -> Result<Vec<Left>, AllocError> {
    let mut all = Vec::new(alloc);
    for number in 0..controllers {
        let c = ControllerId(number);
        for prio in 0..PRIORITIES {
            add_waiting(alloc, &mut all, replay, c, Priority(prio))?;
        }
        for prio in 0..PRIORITIES {
            add_lanes(alloc, &mut all, replay, controllers, c, Priority(prio))?;
        }
    }
    Ok(all)
}

/// What is left where the merge of journals leads; none where an entry is refused.
pub(crate) fn lefts_in(
    alloc: Global,
    plant: &Plant,
    lines: &[Line],
    journals: &Journals,
) -> Result<Option<Lefts>, AllocError>
    requires fit { LinesFit plant.now.wiring lines.now }
{
    let Some(reached) = reach(alloc, plant, lines, journals, Stop::End)? else {
        return Ok(None);
    };
    let all = lefts_of(alloc, &reached.replay, plant.wiring.controller_count())?;
    Ok(Some(Lefts {
        all,
        passed: reached.passed,
    }))
}

fn is_same(a: &Left, b: &Left) -> bool {
    a.to == b.to && a.pending == b.pending && a.msg.is_same(&b.msg)
}

/// The first place at which one of two lists has another message than the other one.
fn first_unlike(told: &[Left], all: &[Left]) -> usize {
    told.iter()
        .zip(all)
        .take_while(|both| is_same(both.0, both.1))
        .count()
}

impl<'a> Sheet<'a> {
    /// Tells where the lines `left` first aren't what is left.
    pub(crate) fn tell_left(self, page: &mut Page, lefts: &Lefts) -> Result<(), AllocError> {
        let told = self.journals.left.as_slice();
        let at = first_unlike(told, lefts.all.as_slice());
        if at < told.len() {
            self.show(page, Part::Left(at));
        } else if self.journals.unposted.is_empty() {
            self.show(page, Part::End);
        } else {
            self.show(page, Part::Unposted(0));
        }
        let Some(left) = lefts.all.get(at) else {
            self.say(page, b"nothing more is left");
            return Ok(());
        };
        page.put(b"    here would stand: ");
        put_left(page, self.wiring, left);
        page.end_line();
        self.tell_left_sources(page, lefts, left)
    }

    /// From what it follows that a message is left.
    fn tell_left_sources(
        self,
        page: &mut Page,
        lefts: &Lefts,
        left: &Left,
    ) -> Result<(), AllocError> {
        let front = Front {
            journals: self.journals,
            passed: lefts.passed.as_slice(),
        };
        let msg = &left.msg;
        let mut sources = Sources::new(self.alloc);
        sources.add(front.post_of(msg.from, msg.stamp), b"here it was posted")?;
        let party = usize::from(left.to.0);
        sources.add(
            front.fetch_of(party, msg.from, msg.stamp),
            b"here it was fetched",
        )?;
        self.tell_sources(page, &sources);
        Ok(())
    }
}

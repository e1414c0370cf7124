//! The moments of a run: when timers expired.
//!
//! Journals have the timeouts, and neither virtual time nor the lines that move it. What they tell of a moment is how
//! long after which post it was: the one that armed a timer which expired then. Where a timer was armed at a time that is
//! known, as at the start and at a moment before the environment posted another message, the time itself is told.
use crate::fetched::Name;
use crate::names::put_name;
use indexmap::IndexMap;
use journal::{Entry, Journals};
use room_kinds::{ControllerId, Endpoint, Msg, PortKind, Stamp};
use room_timer::{Timer, TimerTable};
use room_wiring::Wiring;
use std::alloc::{AllocError, Global};
use view_pages::Page;

/// What armed a timer: a post, and how long after it the timer was due.
#[derive(Clone, Copy, Drop)]
pub struct Arming {
    pub by: Name,
    pub delay: u64,
}

/// A moment: timeouts that the environment posted together.
#[derive(Clone, Copy, Drop)]
pub struct Moment {
    /// The stamp of the first of them.
    pub stamp: u64,
    /// What armed its timer, where the journals have it.
    pub arming: Option<Arming>,
    /// The virtual time, where it is known.
    pub time: Option<u64>,
}

/// An access point at which timeouts come in, whoever stands there.
#[derive(Clone, Copy, Drop, PartialEq, Eq, Hash)]
struct Point {
    slot: u16,
    port: u16,
    place: u32,
}

/// A timer that was armed by a post, in order of stamp and controller.
#[derive(Clone, Copy, Drop, PartialEq, Eq, PartialOrd, Ord)]
struct Armed {
    stamp: u64,
    controller: u8,
    slot: u16,
    port: u16,
    place: u32,
    delay: u64,
}

/// What is known of the timer of a point: what armed it, and the virtual time then.
#[derive(Clone, Copy, Drop)]
struct Known {
    arming: Arming,
    time: Option<u64>,
}

impl Point {
    fn of(end: Endpoint) -> Point {
        Point {
            slot: end.slot.0,
            port: end.port,
            place: end.place,
        }
    }
}

impl Armed {
    fn point(&self) -> Point {
        Point {
            slot: self.slot,
            port: self.port,
            place: self.place,
        }
    }

    fn arming(&self) -> Arming {
        Arming {
            by: Name {
                from: self.controller,
                sent: self.stamp,
            },
            delay: self.delay,
        }
    }
}

/// Whether a message of the environment is a timeout: no line of injections posts to a service access point.
pub fn is_timeout(wiring: &Wiring, msg: &Msg) -> bool {
    match wiring.port_of(msg.target.slot, msg.target.port) {
        Some(port) => port.kind == PortKind::Sap,
        None => false,
    }
}

fn has_timeout(wiring: &Wiring, journals: &Journals) -> bool {
    journals
        .environment
        .as_slice()
        .iter()
        .any(|entry| match entry {
            Entry::Post { msg, .. } => is_timeout(wiring, msg),
            Entry::Start { .. } | Entry::Fetch { .. } | Entry::Turn { .. } => false,
        })
}

/// The timer that an entry of a controller arms, as if it were armed at the time 0.
fn timer_of(
    alloc: Global,
    wiring: &Wiring,
    controller: ControllerId,
    entry: &Entry,
) -> Result<Option<Timer>, AllocError> {
    let mut table = TimerTable::new(alloc);
    table.see(wiring, controller, entry)?;
    Ok(table.first_armed())
}

/// Adds the timers that the posts of a controller armed.
fn add_armed(
    alloc: Global,
    wiring: &Wiring,
    controller: u8,
    entries: &[Entry],
    armed: &mut Vec<Armed>,
) -> Result<(), AllocError> {
    for entry in entries {
        let Entry::Post { stamp, .. } = entry else {
            continue;
        };
        if let Some(timer) = timer_of(alloc, wiring, ControllerId(controller), entry)? {
            armed.push(Armed {
                stamp: stamp.0,
                controller,
                slot: timer.at.slot.0,
                port: timer.at.port,
                place: timer.at.place,
                delay: timer.due,
            })?;
        }
    }
    Ok(())
}

/// The timers that were armed in a run, in order.
fn armed_in(alloc: Global, wiring: &Wiring, journals: &Journals) -> Result<Vec<Armed>, AllocError> {
    let mut armed = Vec::new(alloc);
    for (number, journal) in journals.controllers.as_slice().iter().enumerate() {
        if let Ok(controller) = u8::try_from(number) {
            add_armed(alloc, wiring, controller, journal.as_slice(), &mut armed)?;
        }
    }
    armed.sort()?;
    Ok(armed)
}

/// A walk over the environment's posts: what was armed and isn't seen yet, what is known of the timers of points, the
/// virtual time where it is known, the stamp of the last post, and the moments so far.
#[derive(Drop)]
struct Walk<'a> {
    ahead: &'a [Armed],
    known: IndexMap<Point, Known>,
    now: Option<u64>,
    last: Option<u64>,
    in_moment: bool,
    moments: Vec<Moment>,
}

impl<'a> Walk<'a> {
    fn of(alloc: Global, armed: &'a [Armed]) -> Walk<'a> {
        Walk {
            ahead: armed,
            known: IndexMap::new(alloc),
            now: Some(0),
            last: None,
            in_moment: false,
            moments: Vec::new(alloc),
        }
    }

    /// Whether a stamp follows that of the post before. A part of the posts begins where it doesn't: in between all was
    /// quiet.
    fn goes_on(&self, stamp: u64) -> bool {
        match self.last {
            Some(last) => last.saturating_add(1) == stamp,
            None => false,
        }
    }

    /// Sees what was armed before a stamp.
    fn see_before(&mut self, stamp: u64) -> Result<(), AllocError> {
        let ahead = self.ahead;
        let count = ahead.iter().take_while(|armed| armed.stamp < stamp).count();
        for armed in ahead.get(..count).unwrap_or(&[]) {
            let known = Known {
                arming: armed.arming(),
                time: self.now,
            };
            self.known.insert(armed.point(), known)?;
        }
        self.ahead = ahead.get(count..).unwrap_or(&[]);
        Ok(())
    }

    /// What is known of the timer of a point where a timeout comes in, and when it was due.
    fn due(&self, target: Endpoint) -> (Option<Arming>, Option<u64>) {
        match self.known.get(&Point::of(target)) {
            Some(known) => {
                let time = match known.time {
                    Some(time) => Some(time.saturating_add(known.arming.delay)),
                    None => None,
                };
                (Some(known.arming), time)
            }
            None => (None, None),
        }
    }

    /// A moment begins with this timeout.
    fn begin_moment(&mut self, stamp: u64, target: Endpoint) -> Result<(), AllocError> {
        self.see_before(stamp)?;
        let (arming, time) = self.due(target);
        self.now = time;
        self.moments.push(Moment {
            stamp,
            arming,
            time,
        })?;
        Ok(())
    }

    /// A further timeout of a moment: its time is that of the moment.
    fn add_timeout(&mut self, target: Endpoint) {
        let (arming, time) = self.due(target);
        let last = self.moments.len().saturating_sub(1);
        let Some(moment) = self.moments.get_mut(last) else {
            return;
        };
        if moment.time.is_some() {
            return;
        }
        if moment.arming.is_none() {
            moment.arming = arming;
        }
        moment.time = time;
        self.now = time;
    }

    /// A post of the environment.
    fn post(&mut self, wiring: &Wiring, stamp: u64, msg: &Msg) -> Result<(), AllocError> {
        let goes_on = self.goes_on(stamp);
        self.last = Some(stamp);
        if is_timeout(wiring, msg) {
            if goes_on && self.in_moment {
                self.add_timeout(msg.target);
                return Ok(());
            }
            self.in_moment = true;
            return self.begin_moment(stamp, msg.target);
        }
        if !goes_on {
            self.see_before(stamp)?;
        }
        self.in_moment = false;
        self.now = None;
        Ok(())
    }
}

/// The moments of a run, in order.
pub fn moments_of(
    alloc: Global,
    wiring: &Wiring,
    journals: &Journals,
) -> Result<Vec<Moment>, AllocError> {
    if !has_timeout(wiring, journals) {
        return Ok(Vec::new(alloc));
    }
    let armed = armed_in(alloc, wiring, journals)?;
    let mut walk = Walk::of(alloc, armed.as_slice());
    for entry in journals.environment.as_slice() {
        if let Entry::Post { stamp, msg } = entry {
            walk.post(wiring, stamp.0, msg)?;
        }
    }
    let Walk { moments, .. } = walk;
    Ok(moments)
}

/// What armed the timer whose timeout the environment posted in the moment of a stamp.
pub fn arming_before(
    alloc: Global,
    wiring: &Wiring,
    journals: &Journals,
    target: Endpoint,
    stamp: u64,
) -> Result<Option<Arming>, AllocError> {
    let armed = armed_in(alloc, wiring, journals)?;
    let point = Point::of(target);
    let mut arming = None;
    for one in armed.as_slice() {
        if one.stamp < stamp && one.point() == point {
            arming = Some(one.arming());
        }
    }
    Ok(arming)
}

/// How long after which post a timer was due.
pub fn put_arming(page: &mut Page, wiring: &Wiring, arming: Arming) {
    page.put_number(arming.delay);
    page.put(b" after ");
    put_name(
        page,
        wiring,
        ControllerId(arming.by.from),
        Stamp(arming.by.sent),
    );
}

/// When a moment was.
pub fn put_moment(page: &mut Page, wiring: &Wiring, moment: Moment) {
    match (moment.time, moment.arming) {
        (Some(time), _) => {
            page.put(b"time ");
            page.put_number(time);
        }
        (None, Some(arming)) => put_arming(page, wiring, arming),
        (None, None) => page.put(b"timeouts"),
    }
}

/// The line that divides what was before a moment from what is behind it.
fn tell_moment(page: &mut Page, wiring: &Wiring, moment: Moment) {
    page.put(b"  ---- ");
    put_moment(page, wiring, moment);
    page.end_line();
}

/// The lines that divide a story at its moments: those ahead, and the one that stands before the next line.
#[derive(Clone, Copy)]
pub struct Dividers<'a> {
    ahead: &'a [Moment],
    next: Option<Moment>,
}

impl<'a> Dividers<'a> {
    pub fn of(moments: &'a [Moment]) -> Dividers<'a> {
        Dividers {
            ahead: moments,
            next: None,
        }
    }

    /// Passes the moments before a stamp.
    pub fn pass(&mut self, stamp: u64) {
        let ahead = self.ahead;
        let count = ahead
            .iter()
            .take_while(|moment| moment.stamp < stamp)
            .count();
        if count > 0 {
            self.next = ahead.get(count - 1).copied();
        }
        self.ahead = ahead.get(count..).unwrap_or(&[]);
    }

    /// Tells the last moment that was passed, if it isn't told yet.
    pub fn tell(&mut self, page: &mut Page, wiring: &Wiring) {
        if let Some(moment) = self.next {
            self.next = None;
            tell_moment(page, wiring, moment);
        }
    }
}

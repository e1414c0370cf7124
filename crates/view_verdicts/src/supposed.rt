//! Injections that are supposed where none are named: what the environment posted tells its lines, and the
//! stamps of its posts tell where it waited until all was quiet.
use crate::judged::{Judged, fuel_told};
use crate::telling::verdict_if_unlawful;
use crate::words::{priority_word, put_verdict};
use controller_actors::Plant;
use inject_reader::{InjectFault, read_lines_fit, read_untimed};
use journal::{Entry, Journals, naming};
use room_kinds::Msg;
use room_wiring::Wiring;
use std::alloc::{AllocError, Global};
use view_journals::{is_timeout, put_path};
use view_pages::Page;

/// The most lines of injections.
const MOST_LINES: u32 = 10_000;

/// A text of injections that is being supposed, how many lines it has, and the stamp of the last post for
/// them.
#[derive(Drop)]
struct Supposed {
    page: Page,
    count: u32,
    stamp: u64,
}

impl Supposed {
    /// A line that asks for no message.
    fn line(&mut self, text: &[u8]) {
        self.page.put_line(text);
        self.count = self.count.saturating_add(1);
    }

    /// The line for which a message was posted.
    fn message(&mut self, wiring: &Wiring, msg: &Msg) {
        let page = &mut self.page;
        if let Some(slot) = wiring.get_slot(msg.target.slot) {
            put_path(page, &slot.path);
        }
        page.put(b".");
        page.put(wiring.port_name(msg.target.slot, msg.target.port));
        page.put(b"[");
        page.put_number(u64::from(msg.target.place));
        page.put(b"] ");
        page.put(naming::signal_name(wiring, msg));
        for number in msg.payload.numbers() {
            page.put(b" ");
            page.put_signed(*number);
        }
        page.put(b" at ");
        self.line(priority_word(msg.prio));
    }

    /// The line for a post: behind a `settle` where its stamp isn't the next one.
    fn post(&mut self, wiring: &Wiring, stamp: u64, msg: &Msg) {
        if stamp != self.stamp.saturating_add(1) {
            self.line(b"settle");
        }
        self.stamp = stamp;
        self.message(wiring, msg);
    }

    /// A line that wasn't posted, of this number: a `settle`, with comments before it.
    fn unposted(&mut self, number: u32) {
        let missing = number.min(MOST_LINES).saturating_sub(self.count);
        for _line in 1..missing {
            self.line(b"#");
        }
        self.line(b"settle");
    }
}

/// Injections over which these journals are those of a run, if they are over any.
fn supposed_text(alloc: Global, wiring: &Wiring, journals: &Journals) -> Page {
    let mut text = Supposed {
        page: Page::new(alloc),
        count: 0,
        stamp: 0,
    };
    for entry in journals.environment.as_slice() {
        if let Entry::Post { stamp, msg } = entry {
            text.post(wiring, stamp.0, msg);
        }
    }
    for number in journals.unposted.as_slice() {
        text.unposted(*number);
    }
    let Supposed { page, .. } = text;
    page
}

/// Whether the environment posted a timeout.
fn has_timeout(wiring: &Wiring, journals: &Journals) -> bool {
    journals
        .environment
        .as_slice()
        .iter()
        .any(|entry| match entry {
            Entry::Post { msg, .. } => is_timeout(wiring, msg),
            Entry::Start { .. } | Entry::Fetch { .. } | Entry::Turn { .. } => false,
        })
}

/// Tells in one line that journals are those of no run of a model, whatever the injections and the fuel, if
/// they are. Those with timeouts aren't judged.
pub fn tell_no_run(
    alloc: Global,
    page: &mut Page,
    plant: &Plant,
    journals: &Journals,
) -> Result<(), AllocError> {
    if has_timeout(&plant.wiring, journals) {
        return Ok(());
    }
    // A law, and no code: lines that were read name what the wiring has.
    read_lines_fit();
    let text = supposed_text(alloc, &plant.wiring, journals);
    let lines = match read_untimed(alloc, text.bytes()?, &plant.wiring) {
        Ok(lines) => lines,
        Err(InjectFault::Memory) => return Err(AllocError),
        Err(InjectFault::Code { .. }) => {
            page.put_line(
                b"! not a run of this model: no injections ask for what the environment posted",
            );
            return Ok(());
        }
    };
    let judged = Judged {
        plant,
        lines: lines.as_slice(),
        fuel: fuel_told(journals),
        journals,
    };
    let Some(verdict) = verdict_if_unlawful(alloc, judged)? else {
        return Ok(());
    };
    page.put(b"! not a run of this model, whatever the injections: ");
    put_verdict(page, &plant.wiring, verdict);
    page.end_line();
    Ok(())
}

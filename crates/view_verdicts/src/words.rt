//! Verdicts in words.
use room_kinds::{ControllerId, Priority};
use room_verify::Verdict;
use room_wiring::Wiring;
use view_journals::put_controller;
use view_pages::{Meaning, Page};

/// The cure of journals that no run printed.
const UNCHANGED: &str =
    "take what `room run` printed of this very model and these injections, whole and unchanged";

/// The cure of journals of which the fuel may be another one.
const WITH_FUEL: &str =
    "name the fuel of that run with --fuel, and take what it printed whole and unchanged";

/// A controller's number, or the word for the environment.
fn put_party(page: &mut Page, wiring: &Wiring, party: ControllerId) {
    if party.0 < wiring.controller_count() {
        page.put_number(u64::from(party.0));
    } else {
        page.put(b"env");
    }
}

/// A verdict, as the note of `verify` has it (docs/VERIFY.md).
pub(crate) fn put_verdict(page: &mut Page, wiring: &Wiring, verdict: Verdict) {
    match verdict {
        Verdict::Order(party) => {
            page.put(b"order ");
            put_party(page, wiring, party);
        }
        Verdict::Start(c) => {
            page.put(b"start ");
            page.put_number(u64::from(c.0));
        }
        Verdict::Entry(party, stamp) => {
            page.put(b"entry ");
            put_party(page, wiring, party);
            page.put(b" ");
            page.put_number(stamp.0);
        }
        Verdict::Left => page.put(b"left"),
        Verdict::Fuel(c) => {
            page.put(b"fuel ");
            page.put_number(u64::from(c.0));
        }
        Verdict::Ended => page.put(b"ended"),
        Verdict::Prompt(c, stamp) => {
            page.put(b"prompt ");
            page.put_number(u64::from(c.0));
            page.put(b" ");
            page.put_number(stamp.0);
        }
        Verdict::Lawful => page.put(b"lawful"),
    }
}

/// What a verdict means.
fn fault_of(verdict: Verdict) -> &'static str {
    match verdict {
        Verdict::Order(_) => "the stamps of what this party did don't rise",
        Verdict::Start(_) => {
            "this controller's journal doesn't begin with the lines of its start, or has such a line elsewhere"
        }
        Verdict::Entry(..) =>
            "this entry can't happen where it stands, or isn't what happens there",
        Verdict::Left => "the lines `left` aren't the messages that are left, in order",
        Verdict::Fuel(_) => "this controller took more turns than the fuel allows",
        Verdict::Ended => "the run hasn't ended as the text says",
        Verdict::Prompt(..) => {
            "the controller took this turn before it had fetched what it had sent itself"
        }
        Verdict::Lawful => "it is lawful",
    }
}

/// What a verdict means, and what to do.
pub(crate) fn meaning_of(verdict: Verdict) -> Meaning {
    let cure = match verdict {
        Verdict::Fuel(_) | Verdict::Ended => WITH_FUEL,
        _ => UNCHANGED,
    };
    Meaning {
        fault: fault_of(verdict),
        cure,
    }
}

/// A controller by its name, or the environment.
pub(crate) fn put_name_of(page: &mut Page, wiring: &Wiring, party: usize) {
    if party < usize::from(wiring.controller_count()) {
        put_controller(page, wiring, party);
    } else {
        page.put(b"environment");
    }
}

/// The word for a priority.
pub(crate) fn priority_word(prio: Priority) -> &'static [u8] {
    match prio.0 {
        0 => b"system",
        1 => b"panic",
        2 => b"high",
        3 => b"general",
        4 => b"low",
        5 => b"background",
        _ => b"that no message has",
    }
}

//! Why a line of injections is refused, and what would be right there.
use crate::line_forms::wrong_part;
use crate::line_meanings::line_meaning;
use crate::texts::{Kind, read};
use inject_reader::{InjectFault, LineFault, read_injections};
use room_kinds::{ReferenceKind, SlotId};
use room_run::Status;
use room_wiring::{ClassNames, SignalNames, Wiring};
use std::alloc::{AllocError, Global};
use view_journals::{incoming, is_end, place_count};
use view_pages::{Meaning, Named, Page, type_name};

/// The most names that are listed.
const MOST_LISTED: usize = 30;

/// The parts of a line: the path of a slot, the port with its place, and the signal.
#[derive(Clone, Copy)]
struct Parts<'a> {
    path: &'a [u8],
    port: &'a [u8],
    signal: &'a [u8],
}

fn is_blank(byte: u8) -> bool {
    byte == b' ' || byte == b'\t'
}

/// The fields of a line, of which blanks are the ends.
fn field(line: &[u8], number: usize) -> &[u8] {
    line.split(|byte| is_blank(*byte))
        .filter(|field| !field.is_empty())
        .nth(number)
        .unwrap_or(&[])
}

fn parts_of(line: &[u8]) -> Parts<'_> {
    let place = field(line, 0);
    let (path, port) = match place.iter().rposition(|byte| *byte == b'.') {
        Some(dot) => {
            let (path, rest) = place.split_at(dot);
            (path, rest.get(1..).unwrap_or(&[]))
        }
        None => (place, &[] as &[u8]),
    };
    let name = match port.iter().position(|byte| *byte == b'[') {
        Some(bracket) => port.get(..bracket).unwrap_or(port),
        None => port,
    };
    Parts {
        path,
        port: name,
        signal: field(line, 1),
    }
}

/// The bytes of a line of this number, from 1: the first, and the one behind the last.
fn span_of(text: &[u8], number: u32) -> (usize, usize) {
    let mut start = 0usize;
    let mut left = number;
    for line in text.split(|byte| *byte == b'\n') {
        if left <= 1 {
            return (start, start.saturating_add(line.len()));
        }
        left -= 1;
        start = start.saturating_add(line.len()).saturating_add(1);
    }
    (text.len(), text.len())
}

/// The slot of a path.
fn slot_of(wiring: &Wiring, path: &[u8]) -> Option<SlotId> {
    match std::str::from_utf8(path) {
        Ok(path) => wiring.find(path),
        Err(_) => None,
    }
}

/// Paths like this one: those of the slots whose path begins with its front up to the last `/`.
fn tell_paths(
    alloc: Global,
    page: &mut Page,
    wiring: &Wiring,
    path: &[u8],
) -> Result<(), AllocError> {
    let front = match path.iter().rposition(|byte| *byte == b'/') {
        Some(slash) => path.get(..slash).unwrap_or(&[]),
        None => &[],
    };
    page.put_line(b"paths of slots:");
    let mut told = 0usize;
    for number in 0..wiring.slot_count() {
        let Some(slot) = wiring.get_slot(SlotId(number as u16)) else {
            continue;
        };
        if told == MOST_LISTED {
            break;
        }
        let here = slot.path.to_vec(alloc)?;
        if here.as_slice().starts_with(front) && slot.kind != ReferenceKind::Imported {
            page.put(b"    ");
            page.put_line(here.as_slice());
            told = told.saturating_add(1);
        }
    }
    Ok(())
}

/// A signal with the types of its numbers.
fn tell_signal(page: &mut Page, signal: &SignalNames) {
    page.put(b"    ");
    page.put(signal.name.as_bytes());
    for number in signal.numbers.as_slice() {
        page.put(b" ");
        page.put(type_name(*number));
    }
    page.end_line();
}

/// The end ports of a class, with their places at a slot.
fn tell_ports(page: &mut Page, wiring: &Wiring, slot: SlotId, class: &ClassNames) {
    page.put_line(b"end ports, with the number of their places:");
    for (number, port) in class.ports.as_slice().iter().enumerate() {
        if is_end(port) {
            page.put(b"    ");
            page.put(port.name.as_bytes());
            page.put(b" ");
            page.put_number(u64::from(place_count(wiring, slot, number)));
            page.end_line();
        }
    }
    if !class.ports.as_slice().iter().any(is_end) {
        page.put_line(b"    none");
    }
}

/// The signals that come in at the port of a class that has this name.
fn tell_signals(page: &mut Page, class: &ClassNames, name: &[u8]) {
    page.put_line(b"messages that come in there, with the types of their numbers:");
    for port in class.ports.as_slice() {
        if port.name.is(name) {
            for signal in incoming(port) {
                tell_signal(page, signal);
            }
        }
    }
}

/// The slot of a path, and its class.
fn slot_and_class<'w>(wiring: &'w Wiring, path: &[u8]) -> Option<(SlotId, &'w ClassNames)> {
    let slot = slot_of(wiring, path)?;
    let class = wiring.class_of(slot)?;
    Some((slot, class))
}

/// What would be right in place of the part that a fault is about.
fn tell_right(
    alloc: Global,
    page: &mut Page,
    wiring: &Wiring,
    line: &[u8],
    fault: LineFault,
) -> Result<(), AllocError> {
    let parts = parts_of(line);
    match (fault, slot_and_class(wiring, parts.path)) {
        (LineFault::NoSlot, _) => {
            page.end_line();
            return tell_paths(alloc, page, wiring, parts.path);
        }
        (LineFault::NoEnd, Some((slot, class))) => {
            page.end_line();
            tell_ports(page, wiring, slot, class);
        }
        (LineFault::NoSignal | LineFault::OtherNumbers, Some((_, class))) => {
            page.end_line();
            tell_signals(page, class, parts.port);
        }
        (LineFault::NoEnd | LineFault::NoSignal | LineFault::OtherNumbers, None)
        | (LineFault::NoForm | LineFault::TooManyLines | LineFault::NoTime, _) => {}
    }
    Ok(())
}

/// The bytes of the part of a line that a fault is about, counted in the line.
fn marked(line: &[u8], fault: LineFault) -> (usize, usize) {
    let lead = line.iter().position(|byte| !is_blank(*byte)).unwrap_or(0);
    let parts = parts_of(line);
    let path = lead.saturating_add(parts.path.len());
    let place = lead.saturating_add(field(line, 0).len());
    let behind = line.get(place..).unwrap_or(&[]);
    let gap = behind.iter().position(|byte| !is_blank(*byte)).unwrap_or(0);
    let signal = place.saturating_add(gap);
    match fault {
        LineFault::NoSlot => (lead, path),
        LineFault::NoEnd => (path.saturating_add(1), place),
        LineFault::NoSignal => (signal, signal.saturating_add(parts.signal.len())),
        LineFault::OtherNumbers => (signal, line.len()),
        LineFault::NoForm | LineFault::TooManyLines | LineFault::NoTime => (0, line.len()),
    }
}

/// Tells why injections are refused.
pub(crate) fn tell_lines(
    alloc: Global,
    page: &mut Page,
    named: Named<'_>,
    wiring: &Wiring,
    fault: InjectFault,
) -> Result<(), AllocError> {
    let InjectFault::Code { line, fault } = fault else {
        return Err(AllocError);
    };
    page.put(named.name.as_bytes());
    page.put(b" is refused: line ");
    page.put_number(u64::from(line));
    page.put(b", code ");
    page.put_number(u64::from(fault.code()));
    page.end_line();
    page.put_meaning(line_meaning(fault));
    page.end_line();
    let (start, end) = span_of(named.text, line);
    let bytes = named.text.get(start..end).unwrap_or(&[]);
    if fault == LineFault::NoForm {
        return tell_form(alloc, page, named, start, bytes);
    }
    let (from, to) = marked(bytes, fault);
    page.put_part(named, start.saturating_add(from), start.saturating_add(to));
    tell_right(alloc, page, wiring, bytes, fault)
}

/// Which part of a line is not of the form of lines. It begins at a byte of the text.
fn tell_form(
    alloc: Global,
    page: &mut Page,
    named: Named<'_>,
    start: usize,
    line: &[u8],
) -> Result<(), AllocError> {
    let line = line.strip_suffix(b"\r").unwrap_or(line);
    let Some(part) = wrong_part(alloc, line)? else {
        page.put_part(named, start, start.saturating_add(line.len()));
        return Ok(());
    };
    page.put_part(
        named,
        start.saturating_add(part.start),
        start.saturating_add(part.end),
    );
    page.put(b"    ");
    page.put_line(part.why.as_bytes());
    Ok(())
}

/// The text of injections that aren't refused over a wiring, or what is told of it and the status.
pub(crate) fn injections_of(
    rt: HostRuntime,
    page: &mut Page,
    wiring: &Wiring,
    name: &str,
) -> Result<Result<Vec<u8>, Status>, AllocError> {
    let lines = match read(rt, page, name, Kind::Injections)? {
        Ok(lines) => lines,
        Err(status) => return Ok(Err(status)),
    };
    let named = Named {
        name,
        text: lines.as_slice(),
    };
    match read_injections(rt.alloc(), named.text, wiring) {
        Ok(_) => Ok(Ok(lines)),
        Err(fault) => {
            tell_lines(rt.alloc(), page, named, wiring, fault)?;
            Ok(Err(Status::InjectionsRefused))
        }
    }
}

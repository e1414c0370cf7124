//! Numbers of injections that lie outside their types.
use crate::finding::{Finding, Kind};
use crate::listing::signed;
use inject_reader::inject_lines::{Form, Wanted, read_form};
use room_kinds::NumberType;
use room_wiring::wiring_names::Names;
use room_wiring::{SignalNames, Wiring};
use std::alloc::{AllocError, Global};
use view_pages::type_name;

fn is_blank(byte: u8) -> bool {
    byte == b' ' || byte == b'\t'
}

/// Where the field of a number, from 0, stands in a line: its first byte, and the one behind its last.
fn field_at(line: &[u8], number: usize) -> (usize, usize) {
    let mut before = 0usize;
    let mut start = 0usize;
    for field in line.split(|byte| is_blank(*byte)) {
        let end = start.saturating_add(field.len());
        if !field.is_empty() {
            if before == number {
                return (start, end);
            }
            before = before.saturating_add(1);
        }
        start = end.saturating_add(1);
    }
    (0, line.len())
}

/// The signal that a line names.
fn signal_of<'a>(
    wiring: &'a Wiring,
    names: &Names<'_>,
    wanted: &Wanted<'_>,
) -> Option<&'a SignalNames> {
    let slot = names.slot(wanted.target.path);
    let number = names.port(slot, wanted.target.port);
    let signal = usize::from(names.signal(slot, number, wanted.signal));
    let port = wiring.port_of(slot, number)?;
    let incoming = port.incoming.as_slice();
    match incoming.get(signal) {
        Some(signal) => Some(signal),
        None => port
            .outgoing
            .as_slice()
            .get(signal.saturating_sub(incoming.len())),
    }
}

/// What is told of a number that another one comes in for.
fn told(alloc: Global, kind: NumberType, number: i64) -> Result<Vec<u8>, AllocError> {
    let mut told = signed(alloc, number)?;
    told.extend_from_slice(b" comes in as ")?;
    told.extend_from_slice(signed(alloc, kind.reduce(number))?.as_slice())?;
    told.extend_from_slice(b", since it is of type ")?;
    told.extend_from_slice(type_name(kind))?;
    Ok(told)
}

/// Adds the numbers of a line that lie outside their types; the line begins at a byte of the text.
fn add_numbers(
    alloc: Global,
    line: &[u8],
    start: usize,
    kinds: &[NumberType],
    numbers: &[i64],
    findings: &mut Vec<Finding>,
) -> Result<(), AllocError> {
    for (place, (kind, number)) in kinds.iter().zip(numbers.iter()).enumerate() {
        if kind.reduce(*number) != *number {
            let detail = told(alloc, *kind, *number)?;
            let (from, to) = field_at(line, place.saturating_add(2));
            findings.push(Finding {
                kind: Kind::WideNumber,
                start: start.saturating_add(from),
                end: start.saturating_add(to),
                detail,
            })?;
        }
    }
    Ok(())
}

/// Adds the numbers of a line that lie outside their types, if it is an injection.
fn add_line(
    alloc: Global,
    wiring: &Wiring,
    names: &Names<'_>,
    line: &[u8],
    start: usize,
    findings: &mut Vec<Finding>,
) -> Result<(), AllocError> {
    let Some(Form::Message(wanted)) = read_form(alloc, line)? else {
        return Ok(());
    };
    let Some(signal) = signal_of(wiring, names, &wanted) else {
        return Ok(());
    };
    let kinds = signal.numbers.as_slice();
    let numbers = wanted.load.numbers.as_slice();
    add_numbers(alloc, line, start, kinds, numbers, findings)
}

/// Adds the numbers of injections that lie outside their types.
fn add_lines(
    alloc: Global,
    wiring: &Wiring,
    names: &Names<'_>,
    text: &[u8],
    findings: &mut Vec<Finding>,
) -> Result<(), AllocError> {
    let mut start = 0usize;
    for whole in text.split(|byte| *byte == b'\n') {
        let line = whole.strip_suffix(b"\r").unwrap_or(whole);
        if !line.starts_with(b"#") {
            add_line(alloc, wiring, names, line, start, findings)?;
        }
        start = start.saturating_add(whole.len()).saturating_add(1);
    }
    Ok(())
}

/// The numbers of the injections of an accepted text that lie outside their types.
pub(crate) fn wide_numbers(
    alloc: Global,
    wiring: &Wiring,
    text: &[u8],
) -> Result<Vec<Finding>, AllocError> {
    let names = Names::of(alloc, wiring)?;
    let mut findings = Vec::new(alloc);
    add_lines(alloc, wiring, &names, text, &mut findings)?;
    Ok(findings)
}

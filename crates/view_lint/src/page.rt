//! The page of what lint tells.
use crate::finding::{Finding, Kind};
use crate::injected::wide_numbers;
use crate::model::{Class, LintedModel};
use crate::rules::{
    add_dead_branches, add_lost_deferral, add_unentered_states, add_unfilled_references,
    add_unjoined_indexes, add_unjoined_sends, add_untaken_messages,
};
use room_lexer::{LexFault, Token, lex};
use room_wiring::Wiring;
use std::alloc::{AllocError, Global};
use view_charts::{Source, Ways};
use view_pages::{Named, Page};

/// Where a finding stands in the order in which findings are told, and its number.
#[derive(Clone, Copy, Drop, PartialEq, Eq, PartialOrd, Ord)]
struct Place {
    kind: Kind,
    start: usize,
    end: usize,
    number: usize,
}

impl Place {
    /// Whether two findings are of one kind and stand at one place, which is told once.
    fn is_same(self, other: Place) -> bool {
        self.kind == other.kind && self.start == other.start && self.end == other.end
    }
}

/// Adds what is found in the chart of a class by the ways through it.
fn add_by_ways(
    source: Source<'_>,
    class: &Class<'_>,
    findings: &mut Vec<Finding>,
) -> Result<(), AllocError> {
    let ways = Ways::of(source, &class.text.chart)?;
    add_unentered_states(source, class, &ways, findings)?;
    add_dead_branches(source, class.text.chart.arrows(), &ways, findings)
}

/// Adds what is found in a class.
fn add_class(
    model: &LintedModel<'_>,
    class: &Class<'_>,
    findings: &mut Vec<Finding>,
) -> Result<(), AllocError> {
    add_by_ways(model.source, class, findings)?;
    add_unjoined_sends(model, class, findings)?;
    add_untaken_messages(model, class, findings)?;
    add_lost_deferral(model.source.alloc, class, findings)?;
    add_unfilled_references(model.source, class, findings)
}

/// Adds what is found in a model, class by class and then over all.
fn add_model(model: &LintedModel<'_>, findings: &mut Vec<Finding>) -> Result<(), AllocError> {
    for class in model.classes() {
        add_class(model, class, findings)?;
    }
    add_unjoined_indexes(model, findings)
}

/// What is found in a model.
fn findings_of(source: Source<'_>, wiring: &Wiring) -> Result<Vec<Finding>, AllocError> {
    let mut findings = Vec::new(source.alloc);
    let model = LintedModel::of(source, wiring)?;
    add_model(&model, &mut findings)?;
    Ok(findings)
}

/// The places of findings, sorted into the order in which they are told.
fn sorted_places(alloc: Global, findings: &[Finding]) -> Result<Vec<Place>, AllocError> {
    let mut places = Vec::new(alloc);
    for (number, finding) in findings.iter().enumerate() {
        places.push(Place {
            kind: finding.kind,
            start: finding.start,
            end: finding.end,
            number,
        })?;
    }
    places.sort()?;
    Ok(places)
}

/// Whether a place is the same as one before it, if there is one.
fn is_told(before: Option<&Place>, place: Place) -> bool {
    match before {
        Some(before) => before.is_same(place),
        None => false,
    }
}

/// The places of findings, in the order in which they are told, each once.
fn in_order(alloc: Global, findings: &[Finding]) -> Result<Vec<Place>, AllocError> {
    let places = sorted_places(alloc, findings)?;
    let mut told: Vec<Place> = Vec::new(alloc);
    for place in places.as_slice() {
        if !is_told(told.last(), *place) {
            told.push(*place)?;
        }
    }
    Ok(told)
}

/// What findings of a kind are, what is meant, and the cure.
fn tell_kind(page: &mut Page, kind: Kind) {
    let meaning = kind.meaning();
    page.put_line(kind.title().as_bytes());
    page.put_meaning(meaning);
    page.end_line();
}

/// Begins to tell findings of a kind, behind those of the kind before.
fn change_kind(page: &mut Page, before: Option<Kind>, kind: Kind) {
    if before == Some(kind) {
        return;
    }
    if before.is_some() {
        page.end_line();
    }
    tell_kind(page, kind);
}

/// Tells of a finding where it stands, and what it is in particular.
fn tell_finding(page: &mut Page, named: Named<'_>, findings: &[Finding], place: Place) {
    page.put_part(named, place.start, place.end);
    if let Some(finding) = findings.get(place.number) {
        page.put(b"    ");
        page.put_line(finding.detail.as_slice());
    }
}

/// Tells the findings at places in a text, kind by kind.
fn tell_places(page: &mut Page, named: Named<'_>, findings: &[Finding], places: &[Place]) {
    let mut told: Option<Kind> = None;
    for place in places {
        change_kind(page, told, place.kind);
        told = Some(place.kind);
        tell_finding(page, named, findings, *place);
    }
    if told.is_some() {
        page.end_line();
    }
}

/// Tells findings in a text, kind by kind; says how many there are.
fn tell_all(
    alloc: Global,
    page: &mut Page,
    named: Named<'_>,
    findings: &[Finding],
) -> Result<usize, AllocError> {
    let places = in_order(alloc, findings)?;
    tell_places(page, named, findings, places.as_slice());
    Ok(places.len())
}

/// How many findings there are.
fn tell_count(page: &mut Page, count: usize) {
    match count {
        0 => page.put_line(b"nothing found"),
        1 => page.put_line(b"1 finding"),
        _ => {
            page.put_number(count as u64);
            page.put_line(b" findings");
        }
    }
}

/// The tokens of a text; none where it has none.
fn tokens_in(alloc: Global, text: &[u8]) -> Result<Vec<Token>, AllocError> {
    match lex(alloc, text) {
        Ok(tokens) => Ok(tokens),
        Err(LexFault::Memory) => Err(AllocError),
        Err(_) => Ok(Vec::new(alloc)),
    }
}

/// Tells what the author of a model hardly meant; says how many findings there are.
fn tell_model(
    alloc: Global,
    page: &mut Page,
    model: Named<'_>,
    wiring: &Wiring,
) -> Result<usize, AllocError> {
    let tokens = tokens_in(alloc, model.text)?;
    let source = Source {
        alloc,
        text: model.text,
        tokens: tokens.as_slice(),
    };
    let findings = findings_of(source, wiring)?;
    tell_all(alloc, page, model, findings.as_slice())
}

/// Tells which numbers of injections lie outside their types; says how many there are.
fn tell_numbers(
    alloc: Global,
    page: &mut Page,
    wiring: &Wiring,
    lines: Named<'_>,
) -> Result<usize, AllocError> {
    let findings = wide_numbers(alloc, wiring, lines.text)?;
    tell_all(alloc, page, lines, findings.as_slice())
}

/// Tells what the author of an accepted model with this wiring hardly meant, and where; and, if there are injections,
/// which of their numbers lie outside their types. The model's text is one that has tokens, and the injections are
/// accepted over the wiring; of others nothing is told but by chance.
pub fn tell_findings(
    alloc: Global,
    page: &mut Page,
    model: Named<'_>,
    wiring: &Wiring,
    injections: Option<Named<'_>>,
) -> Result<(), AllocError> {
    let mut count = tell_model(alloc, page, model, wiring)?;
    if let Some(lines) = injections {
        let more = tell_numbers(alloc, page, wiring, lines)?;
        count = count.saturating_add(more);
    }
    tell_count(page, count);
    Ok(())
}

//! Why a text is refused, and where.
ghost use Rattle.std.specs.Prelude.{◌≤◌, length};

use crate::accepted::Accepted;
use crate::judge::FaultOf;
use chart_reader::ChartFault;
use room_ast::{Model, Scope};
use room_inherit::{InheritFault, flatten};
use room_lexer::{LexFault, Token, lex};
use room_outside::MAX_TEXT;
use room_parser::{ParseFault, parse};
use room_run::{ModelFault, read_plant};
use std::alloc::{AllocError, Global};
use structure_check::{CheckFault, Checked, FlatRule, check};
use view_causes::{
    Cause, FaultyChart, Unread, base_cause, base_meaning, chart_causes, chart_meaning, could_stand,
    find_causes, named_by, rule_cause, rule_meaning, system_causes, wiring_meaning, word_meaning,
};
use view_charts::{Item, Source, head_of};
use view_pages::{Meaning, Named, Page};

pub(crate) fn tell_refused(page: &mut Page, named: Named<'_>, by: &[u8]) {
    page.put(named.name.as_bytes());
    page.put(b" is refused: ");
    page.put_line(by);
}

/// A fault with a number.
fn tell_numbered(page: &mut Page, named: Named<'_>, what: &[u8], number: u8, meaning: Meaning) {
    page.put(named.name.as_bytes());
    page.put(b" is refused: ");
    page.put(what);
    page.put_number(u64::from(number));
    page.end_line();
    page.put_meaning(meaning);
}

/// What a byte is with which no token begins, and the cure.
fn bad_byte(bytes: &[u8]) -> (&'static [u8], &'static [u8]) {
    match bytes {
        [0xEF, 0xBB, 0xBF, ..] => (
            b"this is a byte order mark, three bytes that some editors write before a text and don't show",
            b"cure: save the text without it, as UTF-8 without BOM",
        ),
        [0xFF, 0xFE, ..] | [0xFE, 0xFF, ..] => (
            b"this is the byte order mark of a text in UTF-16",
            b"cure: save the text as UTF-8 without BOM",
        ),
        [first, ..] if *first > 127 => (
            b"letters beyond ASCII stand in comments, documentation, strings and blocks alone",
            b"cure: write it in letters of ASCII, or in a comment",
        ),
        _ => (
            b"no token begins with this byte",
            b"cure: take it away; a comment begins with // or /*",
        ),
    }
}

/// A text that can't be cut into tokens.
fn tell_bytes(page: &mut Page, named: Named<'_>, fault: LexFault) -> Result<(), AllocError> {
    let (at, what, cure): (usize, &[u8], &[u8]) = match fault {
        LexFault::BadByte(at) => {
            let (what, cure) = bad_byte(named.text.get(at..).unwrap_or(&[]));
            (at, what, cure)
        }
        LexFault::OpenString(at) => (
            at,
            b"what is opened here isn't closed: a string ends on its line, a block with ''', documentation with ]",
            b"cure: close it; a code of several lines has a string for each line",
        ),
        LexFault::OpenComment(at) => (
            at,
            b"this comment isn't closed",
            b"cure: write */ at its end",
        ),
        LexFault::NumberTooLarge(at) => (
            at,
            b"this number is above 9223372036854775807",
            b"cure: a smaller number",
        ),
        LexFault::Memory => return Err(AllocError),
    };
    tell_refused(page, named, b"a byte");
    page.put_line(what);
    page.put_line(cure);
    page.end_line();
    page.put_part(named, at, at.saturating_add(1));
    Ok(())
}

/// What stands for a name among what could stand in a place.
const NAME: &[u8] = b"name";

/// What could have stood in a place.
fn tell_could_stand(page: &mut Page, could_stand: &[&'static [u8]]) {
    page.put(b"here could stand:");
    for token in could_stand {
        page.put(b" ");
        page.put(token);
    }
    page.end_line();
}

/// That a word of the language stands where a name could, if it is so.
fn tell_misread(page: &mut Page, named: Named<'_>, token: &Token, could_stand: &[&'static [u8]]) {
    let bytes = named.text.get(token.start..token.end).unwrap_or(&[]);
    let is_wanted = could_stand.iter().any(|other| *other == NAME);
    if let Some(what) = word_meaning(token, bytes)
        && is_wanted
    {
        page.put(b"    `");
        page.put(bytes);
        page.put(b"` ");
        page.put_line(what);
    }
}

/// Where a text stops being a model, and what could have stood there.
fn tell_unread(page: &mut Page, named: Named<'_>, tokens: &[Token], unread: &Unread) {
    page.put_line(b"no model goes on with what stands here");
    tell_could_stand(page, unread.could_stand.as_slice());
    page.end_line();
    match tokens.get(unread.token) {
        Some(token) => {
            page.put_part(named, token.start, token.end);
            tell_misread(page, named, token, unread.could_stand.as_slice());
        }
        None => {
            page.put_line(b"at the end of the text, behind");
            match tokens.last() {
                Some(last) => page.put_part(named, last.start, last.end),
                None => page.put_part(named, 0, 0),
            }
        }
    }
}

/// A text whose tokens no model has, which is seen in this line.
fn tell_syntax(
    alloc: Global,
    page: &mut Page,
    named: Named<'_>,
    tokens: &[Token],
    line: u32,
) -> Result<(), AllocError> {
    tell_refused(page, named, b"syntax");
    match could_stand(alloc, named.text, tokens)? {
        Some(unread) => tell_unread(page, named, tokens, &unread),
        None => {
            page.put(b"no model goes on with what stands in line ");
            page.put_number(u64::from(line));
            page.end_line();
        }
    }
    Ok(())
}

fn tell_items(page: &mut Page, named: Named<'_>, tokens: &[Token], items: &[Item]) {
    for item in items {
        let (start, end) = head_of(tokens, *item);
        page.put_part(named, start, end);
    }
}

/// The declarations that causes name, if they name any.
fn tell_named(page: &mut Page, named: Named<'_>, tokens: &[Token], declared: &[Item]) {
    if declared.is_empty() {
        return;
    }
    page.end_line();
    page.put_line(b"what it names:");
    tell_items(page, named, tokens, declared);
}

/// A place at which a cause stands, and what is wrong there.
fn tell_cause(page: &mut Page, named: Named<'_>, cause: &Cause) {
    page.put_part(named, cause.start, cause.end);
    page.put(b"    ");
    page.put_line(cause.what.as_slice());
}

/// Adds declarations that aren't among those already.
fn add_declared(all: &mut Vec<Item>, more: &[Item]) -> Result<(), AllocError> {
    for item in more {
        if !all.contains(item) {
            all.push(*item)?;
        }
    }
    Ok(())
}

/// What actions of an actor class can name.
fn scope_in<'a>(checked: &'a Checked<'_>, class: &[u8]) -> Option<&'a Scope> {
    let place = checked
        .classes
        .iter()
        .position(|other| other.name.is(class))?;
    checked.scopes.get(place)
}

/// What is wrong with the chart of a class that has a fault, in a model that keeps all rules.
fn seen_within<'f>(
    source: Source<'_>,
    checked: &'f Checked<'_>,
    class: &'f [u8],
    fault: ChartFault,
) -> Result<Vec<Cause>, AllocError> {
    let scope = scope_in(checked, class);
    let faulty = FaultyChart {
        class,
        fault,
        scope,
    };
    chart_causes(source, faulty)
}

/// What is wrong with the chart of a class that has a fault, as far as the text shows it. The tree is that of the text.
fn seen_in_chart(
    source: Source<'_>,
    tree: &Model,
    class: &[u8],
    fault: ChartFault,
) -> Result<Vec<Cause>, AllocError> {
    let checked = match check(source.alloc, tree) {
        Ok(checked) => checked,
        Err(CheckFault::Memory) => return Err(AllocError),
        Err(CheckFault::Rule(_)) => return Ok(Vec::new(source.alloc)),
    };
    seen_within(source, &checked, class, fault)
}

/// What is wrong where a model is refused, as far as the text shows it by itself.
fn seen(
    source: Source<'_>,
    fault: &ModelFault,
    tree: Option<&Model>,
) -> Result<Vec<Cause>, AllocError> {
    match fault {
        ModelFault::Rule(FlatRule::OneSystem) => system_causes(source),
        ModelFault::Chart { class, fault } => match tree {
            Some(tree) => seen_in_chart(source, tree, class.as_bytes(), *fault),
            None => Ok(Vec::new(source.alloc)),
        },
        ModelFault::Byte(_)
        | ModelFault::Syntax { .. }
        | ModelFault::Bases(_)
        | ModelFault::Rule(_)
        | ModelFault::Wiring(_)
        | ModelFault::Memory => Ok(Vec::new(source.alloc)),
    }
}

/// Where causes stand, what is wrong there, and what they name.
fn tell_seen(
    page: &mut Page,
    named: Named<'_>,
    source: Source<'_>,
    causes: &[Cause],
) -> Result<(), AllocError> {
    let mut declared = Vec::new(source.alloc);
    for cause in causes {
        tell_cause(page, named, cause);
        add_declared(&mut declared, cause.declared.as_slice())?;
    }
    tell_named(page, named, source.tokens, declared.as_slice());
    Ok(())
}

/// What is wrong with a part that was found to be a cause, as far as the text shows it.
fn seen_at(
    source: Source<'_>,
    fault: &ModelFault,
    item: Item,
) -> Result<Option<Cause>, AllocError> {
    match fault {
        ModelFault::Bases(rule) => base_cause(source, *rule, item),
        ModelFault::Rule(rule) => rule_cause(source, *rule, item),
        ModelFault::Byte(_)
        | ModelFault::Syntax { .. }
        | ModelFault::Wiring(_)
        | ModelFault::Chart { .. }
        | ModelFault::Memory => Ok(None),
    }
}

/// Where the causes stand that were found, and what they name.
fn tell_found(
    page: &mut Page,
    named: Named<'_>,
    source: Source<'_>,
    fault: &ModelFault,
    found: &[Item],
) -> Result<(), AllocError> {
    if found.is_empty() {
        page.put_line(b"no single part of the text is its cause");
        return Ok(());
    }
    for item in found {
        match seen_at(source, fault, *item)? {
            Some(cause) => tell_cause(page, named, &cause),
            None => tell_items(page, named, source.tokens, &[*item]),
        }
    }
    let declared = named_by(source.alloc, named.text, source.tokens, found)?;
    tell_named(page, named, source.tokens, declared.as_slice());
    Ok(())
}

/// What is told of a fault first: which it is, what it means, and its cure.
fn tell_head(
    alloc: Global,
    page: &mut Page,
    named: Named<'_>,
    fault: &ModelFault,
) -> Result<(), AllocError> {
    match fault {
        ModelFault::Bases(rule) => {
            tell_numbered(page, named, b"rule ", rule.number(), base_meaning(*rule));
        }
        ModelFault::Rule(rule) => {
            tell_numbered(page, named, b"rule ", rule.number(), rule_meaning(*rule));
        }
        ModelFault::Wiring(fault) => {
            tell_numbered(
                page,
                named,
                b"wiring ",
                fault.number(),
                wiring_meaning(*fault),
            );
        }
        ModelFault::Chart { class, fault } => {
            let mut what = Vec::new(alloc);
            what.extend_from_slice(b"chart ")?;
            what.extend_from_slice(class.as_bytes())?;
            what.push(b' ')?;
            tell_numbered(
                page,
                named,
                what.as_slice(),
                fault.number(),
                chart_meaning(*fault),
            );
        }
        ModelFault::Byte(_) | ModelFault::Syntax { .. } | ModelFault::Memory => {}
    }
    Ok(())
}

/// The actor class that a fault is about, if it is about one.
fn class_of(fault: &ModelFault) -> Option<&[u8]> {
    match fault {
        ModelFault::Chart { class, .. } => Some(class.as_bytes()),
        _ => None,
    }
}

/// Why a model is refused that breaks a rule, or whose wiring or chart has a fault. What the text shows by itself is told
/// first; where it shows nothing, the parts whose absence mends the fault are.
fn tell_fault(
    alloc: Global,
    page: &mut Page,
    named: Named<'_>,
    tokens: &[Token],
    fault: &ModelFault,
    tree: Option<&Model>,
) -> Result<(), AllocError> {
    let source = Source {
        alloc,
        text: named.text,
        tokens,
    };
    tell_head(alloc, page, named, fault)?;
    page.end_line();
    let causes = seen(source, fault, tree)?;
    if !causes.is_empty() {
        return tell_seen(page, named, source, causes.as_slice());
    }
    let judge = FaultOf { alloc, fault };
    let found = find_causes(alloc, named.text, tokens, class_of(fault), &judge)?;
    tell_found(page, named, source, fault, found.as_slice())
}

/// The tree of a text that has these tokens, as it is written; none where no model has them, which is told.
fn tell_written(
    alloc: Global,
    page: &mut Page,
    named: Named<'_>,
    tokens: &[Token],
) -> Result<Option<Model>, AllocError> {
    match parse(alloc, named.text, tokens) {
        Ok(written) => Ok(Some(written)),
        Err(ParseFault::Memory) => Err(AllocError),
        Err(ParseFault::Syntax { line }) => {
            tell_syntax(alloc, page, named, tokens, line)?;
            Ok(None)
        }
    }
}

/// The tree in which each actor class of a text has all that it has from its bases; none where a base breaks a rule,
/// which is told.
fn tell_tree(
    alloc: Global,
    page: &mut Page,
    named: Named<'_>,
    tokens: &[Token],
    written: Model,
) -> Result<Option<Model>, AllocError> {
    match flatten(alloc, written) {
        Ok(tree) => Ok(Some(tree)),
        Err(InheritFault::Memory) => Err(AllocError),
        Err(InheritFault::Rule(rule)) => {
            let fault = ModelFault::Bases(rule);
            tell_fault(alloc, page, named, tokens, &fault, None)?;
            Ok(None)
        }
    }
}

/// What runs of a text with this tree; none where it breaks a rule or has a fault, which is told.
fn tell_plant(
    alloc: Global,
    page: &mut Page,
    named: Named<'_>,
    tokens: &[Token],
    tree: Model,
) -> Result<Option<Accepted>, AllocError>
    requires { length named.text.now ≤ 1048576 }
{
    match read_plant(alloc, named.text) {
        Ok(plant) => Ok(Some(Accepted { tree, plant })),
        Err(ModelFault::Memory) => Err(AllocError),
        Err(fault) => {
            tell_fault(alloc, page, named, tokens, &fault, Some(&tree))?;
            Ok(None)
        }
    }
}

/// Tells why the text of a model is refused; gives what was read of it where it isn't.
pub(crate) fn tell_model(
    alloc: Global,
    page: &mut Page,
    named: Named<'_>,
) -> Result<Option<Accepted>, AllocError> {
    if named.text.len() as u64 > MAX_TEXT {
        tell_refused(page, named, b"too long");
        return Ok(None);
    }
    let tokens = match lex(alloc, named.text) {
        Ok(tokens) => tokens,
        Err(fault) => {
            tell_bytes(page, named, fault)?;
            return Ok(None);
        }
    };
    let tokens = tokens.as_slice();
    let Some(written) = tell_written(alloc, page, named, tokens)? else {
        return Ok(None);
    };
    let Some(tree) = tell_tree(alloc, page, named, tokens, written)? else {
        return Ok(None);
    };
    tell_plant(alloc, page, named, tokens, tree)
}

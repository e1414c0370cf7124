//! Which part of a line of injections is not of the form of lines.
use std::alloc::{AllocError, Global};
use text_reading::{are_digits, cut, number, value};

/// A part of a line that is not of the form: its first byte in the line, the one behind its last, and why.
#[derive(Clone, Copy)]
pub(crate) struct Misformed {
    pub start: usize,
    pub end: usize,
    pub why: &'static str,
}

/// A field of a line: its bytes, and where it begins.
#[derive(Clone, Copy)]
struct Field<'a> {
    bytes: &'a [u8],
    start: usize,
}

/// The most by which the time moves on in a line.
const MOST_TIME: u64 = 2_147_483_647;

const PRIORITIES: [&[u8]; 5] = [b"panic", b"high", b"general", b"low", b"background"];

fn is_blank(byte: u8) -> bool {
    byte == b' ' || byte == b'\t'
}

/// Whether a text is a letter or `_`, and then letters, digits and `_`.
fn is_ident(text: &[u8]) -> bool {
    let is_whole = text
        .iter()
        .all(|byte| byte.is_ascii_alphanumeric() || *byte == b'_');
    match text {
        [first, ..] => is_whole && !first.is_ascii_digit(),
        [] => false,
    }
}

/// Whether a text is a name, perhaps with `:` and an index.
fn is_segment(text: &[u8]) -> bool {
    let (name, index) = cut(text, b':');
    match index {
        Some(digits) => is_ident(name) && are_digits(digits),
        None => is_ident(name),
    }
}

/// Whether a text is made of segments that `/` joins.
fn is_path(text: &[u8]) -> bool {
    text.split(|byte| *byte == b'/').all(is_segment)
}

fn is_priority(word: &[u8]) -> bool {
    PRIORITIES.iter().any(|known| *known == word)
}

/// The fields of a line, between which blanks stand.
fn fields_of(alloc: Global, line: &[u8]) -> Result<Vec<Field<'_>>, AllocError> {
    let mut fields = Vec::new(alloc);
    let mut start = 0usize;
    for bytes in line.split(|byte| is_blank(*byte)) {
        if !bytes.is_empty() {
            fields.push(Field { bytes, start })?;
        }
        start = start.saturating_add(bytes.len()).saturating_add(1);
    }
    Ok(fields)
}

impl<'a> Field<'a> {
    fn end(&self) -> usize {
        self.start.saturating_add(self.bytes.len())
    }

    /// That this field is not of the form.
    fn is_wrong(&self, why: &'static str) -> Option<Misformed> {
        Some(Misformed {
            start: self.start,
            end: self.end(),
            why,
        })
    }

    /// That the field is not of the form from a byte of it on, up to another one.
    fn part_is_wrong(&self, from: usize, to: usize, why: &'static str) -> Option<Misformed> {
        Some(Misformed {
            start: self.start.saturating_add(from),
            end: self.start.saturating_add(to),
            why,
        })
    }
}

/// What is wrong with the place in brackets behind a port.
fn wrong_place(field: Field<'_>, before: usize, bracket: &[u8]) -> Option<Misformed> {
    let (digits, behind) = cut(bracket, b']');
    let end = field.bytes.len();
    match behind {
        Some([]) if are_digits(digits) => None,
        Some([]) => field.part_is_wrong(
            before,
            end,
            "a place is a number without a sign, as `[0]`",
        ),
        Some(_) => field.part_is_wrong(before, end, "nothing stands behind the bracket of a place"),
        None => field.part_is_wrong(before, end, "the bracket of this place isn't closed"),
    }
}

/// What is wrong with the target of a line: `PATH.PORT[PLACE]`.
fn wrong_target(field: Field<'_>) -> Option<Misformed> {
    if let [0xEF, 0xBB, 0xBF, ..] = field.bytes {
        return field.part_is_wrong(
            0,
            3,
            "this is a byte order mark, three bytes that some editors write before a text and don't show",
        );
    }
    let (path, behind) = cut(field.bytes, b'.');
    let Some(rest) = behind else {
        return field.is_wrong("a line begins with PATH.PORT, and here is no dot with a port");
    };
    if !is_path(path) {
        return field.part_is_wrong(
            0,
            path.len(),
            "this is no path: names joined by `/`, each with `:` and an index where its reference has a number",
        );
    }
    let (port, bracket) = cut(rest, b'[');
    let before = path.len().saturating_add(1);
    let end = before.saturating_add(port.len());
    if !is_ident(port) {
        return field.part_is_wrong(
            before,
            end,
            "this is no name of a port: letters, digits and `_`; one dot stands in PATH.PORT",
        );
    }
    match bracket {
        Some(bracket) => wrong_place(field, end, bracket),
        None => None,
    }
}

/// What is wrong with the signal of a line.
fn wrong_signal(field: Field<'_>) -> Option<Misformed> {
    if is_ident(field.bytes) {
        return None;
    }
    if field.bytes.contains(&b'(') {
        return field.is_wrong(
            "numbers stand behind the signal, each behind a blank, and not in parentheses",
        );
    }
    field.is_wrong("this is no name of a signal: letters, digits and `_`")
}

/// What is wrong with a field behind the signal that is no number.
fn wrong_number(field: Field<'_>) -> Option<Misformed> {
    if number(field.bytes).is_some() {
        return None;
    }
    if is_priority(field.bytes) {
        return field.is_wrong("a priority stands behind `at`");
    }
    match field.bytes {
        [b'#' | b'/', ..] => field.is_wrong("a comment has a line of its own"),
        b"true" | b"false" => field.is_wrong(
            "this is no number: of a boolean, true is 1 and false is 0",
        ),
        _ => field.is_wrong(
            "this is no number: digits, perhaps behind a `-`, within 64 bits; numbers are apart by blanks",
        ),
    }
}

/// What is wrong with what stands from `at` on.
fn wrong_priority(at: Field<'_>, behind: &[Field<'_>]) -> Option<Misformed> {
    match behind {
        [] => at.is_wrong(
            "a priority is missing behind `at`: panic, high, general, low or background",
        ),
        [word, ..] if !is_priority(word.bytes) => {
            word.is_wrong("this is no priority: panic, high, general, low or background")
        }
        [_word, more, ..] => more.is_wrong("nothing stands behind the priority"),
        [_word] => None,
    }
}

/// What is wrong with what stands behind the signal.
fn wrong_load(fields: &[Field<'_>]) -> Option<Misformed> {
    for (number, field) in fields.iter().enumerate() {
        if field.bytes == b"at".as_slice() {
            let behind = fields.get(number.saturating_add(1)..).unwrap_or(&[]);
            return wrong_priority(*field, behind);
        }
        let wrong = wrong_number(*field);
        if wrong.is_some() {
            return wrong;
        }
    }
    None
}

/// What is wrong with the number of an `advance`.
fn wrong_time(field: Field<'_>) -> Option<Misformed> {
    let is_plain = are_digits(field.bytes) && !field.bytes.starts_with(b"0");
    if is_plain && value(field.bytes) <= MOST_TIME {
        return None;
    }
    field.is_wrong(
        "the time moves on by a number from 1 to 2147483647, in digits without a sign or a leading zero",
    )
}

/// What is wrong with what stands behind `advance`.
fn wrong_advance(advance: Field<'_>, behind: &[Field<'_>]) -> Option<Misformed> {
    match behind {
        [] => advance.is_wrong(
            "how far the time moves on is missing behind `advance`: a number from 1 to 2147483647",
        ),
        [time, rest @ ..] => match (wrong_time(*time), rest) {
            (Some(wrong), _) => Some(wrong),
            (None, [more, ..]) => more.is_wrong("nothing stands behind the number of an `advance`"),
            (None, []) => None,
        },
    }
}

/// What is wrong with a line of one field.
fn wrong_only(only: Field<'_>) -> Option<Misformed> {
    if only.bytes == b"settle".as_slice() {
        return None;
    }
    let wrong = wrong_target(only);
    if wrong.is_some() {
        return wrong;
    }
    only.is_wrong("a signal is missing behind the port")
}

/// Which part of a line is not of the form `PATH.PORT[PLACE] SIGNAL NUMBERS at PRIORITY`, and not `settle` or `advance N`;
/// none where it is of it.
pub(crate) fn wrong_part(alloc: Global, line: &[u8]) -> Result<Option<Misformed>, AllocError> {
    let fields = fields_of(alloc, line)?;
    Ok(match fields.as_slice() {
        [] => Some(Misformed {
            start: 0,
            end: line.len(),
            why: "an empty line has no blanks either",
        }),
        [first, ..] if first.bytes.starts_with(b"#") => Some(Misformed {
            start: 0,
            end: first.start,
            why: "nothing stands before the `#` of a comment",
        }),
        [first, behind @ ..] if first.bytes == b"advance".as_slice() => {
            wrong_advance(*first, behind)
        }
        [only] => wrong_only(*only),
        [first, more, ..] if first.bytes == b"settle".as_slice() => {
            more.is_wrong("nothing stands behind `settle`")
        }
        [first, signal, load @ ..] => match wrong_target(*first) {
            Some(wrong) => Some(wrong),
            None => match wrong_signal(*signal) {
                Some(wrong) => Some(wrong),
                None => wrong_load(load),
            },
        },
    })
}

//! Where entries and other lines stand in the text of journals.

/// The bytes of a part of a text: the first, and the one behind the last.
#[derive(Clone, Copy, PartialEq, Eq)]
pub(crate) struct Span {
    pub start: usize,
    pub end: usize,
}

/// An entry of a party, by its place in that one's journal. The environment is the party behind the last
/// controller.
#[derive(Clone, Copy, PartialEq, Eq)]
pub(crate) struct Spot {
    pub party: usize,
    pub at: usize,
}

/// A part of the text of journals.
#[derive(Clone, Copy, PartialEq, Eq)]
pub(crate) enum Part {
    /// The line above a party's entries.
    Head(usize),
    Entry(Spot),
    /// The line of a message that is left, by its place among these.
    Left(usize),
    /// The line of a line that was not posted, by its place among these.
    Unposted(usize),
    /// The last line.
    End,
}

/// What a line of journals is.
#[derive(Clone, Copy, PartialEq, Eq)]
enum Kind {
    Head,
    /// So many entries.
    Entries(usize),
    Left,
    Unposted,
    End,
    /// A note, or the title.
    Other,
}

/// Whether a word names a message, by its sender and its stamp.
fn names_message(word: &[u8]) -> bool {
    word.contains(&b'@')
}

/// How many entries a line of entries has: a line of fetches has one for each message, any other has one.
fn count_of(line: &[u8]) -> usize {
    let fetch: &[u8] = b"fetch";
    let mut words = line.split(|byte| *byte == b' ');
    if words.nth(1) != Some(fetch) {
        return 1;
    }
    words.filter(|word| names_message(word)).count()
}

/// What a line of journals is.
fn kind_of(line: &[u8]) -> Kind {
    let environment: &[u8] = b"environment";
    if line.starts_with(b"controller ") || line == environment {
        Kind::Head
    } else if line.starts_with(b"left ") {
        Kind::Left
    } else if line.starts_with(b"unposted ") {
        Kind::Unposted
    } else if line.starts_with(b"done") || line.starts_with(b"spent") {
        Kind::End
    } else if line.starts_with(b"note ") || line.starts_with(b"room-journal") || line.is_empty() {
        Kind::Other
    } else {
        Kind::Entries(count_of(line))
    }
}

/// What was passed of the text: heads, entries of the last of them, messages that are left, and lines not
/// posted.
#[derive(Clone, Copy)]
struct Passed {
    heads: usize,
    entries: usize,
    left: usize,
    unposted: usize,
}

impl Passed {
    /// Whether a line of this kind has the part.
    fn has(self, kind: Kind, part: Part) -> bool {
        match (kind, part) {
            (Kind::Head, Part::Head(party)) => self.heads == party,
            (Kind::Entries(count), Part::Entry(spot)) => {
                self.heads == spot.party.saturating_add(1)
                    && self.entries <= spot.at
                    && spot.at < self.entries.saturating_add(count)
            }
            (Kind::Left, Part::Left(at)) => self.left == at,
            (Kind::Unposted, Part::Unposted(at)) => self.unposted == at,
            (Kind::End, Part::End) => true,
            _ => false,
        }
    }

    /// What was passed behind a line of this kind.
    fn behind(self, kind: Kind) -> Passed {
        let mut passed = self;
        match kind {
            Kind::Head => {
                passed.heads = self.heads.saturating_add(1);
                passed.entries = 0;
            }
            Kind::Entries(count) => passed.entries = self.entries.saturating_add(count),
            Kind::Left => passed.left = self.left.saturating_add(1),
            Kind::Unposted => passed.unposted = self.unposted.saturating_add(1),
            Kind::End | Kind::Other => (),
        }
        passed
    }
}

/// The name of one of the messages of a line of fetches, of which so many stand before it.
fn word_in(line: &[u8], start: usize, number: usize) -> Span {
    let mut at = start;
    let mut left = number;
    for word in line.split(|byte| *byte == b' ') {
        let end = at.saturating_add(word.len());
        if names_message(word) {
            if left == 0 {
                return Span { start: at, end };
            }
            left = left.saturating_sub(1);
        }
        at = end.saturating_add(1);
    }
    whole(line, start)
}

/// All of a line.
fn whole(line: &[u8], start: usize) -> Span {
    Span {
        start,
        end: start.saturating_add(line.len()),
    }
}

/// Where a part stands in the text of journals; at its end where it has none such.
pub(crate) fn span_of(text: &[u8], part: Part) -> Span {
    let mut passed = Passed {
        heads: 0,
        entries: 0,
        left: 0,
        unposted: 0,
    };
    let mut start = 0usize;
    for line in text.split(|byte| *byte == b'\n') {
        let kind = kind_of(line);
        if passed.has(kind, part) {
            return match (kind, part) {
                (Kind::Entries(count), Part::Entry(spot)) if count > 1 => {
                    word_in(line, start, spot.at.saturating_sub(passed.entries))
                }
                _ => whole(line, start),
            };
        }
        passed = passed.behind(kind);
        start = start.saturating_add(line.len()).saturating_add(1);
    }
    Span {
        start: text.len(),
        end: text.len(),
    }
}

/// Where a line of this number, from 1, stands in a text.
pub(crate) fn span_of_line(text: &[u8], number: u32) -> Span {
    let mut start = 0usize;
    let mut left = number;
    for line in text.split(|byte| *byte == b'\n') {
        if left <= 1 {
            let shown = line.strip_suffix(b"\r").unwrap_or(line);
            return whole(shown, start);
        }
        left = left.saturating_sub(1);
        start = start.saturating_add(line.len()).saturating_add(1);
    }
    Span {
        start: text.len(),
        end: text.len(),
    }
}

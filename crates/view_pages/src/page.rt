//! A page of text that is being written.
use itoa::Buffer;
use std::alloc::{AllocError, Global};

/// The most bytes of a line that are shown.
const MOST_SHOWN: usize = 120;

/// How many bytes of a long line are shown before a part of it.
const SHOWN_BEFORE: usize = 40;

/// A page of text that is being written. Nothing that puts text on it fails: once memory ran out the page takes no
/// more, and `bytes` answers so in place of what stands on it.
#[derive(Drop)]
pub struct Page {
    alloc: Global,
    bytes: Vec<u8>,
    lacks_memory: bool,
}

/// A text under its name.
#[derive(Clone, Copy)]
pub struct Named<'a> {
    pub name: &'a str,
    pub text: &'a [u8],
}

/// What a fault or a finding is, and its cure, in a sentence each.
#[derive(Clone, Copy)]
pub struct Meaning {
    pub fault: &'static str,
    pub cure: &'static str,
}

/// Where a byte of a text stands: its line and column, from 1, and its line's first byte and the one behind its last.
#[derive(Clone, Copy)]
struct Place {
    line: usize,
    column: usize,
    start: usize,
    end: usize,
}

/// Whether a byte goes on with a letter that another one began.
fn continues(byte: u8) -> bool {
    byte & 0xC0 == 0x80
}

fn letters(bytes: &[u8]) -> usize {
    bytes.iter().filter(|byte| !continues(**byte)).count()
}

fn place_of(text: &[u8], at: usize) -> Place {
    let (before, behind) = text.split_at(at.min(text.len()));
    let start = match before.iter().rposition(|byte| *byte == b'\n') {
        Some(feed) => feed.saturating_add(1),
        None => 0,
    };
    let rest = match behind.iter().position(|byte| *byte == b'\n') {
        Some(feed) => feed,
        None => behind.len(),
    };
    let feeds = before.iter().filter(|byte| **byte == b'\n').count();
    let line = before.get(start..).unwrap_or(&[]);
    Place {
        line: feeds.saturating_add(1),
        column: letters(line).saturating_add(1),
        start,
        end: before.len().saturating_add(rest),
    }
}

impl Page {
    /// An empty page. It takes no memory.
    pub fn new(alloc: Global) -> Page {
        Page {
            alloc,
            bytes: Vec::new(alloc),
            lacks_memory: false,
        }
    }

    /// All that was put on the page, if there was memory for it.
    pub fn bytes(&self) -> Result<&[u8], AllocError> {
        if self.lacks_memory {
            return Err(AllocError);
        }
        Ok(self.bytes.as_slice())
    }

    /// How many bytes stand on the page, so that it shows whether some were added.
    pub fn len(&self) -> usize {
        self.bytes.len()
    }

    /// Where texts get their memory that are made for the page.
    pub fn alloc(&self) -> Global {
        self.alloc
    }

    /// Adds bytes to the page.
    pub fn put(&mut self, bytes: &[u8]) {
        if !self.lacks_memory {
            self.lacks_memory = self.bytes.extend_from_slice(bytes).is_err();
        }
    }

    /// Adds a text that was made for the page, if there was memory for it.
    pub fn put_made(&mut self, text: Result<Vec<u8>, AllocError>) {
        match text {
            Ok(text) => self.put(text.as_slice()),
            Err(AllocError) => self.lacks_memory = true,
        }
    }

    /// Adds a number in decimal digits.
    pub fn put_number(&mut self, number: u64) {
        let mut buffer = Buffer::new();
        self.put(buffer.format(number).as_bytes());
    }

    /// Adds a number that may be below 0.
    pub fn put_signed(&mut self, number: i64) {
        let mut buffer = Buffer::new();
        self.put(buffer.format(number).as_bytes());
    }

    /// Ends the line.
    pub fn end_line(&mut self) {
        self.put(b"\n");
    }

    /// Adds bytes, and ends the line.
    pub fn put_line(&mut self, bytes: &[u8]) {
        self.put(bytes);
        self.end_line();
    }

    /// What a fault or a finding is, and how it is mended.
    pub fn put_meaning(&mut self, meaning: Meaning) {
        self.put_line(meaning.fault.as_bytes());
        self.put(b"cure: ");
        self.put_line(meaning.cure.as_bytes());
    }

    /// So many times the byte that stands under a letter: a tab under a tab, so that marks stand in their place.
    fn put_under(&mut self, bytes: &[u8], mark: Option<u8>) {
        for byte in bytes {
            if continues(*byte) {
                continue;
            }
            let under = match mark {
                Some(mark) => mark,
                None if *byte == b'\t' => b'\t',
                None => b' ',
            };
            self.put(&[under]);
        }
    }

    /// A place in a text: its name, line and column, the line, and marks under a part of it.
    pub fn put_part(&mut self, named: Named<'_>, start: usize, end: usize) {
        let place = place_of(named.text, start);
        self.put(named.name.as_bytes());
        self.put(b":");
        self.put_number(place.line as u64);
        self.put(b":");
        self.put_number(place.column as u64);
        self.end_line();
        self.put_marked(named.text, place, start, end);
    }

    /// The line of a place, as far as it is shown, with marks under a part of it.
    fn put_marked(&mut self, text: &[u8], place: Place, start: usize, end: usize) {
        let long = place.end.saturating_sub(place.start) > MOST_SHOWN;
        let from = if long {
            place.start.max(start.saturating_sub(SHOWN_BEFORE))
        } else {
            place.start
        };
        let to = place.end.min(from.saturating_add(MOST_SHOWN));
        let shown = text.get(from..to).unwrap_or(&[]);
        self.put(b"    ");
        self.put_line(shown.strip_suffix(b"\r").unwrap_or(shown));
        self.put(b"    ");
        self.put_under(text.get(from..start).unwrap_or(&[]), None);
        let marked = text.get(start..end.min(to)).unwrap_or(&[]);
        if marked.is_empty() {
            self.put(b"^");
        } else {
            self.put_under(marked, Some(b'^'));
        }
        self.end_line();
    }
}

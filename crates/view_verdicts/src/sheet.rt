//! The sheet on which it is told what is wrong with journals.
use crate::entry_text::put_entry;
use crate::judged::Texts;
use crate::places::{Part, Span, Spot, span_of, span_of_line};
use crate::refused::Made;
use crate::words::put_name_of;
use journal::{Entry, Journals};
use room_wiring::Wiring;
use std::alloc::{AllocError, Global};
use view_pages::Page;

/// What is told of, and the texts in which its places are shown.
#[derive(Clone, Copy)]
pub(crate) struct Sheet<'a> {
    pub alloc: Global,
    pub wiring: &'a Wiring,
    pub journals: &'a Journals,
    pub texts: Texts<'a>,
    pub fuel: u64,
}

/// From what something follows: a part of the journals or a line of the injections, and what it is.
#[derive(Clone, Copy, Drop)]
pub(crate) struct Source {
    part: Option<Part>,
    line: u32,
    role: &'static [u8],
}

/// From what something follows, in order.
#[derive(Drop)]
pub(crate) struct Sources {
    all: Vec<Source>,
}

impl Sources {
    pub(crate) fn new(alloc: Global) -> Sources {
        Sources {
            all: Vec::new(alloc),
        }
    }

    /// Whether it follows from this part of the journals already.
    fn has(&self, part: Part) -> bool {
        self.all
            .as_slice()
            .iter()
            .any(|source| source.part == Some(part))
    }

    /// It follows from an entry, if there is one, and it isn't there already.
    pub(crate) fn add(
        &mut self,
        spot: Option<Spot>,
        role: &'static [u8],
    ) -> Result<(), AllocError> {
        let Some(spot) = spot else {
            return Ok(());
        };
        let part = Part::Entry(spot);
        if !self.has(part) {
            self.all.push(Source {
                part: Some(part),
                line: 0,
                role,
            })?;
        }
        Ok(())
    }

    /// It follows from a line of the injections, if there is one.
    pub(crate) fn add_line(
        &mut self,
        line: Option<u32>,
        role: &'static [u8],
    ) -> Result<(), AllocError> {
        if let Some(line) = line {
            self.all.push(Source {
                part: None,
                line,
                role,
            })?;
        }
        Ok(())
    }
}

impl<'a> Sheet<'a> {
    /// Shows a part of the text of the journals.
    pub(crate) fn show(self, page: &mut Page, part: Part) {
        let Span { start, end } = span_of(self.texts.journals.text, part);
        page.put_part(self.texts.journals, start, end);
    }

    /// Shows a line of the injections.
    fn show_line(self, page: &mut Page, number: u32) {
        let Span { start, end } = span_of_line(self.texts.injections.text, number);
        page.put_part(self.texts.injections, start, end);
    }

    /// A line below what is shown.
    pub(crate) fn say(self, page: &mut Page, what: &[u8]) {
        page.put(b"    ");
        page.put_line(what);
    }

    /// An entry, behind what is said of it.
    pub(crate) fn say_entry(self, page: &mut Page, lead: &[u8], entry: &Entry) {
        page.put(b"    ");
        page.put(lead);
        page.put(b": ");
        put_entry(page, self.wiring, entry);
        page.end_line();
    }

    /// What happens at a party, or could.
    pub(crate) fn say_made(self, page: &mut Page, lead: &[u8], made: &Made, here: usize) {
        page.put(b"    ");
        page.put(lead);
        if made.party != here {
            page.put(b" at ");
            put_name_of(page, self.wiring, made.party);
        }
        page.put(b": ");
        put_entry(page, self.wiring, &made.entry);
        page.end_line();
    }

    /// From what something follows, if from anything.
    pub(crate) fn tell_sources(self, page: &mut Page, sources: &Sources) {
        if sources.all.is_empty() {
            return;
        }
        page.end_line();
        page.put_line(b"it follows from:");
        for source in sources.all.as_slice() {
            match source.part {
                Some(part) => self.show(page, part),
                None => self.show_line(page, source.line),
            }
            self.say(page, source.role);
        }
    }
}

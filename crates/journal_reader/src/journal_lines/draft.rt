//! Journals of which some lines have been read.
ghost use Rattle.std.specs.Prelude.{◌≡◌, OnOk, IfOk};
ghost use Rattle.journal_reader.specs.journal_lines.Drafts.{nothing_read, ended, closed, opened, duty_open, entered, annotated, shelved, titled_by, in_form, journals_of, finished};

use crate::journal_lines::rest::is;
use journal::{Did, Entry, Journal, Journals, Left, speaker_after};
use room_kinds::{ControllerId, Incarnation, Note, Notes, Sequence, SlotId, Stamp};
use std::alloc::{AllocError, Global};
use std::mem;

/// An entry that stands open for its notes.
#[derive(Clone, Copy)]
pub enum Head {
    Nothing,
    Start {
        who: Incarnation,
        state: u16,
    },
    Turn {
        stamp: Stamp,
        from: ControllerId,
        sent: Stamp,
        did: Did,
    },
}

/// What was read so far: whole journals, the one that is being read, and in it an entry that
/// stands open with its notes.
#[derive(Drop)]
pub struct Draft {
    /// Whether fetches are told by their posts, as in form 2.
    pub tied: bool,
    pub controllers: Sequence<Journal>,
    /// Whether the line above a journal was read.
    pub titled: bool,
    /// Whose journal is being read.
    pub party: ControllerId,
    pub entries: Journal,
    pub head: Head,
    pub notes: Notes,
    /// The slot of the actor of which the notes speak.
    pub speaker: Option<SlotId>,
    pub left: Sequence<Left>,
    pub unposted: Sequence<u32>,
    pub done: bool,
}

fn is_duty(head: Head) -> bool
    ensures { result ≡ duty_open head }
{
    match head {
        Head::Turn { did, .. } => did.is_duty(),
        Head::Nothing => false,
        Head::Start { .. } => false,
    }
}

impl Draft {
    /// Nothing was read. It takes no memory.
    pub fn new(alloc: Global) -> Draft
        ensures { result ≡ nothing_read }
    {
        Draft {
            tied: false,
            controllers: Sequence::new(alloc),
            titled: false,
            party: ControllerId(0),
            entries: Sequence::new(alloc),
            head: Head::Nothing,
            notes: Sequence::new(alloc),
            speaker: None,
            left: Sequence::new(alloc),
            unposted: Sequence::new(alloc),
            done: false,
        }
    }

    /// The form in which the text is written.
    pub fn set_form(&mut self, form: &[u8])
        ensures { self.new ≡ in_form self.old form.now }
    {
        if is(form, "2") {
            self.tied = true;
        }
    }

    /// The entry that stands open gets its notes.
    #[tactic(auto, unfolding(crate::specs::journal_lines::Drafts::closed))]
    pub fn close(&mut self, alloc: Global) -> Result<(), AllocError>
        ensures { OnOk result (self.new ≡ closed self.old) }
    {
        match self.head {
            Head::Nothing => Ok(()),
            Head::Start { who, state } => {
                let notes = mem::replace(&mut self.notes, Sequence::new(alloc));
                self.end_entry(Entry::Start { who, state, notes })
            }
            Head::Turn {
                stamp,
                from,
                sent,
                did,
            } => {
                let notes = mem::replace(&mut self.notes, Sequence::new(alloc));
                self.end_entry(Entry::Turn {
                    stamp,
                    from,
                    sent,
                    did,
                    notes,
                })
            }
        }
    }

    fn end_entry(&mut self, entry: Entry) -> Result<(), AllocError>
        ensures { OnOk result (self.new ≡ ended self.old entry) }
    {
        self.entries.push(entry)?;
        self.head = Head::Nothing;
        self.speaker = None;
        Ok(())
    }

    /// An entry opens.
    pub fn open(
        &mut self,
        alloc: Global,
        head: Head,
        speaker: Option<SlotId>,
    ) -> Result<(), AllocError>
        ensures { OnOk result (self.new ≡ opened self.old head speaker) }
    {
        self.close(alloc)?;
        self.head = head;
        self.speaker = speaker;
        Ok(())
    }

    /// An entry without notes is added.
    pub fn enter(&mut self, alloc: Global, entry: Entry) -> Result<(), AllocError>
        ensures { OnOk result (self.new ≡ entered self.old entry) }
    {
        self.close(alloc)?;
        self.entries.push(entry)?;
        Ok(())
    }

    /// A note is added to the entry that stands open.
    pub fn annotate(&mut self, note: Note) -> Result<(), AllocError>
        ensures { OnOk result (self.new ≡ annotated self.old note) }
    {
        self.notes.push(note)?;
        self.speaker = speaker_after(is_duty(self.head), self.speaker, note);
        Ok(())
    }

    /// The journal that was read is a controller's.
    fn shelve(&mut self, alloc: Global) -> Result<(), AllocError>
        ensures { OnOk result (self.new ≡ shelved self.old) }
    {
        if self.titled {
            let entries = mem::replace(&mut self.entries, Sequence::new(alloc));
            self.controllers.push(entries)?;
        }
        Ok(())
    }

    /// The journal of a party begins.
    pub fn begin(&mut self, alloc: Global, party: ControllerId) -> Result<(), AllocError>
        ensures { OnOk result (self.new ≡ titled_by self.old party) }
    {
        self.close(alloc)?;
        self.shelve(alloc)?;
        self.titled = true;
        self.party = party;
        Ok(())
    }

    /// The journals; the last one is the environment's.
    pub fn finish(mut self, alloc: Global) -> Result<Journals, AllocError>
        ensures { IfOk result (λ j. j ≡ finished self) }
    {
        self.close(alloc)?;
        Ok(self.into_journals())
    }

    fn into_journals(self) -> Journals
        ensures { result ≡ journals_of self }
    {
        Journals {
            controllers: self.controllers,
            environment: self.entries,
            left: self.left,
            unposted: self.unposted,
            done: self.done,
        }
    }
}

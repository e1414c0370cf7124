//! Messages taken from the posts that name them.
ghost use Rattle.std.specs.Prelude.{◌≡◌, map, IfOk};
ghost use Rattle.journal.specs.declared.entry.Journals.{Journals};
ghost use Rattle.tied_journals.specs.PostTables.{ArePostsOf};
ghost use Rattle.journal_reader.specs.journal_texts.Filled.{filled_message, filled_entry, filled_entries, filled};

use journal::{Entry, Journal, Journals};
use room_kinds::{Msg, Notes, Sequence};
use std::alloc::{AllocError, Global};
use tied_journals::Posts;

fn filled_message(alloc: Global, posts: &Posts<'_>, msg: &Msg) -> Result<Msg, AllocError>
    ensures { IfOk result (λ m. (j : Journals) → ArePostsOf posts.now j
        → m ≡ filled_message j msg.now) }
{
    match posts.only(msg.from, msg.stamp) {
        Some(post) => post.copy(alloc),
        None => msg.copy(alloc),
    }
}

fn copy_notes(alloc: Global, notes: &Notes) -> Result<Notes, AllocError>
    ensures { IfOk result (λ ns. ns ≡ notes.now) }
{
    let notes = notes.as_slice().to_vec(alloc)?;
    Ok(Notes::from(notes))
}

fn filled_entry(alloc: Global, posts: &Posts<'_>, entry: &Entry) -> Result<Entry, AllocError>
    ensures { IfOk result (λ e. (j : Journals) → ArePostsOf posts.now j
        → e ≡ filled_entry j entry.now) }
{
    match entry {
        Entry::Start { who, state, notes } => {
            let notes = copy_notes(alloc, notes)?;
            Ok(Entry::Start {
                who: *who,
                state: *state,
                notes,
            })
        }
        Entry::Fetch { stamp, msg } => {
            let msg = filled_message(alloc, posts, msg)?;
            Ok(Entry::Fetch { stamp: *stamp, msg })
        }
        Entry::Turn {
            stamp,
            from,
            sent,
            did,
            notes,
        } => {
            let notes = copy_notes(alloc, notes)?;
            Ok(Entry::Turn {
                stamp: *stamp,
                from: *from,
                sent: *sent,
                did: *did,
                notes,
            })
        }
        Entry::Post { stamp, msg } => {
            let msg = msg.copy(alloc)?;
            Ok(Entry::Post { stamp: *stamp, msg })
        }
    }
}

fn filled_entries(
    alloc: Global,
    posts: &Posts<'_>,
    entries: &[Entry],
) -> Result<Journal, AllocError>
    ensures { IfOk result (λ es. (j : Journals) → ArePostsOf posts.now j
        → es ≡ filled_entries j entries.now) }
{
    let mut filled = Sequence::new(alloc);
    for entry in entries {
        filled.push(filled_entry(alloc, posts, entry)?)?;
    }
    Ok(filled)
}

fn filled_controllers(
    alloc: Global,
    posts: &Posts<'_>,
    journals: &[Journal],
) -> Result<Sequence<Journal>, AllocError>
    ensures { IfOk result (λ ess. (j : Journals) → ArePostsOf posts.now j
        → ess ≡ map (filled_entries j) journals.now) }
{
    let mut filled = Sequence::new(alloc);
    for journal in journals {
        filled.push(filled_entries(alloc, posts, journal.as_slice())?)?;
    }
    Ok(filled)
}

fn filled_journals(alloc: Global, journals: &Journals) -> Result<Sequence<Journal>, AllocError>
    ensures { IfOk result (λ ess. ess
        ≡ map (filled_entries journals.now) journals.now.controllers) }
{
    let posts = Posts::of(alloc, journals)?;
    filled_controllers(alloc, &posts, journals.controllers.as_slice())
}

/// The journals, in which each message that a controller fetched is that of the only post of its
/// sender with its stamp. A message stays where there is no such post. It takes time and memory in
/// proportion to the journals.
pub fn fill(alloc: Global, journals: Journals) -> Result<Journals, AllocError>
    ensures { IfOk result (λ j. j ≡ filled journals) }
{
    let controllers = filled_journals(alloc, &journals)?;
    let Journals {
        controllers: _,
        environment,
        left,
        unposted,
        done,
    } = journals;
    Ok(Journals {
        controllers,
        environment,
        left,
        unposted,
        done,
    })
}

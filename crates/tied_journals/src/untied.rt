//! The first fetch that is tied to no post.
ghost use Rattle.std.specs.Prelude.{◌≡◌, ◌↔◌, ℕ, None, Some, IsTrue, IfOk, IfSome, MatchOption};
ghost use Rattle.journal.specs.declared.entry.Entry.TheVariants as entries;
ghost use Rattle.journal.specs.declared.entry.Journals.{Journals};
ghost use Rattle.room_kinds.specs.declared.message.Msg.{Msg};
ghost use Rattle.tied_journals.specs.Tied.{Follows, IsPosted, fetched_at, IsTiedEntry, AreTied, Tied};
ghost use Rattle.tied_journals.specs.PostTables.{ArePostsOf};
ghost use Rattle.tied_journals.specs.Untied.{IsUntied, IsFirstUntiedIn, party_number, IsFirstUntied};

use crate::tables::Posts;
use journal::{Entry, Journals};
use room_kinds::{ControllerId, Msg, Stamp};
use std::alloc::{AllocError, Global};

/// Whether a fetch has the stamp that it has to have directly after one at `before`.
fn follows(before: Option<u64>, stamp: u64, sent: u64) -> bool
    ensures { IsTrue result ↔ Follows before stamp sent }
{
    match before {
        Some(before) => before.max(sent).checked_add(1) == Some(stamp),
        None => true,
    }
}

/// Whether a message is that of the only post of its sender with its stamp.
fn is_posted(posts: &Posts<'_>, msg: &Msg) -> bool
    ensures { (j : Journals) → ArePostsOf posts.now j → IsTrue result ↔ IsPosted j msg.now }
{
    match posts.only(msg.from, msg.stamp) {
        Some(post) => post.is_same(msg),
        None => false,
    }
}

/// The stamp of a fetch that is tied to no post, directly after one at `before`.
fn untied_fetch(posts: &Posts<'_>, before: Option<u64>, entry: &Entry) -> Option<Stamp>
    ensures { (j : Journals) → ArePostsOf posts.now j
        → MatchOption result (IsTiedEntry j before entry.now) (IsUntied j before entry.now) }
{
    match entry {
        Entry::Fetch { stamp, msg } => {
            if follows(before, stamp.0, msg.stamp.0) && is_posted(posts, msg) {
                None
            } else {
                Some(*stamp)
            }
        }
        Entry::Start { .. } => None,
        Entry::Turn { .. } => None,
        Entry::Post { .. } => None,
    }
}

fn fetched_at(entry: &Entry) -> Option<u64>
    ensures { result ≡ fetched_at entry.now }
{
    match entry {
        Entry::Fetch { stamp, .. } => Some(stamp.0),
        Entry::Start { .. } => None,
        Entry::Turn { .. } => None,
        Entry::Post { .. } => None,
    }
}

/// The stamp of the first fetch of a journal that is tied to no post.
fn first_untied_in(posts: &Posts<'_>, entries: &[Entry]) -> Option<Stamp>
    ensures { (j : Journals) → ArePostsOf posts.now j
        → MatchOption result (AreTied j None entries.now) (IsFirstUntiedIn j None entries.now) }
{
    let mut before = None;
    for entry in entries {
        if let Some(stamp) = untied_fetch(posts, before, entry) {
            return Some(stamp);
        }
        before = fetched_at(entry);
    }
    None
}

/// A party's number as a controller's: no wiring has more than 255 controllers.
fn party_number(party: usize) -> ControllerId
    ensures { result ≡ party_number party }
{
    ControllerId((party % 256) as u8)
}

/// The first fetch, by party and then in order of its journal, that is tied to no post.
fn first_untied_by(posts: &Posts<'_>, journals: &Journals) -> Option<(ControllerId, Stamp)>
    ensures { ArePostsOf posts.now journals.now
        → MatchOption result (Tied journals.now) (λ x. IsFirstUntied journals.now x.0 x.1) }
{
    let controllers = journals.controllers.as_slice();
    for (c, journal) in controllers.iter().enumerate() {
        if let Some(stamp) = first_untied_in(posts, journal.as_slice()) {
            return Some((party_number(c), stamp));
        }
    }
    match first_untied_in(posts, journals.environment.as_slice()) {
        Some(stamp) => Some((party_number(controllers.len()), stamp)),
        None => None,
    }
}

/// The first fetch, by party and then in order of its journal, that is tied to no post: whose
/// message isn't that of the only post of its sender with its stamp, or which stands directly after
/// a fetch and isn't stamped one above the greater of that one's stamp and its message's. `None`
/// comes exactly where the journals are tied.
///
/// The environment has the number after the last controller. Numbers are modulo 256: no wiring has
/// more than 255 controllers. It takes time and memory in proportion to the journals.
pub fn first_untied(
    alloc: Global,
    journals: &Journals,
) -> Result<Option<(ControllerId, Stamp)>, AllocError>
    ensures tied { IfOk result (λ r. (r ≡ None) ↔ Tied journals.now) }
    ensures first { IfOk result (λ r. IfSome r (λ x. IsFirstUntied journals.now x.0 x.1)) }
{
    let posts = Posts::of(alloc, journals)?;
    Ok(first_untied_by(&posts, journals))
}

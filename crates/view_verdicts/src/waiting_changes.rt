//! Which messages wait, and waited before: those that actors defer, and those that had no turn yet.
use indexmap::IndexSet;
use journal::Left;
use room_kinds::Msg;
use room_wiring::Wiring;
use std::alloc::{AllocError, Global};
use view_journals::{Name, actor_at, put_actor, put_received};
use view_pages::Page;

fn name_of(msg: &Msg) -> Name {
    Name::new(msg.from, msg.stamp)
}

/// Adds what journals call messages.
fn add_names(names: &mut IndexSet<Name>, messages: &[Msg]) -> Result<(), AllocError> {
    for msg in messages {
        names.insert(name_of(msg))?;
    }
    Ok(())
}

/// Adds what journals call messages that wait.
fn add_waiting_names(names: &mut IndexSet<Name>, waiting: &[Left]) -> Result<(), AllocError> {
    for left in waiting {
        names.insert(name_of(&left.msg))?;
    }
    Ok(())
}

/// Tells of a message that an actor defers, or did.
fn tell_deferred(page: &mut Page, wiring: &Wiring, word: &[u8], msg: &Msg) {
    page.put(b"        ");
    page.put(word);
    put_received(page, wiring, msg);
    page.end_line();
}

/// Tells, behind a word, of those of the messages that have other names than these.
fn tell_deferred_beside(
    page: &mut Page,
    wiring: &Wiring,
    word: &[u8],
    messages: &[Msg],
    names: &IndexSet<Name>,
) {
    for msg in messages {
        if !names.contains(&name_of(msg)) {
            tell_deferred(page, wiring, word, msg);
        }
    }
}

/// Tells, behind a word, of those of the messages that are not among others.
pub(crate) fn tell_deferred_but(
    alloc: Global,
    page: &mut Page,
    wiring: &Wiring,
    word: &[u8],
    messages: &[Msg],
    others: &[Msg],
) -> Result<(), AllocError> {
    let mut names = IndexSet::new(alloc);
    add_names(&mut names, others)?;
    tell_deferred_beside(page, wiring, word, messages, &names);
    Ok(())
}

/// Whether two lists have the same messages, in the same order.
pub(crate) fn are_same(messages: &[Msg], others: &[Msg]) -> bool {
    messages.len() == others.len()
        && messages
            .iter()
            .zip(others)
            .all(|(msg, other)| name_of(msg) == name_of(other))
}

/// Tells of a message for whom it waits, and where.
fn tell_waiting(page: &mut Page, wiring: &Wiring, left: &Left) {
    page.put(b"    for ");
    put_actor(page, wiring, actor_at(left.msg.target));
    page.put(b": ");
    put_received(page, wiring, &left.msg);
    page.put_line(if left.pending {
        b", fetched"
    } else {
        b", on its way"
    });
}

/// Tells, under a title, of those of the messages that wait which have other names than these.
fn tell_waiting_beside(
    page: &mut Page,
    wiring: &Wiring,
    title: &[u8],
    waiting: &[Left],
    names: &IndexSet<Name>,
) {
    let mut is_first = true;
    for left in waiting {
        if names.contains(&name_of(&left.msg)) {
            continue;
        }
        if is_first {
            page.put_line(title);
            is_first = false;
        }
        tell_waiting(page, wiring, left);
    }
}

/// Tells, under a title, of those of the messages that wait which are not among others.
pub(crate) fn tell_waiting_but(
    alloc: Global,
    page: &mut Page,
    wiring: &Wiring,
    title: &[u8],
    waiting: &[Left],
    others: &[Left],
) -> Result<(), AllocError> {
    let mut names = IndexSet::new(alloc);
    add_waiting_names(&mut names, others)?;
    tell_waiting_beside(page, wiring, title, waiting, &names);
    Ok(())
}

//! The messages that link users with a provider, and that end their links.
ghost use Rattle.std.specs.Prelude.{◌≡◌, ◌+◌, ◌++◌, ◌∷◌, [], pos, map, filter, IfOk, OnOk};
ghost use Rattle.actor_duties.specs.Messages.{to_owner};
ghost use Rattle.actor_duties.specs.Names.{at_place, both_told, name_reply_to, linked_users, link_ended, links_ended, is_user, waiting};

use crate::name_service::entries::User;
use room_kinds::{ControllerId, Endpoint, Msg, Outbox, Payload, SysKind};
use room_wiring::Wiring;
use service_messages::{owner_of, system};
use std::alloc::{AllocError, Global};

/// A message of controller 0 to the owner of its target.
fn to_owner(
    wiring: &Wiring,
    kind: SysKind,
    source: Endpoint,
    target: Endpoint,
    payload: Payload,
) -> Msg
    ensures { result ≡ to_owner wiring.now 0 kind source target payload }
{
    let owner = owner_of(wiring, target.slot);
    system(ControllerId(0), owner, kind, source, target, payload)
}

/// The answer to a request goes to the owner of the endpoint: 0, or why it was refused.
pub fn reply(
    alloc: Global,
    wiring: &Wiring,
    endpoint: Endpoint,
    code: u8,
    out: &mut Outbox,
) -> Result<(), AllocError>
    ensures { let told = name_reply_to wiring.now endpoint (pos code ∷ []) in
        OnOk result (out.new ≡ out.old ++ told ∷ []) }
{
    let payload = Payload::from_slice(alloc, &[i64::from(code)])?;
    out.push(to_owner(wiring, SysKind::NameReply, endpoint, endpoint, payload))?;
    Ok(())
}

fn tell_both(
    alloc: Global,
    wiring: &Wiring,
    kind: SysKind,
    provider: Endpoint,
    place: u32,
    user: Endpoint,
    out: &mut Outbox,
) -> Result<(), AllocError>
    ensures { OnOk result (out.new ≡ out.old ++ both_told wiring.now kind provider place user) }
{
    let end = Endpoint { place, ..provider };
    out.push(to_owner(wiring, kind, user, end, Payload::empty(alloc)))?;
    out.push(to_owner(wiring, kind, end, user, Payload::empty(alloc)))?;
    Ok(())
}

/// The place after this one. Where the numbers of places are used up, after 4,294,967,295, want of
/// memory is answered.
fn place_after(place: u32) -> Result<u32, AllocError>
    ensures { IfOk result (λ next. next ≡ place + 1) }
{
    match place.checked_add(1) {
        Some(next) => Ok(next),
        None => Err(AllocError),
    }
}

/// Links each user that waits, in order; each link takes the provider's next place. Gives the next
/// place then. Where the numbers of places are used up, want of memory is answered.
pub fn link_users(
    alloc: Global,
    wiring: &Wiring,
    provider: Endpoint,
    next: u32,
    users: &mut [User],
    out: &mut Outbox,
) -> Result<u32, AllocError>
    ensures users { let done = linked_users wiring.now provider users.old next in
        OnOk result (users.new ≡ done.users) }
    ensures next { let done = linked_users wiring.now provider users.old next in
        IfOk result (λ n. n ≡ done.next) }
    ensures sent { let done = linked_users wiring.now provider users.old next in
        OnOk result (out.new ≡ out.old ++ done.sent) }
{
    let mut place = next;
    for i in 0..users.len() {
        let user = users[i];
        if user.linked().is_none() {
            let next = place_after(place)?;
            tell_both(
                alloc,
                wiring,
                SysKind::Bound,
                provider,
                place,
                user.at(),
                out,
            )?;
            users[i] = User::new(user.at(), Some(place));
            place = next;
        }
    }
    Ok(place)
}

/// Ends the link of a user, if it has one.
fn end_link(
    alloc: Global,
    wiring: &Wiring,
    provider: Endpoint,
    user: User,
    out: &mut Outbox,
) -> Result<(), AllocError>
    ensures { OnOk result (out.new ≡ out.old ++ link_ended wiring.now provider user) }
{
    match user.linked() {
        Some(place) => tell_both(
            alloc,
            wiring,
            SysKind::Ended,
            provider,
            place,
            user.at(),
            out,
        ),
        None => Ok(()),
    }
}

/// Ends the links of these users, in their order.
pub fn end_links(
    alloc: Global,
    wiring: &Wiring,
    provider: Endpoint,
    users: &[User],
    out: &mut Outbox,
) -> Result<(), AllocError>
    ensures { OnOk result (out.new ≡ out.old ++ links_ended wiring.now provider users.now) }
{
    for user in users {
        end_link(alloc, wiring, provider, *user, out)?;
    }
    Ok(())
}

/// Ends the links that this endpoint has among the users.
pub fn end_links_of(
    alloc: Global,
    wiring: &Wiring,
    provider: Endpoint,
    endpoint: Endpoint,
    users: &[User],
    out: &mut Outbox,
) -> Result<(), AllocError>
    ensures { let ended = filter (is_user endpoint) users.now in
        OnOk result (out.new ≡ out.old ++ links_ended wiring.now provider ended) }
{
    for user in users {
        if user.is(endpoint) {
            end_link(alloc, wiring, provider, *user, out)?;
        }
    }
    Ok(())
}

/// Users that wait again.
pub fn wait_again(users: &mut [User])
    ensures { users.new ≡ map waiting users.old }
{
    for i in 0..users.len() {
        users[i] = User::new(users[i].at(), None);
    }
}

//! The rule of a shared queue.
use crate::contents::Contents;
use crossbeam_queue::protocol::{Join, Lesson, Outcome, Protocol, Split};
use std::collections::LinkedList;

/// What a party pushed. No value of it is made.
pub struct Posted {
    pub party: u64,
    pub list: LinkedList<Contents>,
}

/// What a pass pushed, by party; whether it takes, and then what it took, and from which party on it
/// has the right to post, too, where no pass was split off for them yet. No value of it is made.
pub struct PassView {
    pub posts: LinkedList<Posted>,
    pub takes: bool,
    pub next: u64,
    pub got: LinkedList<Contents>,
}

pub struct BoxRule;

impl Protocol<Contents, PassView> for BoxRule {
    ghost use Rattle.std.specs.Prelude.{true, []};
    ghost use Rattle.mail_seg.specs.Rule.{IsInOrder};

    ghost holds = { IsInOrder };

    ghost first = { record { posts = []; takes = true; next = 0; got = [] } };
}

/// A pass for the next party.
pub struct NextParty;

impl Split<PassView> for NextParty {
    ghost use Rattle.mail_seg.specs.Rule.{past_next, poster};

    ghost left = { past_next };

    ghost right = { λ v. poster v.next };
}

/// The next party keeps the pass. What is split off posts for nobody and takes nothing.
pub struct KeepNext;

impl Split<PassView> for KeepNext {
    ghost use Rattle.mail_seg.specs.Rule.{keeping_next, spent};

    ghost left = { keeping_next };

    ghost right = { λ v. spent };
}

/// A pass takes in another's posts.
pub struct TakeIn;

impl Join<PassView> for TakeIn {
    ghost use Rattle.mail_seg.specs.Rule.{taking_in, spent};

    ghost both = { taking_in };

    ghost spent = { spent };
}

/// A push.
pub struct Push;

impl Outcome<Contents, PassView> for Push {
    ghost use Rattle.std.specs.Prelude.{◌≡◌};
    ghost use Rattle.mail_seg.specs.Rule.{pushing};

    ghost then = { λ v x w. w ≡ pushing v x };
}

/// A pop.
pub struct Pop;

impl Outcome<Contents, PassView> for Pop {
    ghost use Rattle.mail_seg.specs.Rule.{Popped};

    ghost then = { Popped };
}

impl Lesson<Contents, PassView> for Pop {
    ghost use Rattle.mail_seg.specs.Rule.{AllTaken};

    ghost fact = { AllTaken };
}

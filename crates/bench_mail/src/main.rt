//! Carries messages through one mailbox, so that this can be timed: `bench_mail MAILBOX TO COUNT`.
//! MAILBOX is `local`, `lanes` or `seg`. TO is `self`, where a controller sends to itself, or `other`,
//! where one controller sends to another, each in a thread; `local` is the mail of one thread and has
//! `self` alone. Prints how many of the COUNT messages came. With `lanes unused-N COUNT`, where N is 1, 8
//! or 32, it sets up and closes so many mails of N controllers, in which no message comes.
#![tactic(auto)]

mod alone;
mod shared;
mod two;

use crate::alone::{alone, unused};
use crate::shared::{shared_alone, shared_two};
use crate::two::two;
use mail_core::MailLocal;
use mail_lanes::MailLanes;
use std::alloc::AllocError;
use std::rt::Env;
use std::{env, io};

/// The box of priority 3 from controller 0 to itself, where each lane of two parties has a box.
const OWN_BOX: u32 = 5;

/// The box of priority 3 from controller 0, where each lane of three parties has a box.
const FIRST_BOX: u32 = 7;

fn words_of<R: Env + AllocGlobal>(rt: &R) -> io::Result<Vec<String>> {
    let mut words = env::args(rt)?;
    let _ = words.next();
    Ok(words.collect(rt.alloc())?)
}

fn main(rt: HostRuntime) -> io::Result<()> {
    let alloc = rt.alloc();
    let words = words_of(&rt)?;
    let [mailbox, to, count] = words.as_slice() else {
        return println!(rt; "the words are MAILBOX TO COUNT");
    };
    let Ok(count) = count.parse::<u64>() else {
        return println!(rt; "COUNT is no number");
    };
    let came = match (mailbox.as_str(), to.as_str()) {
        ("local", "self") => alone::<MailLocal>(alloc, OWN_BOX, count),
        ("lanes", "self") => alone::<MailLanes>(alloc, OWN_BOX, count),
        ("lanes", "other") => two::<MailLanes, _>(&rt, alloc, FIRST_BOX, count),
        ("lanes", "unused-1") => unused::<MailLanes>(alloc, 2, count),
        ("lanes", "unused-8") => unused::<MailLanes>(alloc, 9, count),
        ("lanes", "unused-32") => unused::<MailLanes>(alloc, 33, count),
        ("seg", "self") => shared_alone(&rt, alloc, count),
        ("seg", "other") => shared_two(&rt, alloc, count),
        _ => return println!(rt; "no such mailbox, or none that sends so"),
    };
    match came {
        Ok(count) => println!(rt; "{count} messages came"),
        Err(AllocError) => println!(rt; "no memory"),
    }
}

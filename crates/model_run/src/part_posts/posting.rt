//! Posts of a part.
ghost use Rattle.std.specs.Prelude.{◌≡◌, ◌+◌, length, OnOk};
ghost use Rattle.inject_reader.specs.Fitting.{LinesFit};
ghost use Rattle.mail_core.specs.Tied.{IsTied, StaysTied};
ghost use Rattle.model_run.specs.part_source.Parts.{IsPart};
ghost use Rattle.model_run.specs.part_posts.Posting.{PostsThePart};

use crate::part_posts::injected::message_from_outside;
use controller::{Environment, Plant};
use inject_reader::inject_lines::{Line, What};
use mail_core::Mail;
use std::alloc::{AllocError, Global};

/// The environment posts the lines of a part.
pub fn post_part<M: Mail>(
    alloc: Global,
    plant: &Plant,
    environment: &mut Environment,
    office: &mut M::Office,
    end: &mut M,
    part: &[Line],
) -> Result<(), AllocError>
    requires party { (M.log end.old).party ≡ length plant.now.wiring.controllers }
    requires parties { (M.log end.old).parties ≡ length plant.now.wiring.controllers + 1 }
    requires tied { IsTied M.tied (M.log end.old).party office.old end.old }
    requires part { IsPart part.now }
    requires fits { LinesFit plant.now.wiring part.now }
    ensures ok { OnOk result (PostsThePart plant.now part.now environment.old environment.new
        (M.log end.old) (M.log end.new)) }
    ensures tied { StaysTied M.tied (M.log end.old).party office.old office.new end.old end.new }
{
    for at in 0..part.len() {
        let What::Message {
            target,
            signal,
            payload,
            prio,
        } = &part[at].what
        else {
            unreachable!()
        };
        let m = message_from_outside(alloc, plant, *target, *signal, payload, *prio)?;
        environment.post(plant, office, end, m)?;
    }
    Ok(())
}

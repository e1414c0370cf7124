//! A run between two rounds.
ghost use Rattle.std.specs.Prelude.{◌≡◌, List, IfOk};
ghost use Rattle.inject_reader.specs.declared.inject_lines.accepted.Line.{Line as Accepted};
ghost use Rattle.model_run.specs.part_source.Calls.{seen, seen_in};
ghost use Rattle.model_run.specs.part_source.Parts.{IsPart};
ghost use Rattle.model_run.specs.run_loop.Runs.{StandsBetween, IsOver};
ghost use Rattle.model_run.specs.run_ends.Runs.{RanThrough};

use crate::part_source::PartSource;
use crate::run_ends::told;
use crate::run_loop::rests::someone_waits;
use crate::run_start::start_all;
use controller::{Controller, Environment, Plant};
use journal::Journals;
use std::alloc::{AllocError, Global};

/// A run between two rounds.
#[derive(Drop)]
pub(crate) struct Run {
    /// All controllers in order of number.
    pub(crate) controllers: Vec<Controller>,
    pub(crate) environment: Environment,
    /// Whether the lines of the part at which the source stands were posted.
    pub(crate) in_part: bool,
}

impl Run {
    /// A run before its first part, each controller with so much fuel.
    pub(crate) fn start(alloc: Global, plant: &Plant, fuel: u64) -> Result<Run, AllocError>
        ensures { IfOk result (λ run.
            (part : List Accepted) → IsPart part → StandsBetween plant.now part part fuel run) }
    {
        let controllers = start_all(alloc, plant, fuel)?;
        Ok(Run {
            controllers,
            environment: Environment::new(alloc),
            in_part: false,
        })
    }

    /// The journals of a run that is over, and what was left.
    pub(crate) fn journals<S: PartSource>(
        self,
        alloc: Global,
        plant: &Plant,
        source: &S,
        fuel: u64,
    ) -> Result<Journals, AllocError>
        requires { IsOver plant.now (S.given source.now) (S.left source.now) fuel self }
        ensures ran { IfOk result (λ j.
            RanThrough plant.now (S.given source.now) (S.left source.now) fuel j) }
        ensures seen { IfOk result (λ j. seen_in j ≡ seen self.controllers.items self.environment) }
    {
        let done = !someone_waits(&self.controllers);
        told(
            alloc,
            plant,
            self.controllers,
            self.environment,
            source,
            fuel,
            done,
        )
    }
}

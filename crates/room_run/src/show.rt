//! From the texts of a model, of injections and of journals to the system at a stamp of the journals.
ghost use Rattle.std.specs.Prelude.{◌≡◌, List, IfOk, IfErr};
ghost use Rattle.room_outside.specs.Shown.{Keeps};
ghost use Rattle.controller_actors.specs.declared.plant.Plant.{Plant as RunPlant};
ghost use Rattle.inject_reader.specs.declared.inject_lines.accepted.Line.{Line as InjectedLine};
ghost use Rattle.journal.specs.declared.entry.Journals.{Journals as RunJournals};
ghost use Rattle.room_run.specs.Words.{judged_view};
ghost use Rattle.room_run.specs.Causes.{IsSeen, ShowCauses};

use crate::asked::Judged;
use crate::refusal::Refusal;
use crate::verify::read_judged;
use room_outside::Shelf;
use room_show::Snapshot;
use room_verify::{Seen, show, shows_are_by_charts, verdicts_are_by_charts};
use room_wiring::Wiring;
use std::alloc::{AllocError, Global};

/// The system at a stamp, and the wiring whose names it tells.
#[derive(Drop)]
pub(crate) struct View {
    pub(crate) wiring: Wiring,
    pub(crate) snapshot: Snapshot,
}

/// The system after all that happened by the journals of a file up to a stamp, of the model and the injections of two
/// others; else why there is none.
pub(crate) fn show_files<S: Shelf>(
    alloc: Global,
    shelf: &mut S,
    files: Judged,
    at: u64,
) -> Result<View, Refusal>
    ensures ok { IfOk result (λ v.
        (plant : RunPlant) × (lines : List InjectedLine) × (journals : RunJournals)
        × IsSeen (S.shown shelf.old) (judged_view files.entry) at plant lines journals v.snapshot
        × (v.wiring ≡ plant.wiring)) }
    ensures err { IfErr result (λ why. ShowCauses (S.shown shelf.old) (S.shown shelf.new)
        (judged_view files.entry) at why) }
    ensures keeps { Keeps (S.shown shelf.old) (S.shown shelf.new) }
{
    // Laws, and no code: neither what is shown nor a verdict depends on the tables that were compiled.
    shows_are_by_charts();
    verdicts_are_by_charts();
    let it = match read_judged(alloc, shelf, files) {
        Ok(it) => it,
        Err(why) => return Err(why),
    };
    let seen = match show(alloc, &it.plant, it.lines.as_slice(), &it.journals, at) {
        Ok(seen) => seen,
        Err(AllocError) => return Err(Refusal::Memory),
    };
    match seen {
        Seen::Shown(snapshot) => Ok(View {
            wiring: it.plant.wiring,
            snapshot,
        }),
        Seen::Unlawful(verdict) => Err(Refusal::Unlawful {
            verdict,
            controllers: it.plant.wiring.controller_count(),
        }),
    }
}

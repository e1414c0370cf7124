//! Where the lines of a run come from, part by part.
ghost use Rattle.std.specs.Prelude.{◌≡◌, ℕ, [], List, false, IfOk, OnOk};
ghost use Rattle.room_wiring.specs.declared.tables.Tables.{Tables};
ghost use Rattle.inject_reader.specs.Fitting.{LinesFit};
ghost use Rattle.inject_reader.specs.declared.inject_lines.accepted.Line.{Line as Accepted};
ghost use Rattle.model_run.specs.part_source.Parts.{NextPart};
ghost use Rattle.model_run.specs.part_source.Calls.{Seen, seen};

use controller::{Controller, Environment};
use inject_reader::inject_lines::Line;
use std::alloc::{AllocError, Global};

/// A source of lines, which a run asks for the next part when all is quiet.
///
/// A source stands at a part: lines that ask for a message each. First it stands at the first part, which may
/// be empty. Before each later part stand lines that ask for none, `settle` or `advance`. What a later part has
/// may depend on all that was done before.
pub trait PartSource: Sized {
    /// All lines so far, to the end of the part at which it stands.
    ghost given: { Self → List Accepted };

    /// The lines of that part.
    ghost stands_at: { Self → List Accepted };

    /// The numbers of the lines behind that part, as the source tells them.
    ghost left: { Self → List ℕ };

    /// All lines that it gives name what this wiring has: each message goes to an end place, a service access
    /// point's and a service provision point's among them.
    ghost fits: { Tables → Self → Type 0 };

    /// What it may become when it is asked and sees these journals.
    ghost goes_on: { Self → Seen → Self → Type 0 };

    /// The part at which it stands. It takes no memory.
    fn part(&self) -> &[Line]
        ensures { result.now ≡ stands_at self.now };

    /// Goes to the next part. All is quiet; the controllers, in order of number, and the environment show what
    /// was done so far. False where no part is left.
    fn next_part(
        &mut self,
        alloc: Global,
        controllers: &[Controller],
        environment: &Environment,
    ) -> Result<bool, AllocError>
        ensures next { IfOk result (λ more.
            NextPart (given self.old) (given self.new) (stands_at self.new) more) }
        ensures over { IfOk result (λ more. more ≡ false → left self.new ≡ []) }
        ensures goes_on { IfOk result (λ more.
            goes_on self.old (seen controllers.now environment.now) self.new) }
        ensures fits { OnOk result ((wiring : Tables) → fits wiring self.old
            → fits wiring self.new) };

    /// The numbers of the lines behind the part at which it stands.
    fn numbers_left(&self, alloc: Global) -> Result<Vec<u32>, AllocError>
        ensures { IfOk result (λ numbers. numbers.items ≡ left self.now) };

    /// So do those of the part at which it stands.
    ghost part_fits: { (wiring : Tables) (source : Self) → fits wiring source
        → LinesFit wiring (stands_at source) };
}

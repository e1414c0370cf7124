//! The texts of names.
ghost use Rattle.std.specs.Prelude.{◌≡◌, nat_lt, true, IfOk, IsAscii};
ghost use Rattle.std.specs.List.{list_all};
ghost use Rattle.wiring_plan.specs.wiring_classes.Labels.{label_of};

use room_wiring::Label;
use std::alloc::{AllocError, Global};

fn is_ascii(name: &[u8]) -> bool
    ensures { result ≡ list_all (λ b. nat_lt b 128) name.now }
{
    name.iter().all(|byte| *byte < 128)
}

/// The text of a name. Names of the language are ASCII; one that isn't has an empty text.
#[tactic(auto, unfolding(crate::specs::wiring_classes::Labels::label_of), using(crate::proofs::wiring_classes::Ascii::ascii_from_all))]
pub fn label_of(alloc: Global, name: &[u8]) -> Result<Label, AllocError>
    ensures { IfOk result (λ l. l ≡ label_of name.now) }
{
    if is_ascii(name) {
        Label::from_ascii(alloc, name)
    } else {
        Label::from_text(alloc, "")
    }
}

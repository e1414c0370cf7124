//! What the text calls the classes of slots and their kinds.
ghost use Rattle.std.specs.Prelude.{◌≡◌, ◌<◌, length};
ghost use Rattle.binding_expand.specs.tree_text.Names.{class_text, kind_text};

use room_kinds::ReferenceKind;
use room_wiring::Wiring;

/// The name of a class.
#[tactic(auto, unfolding(crate::specs::tree_text::Names::class_text))]
pub fn class_name(wiring: &Wiring, class: u16) -> &[u8]
    requires { class < length wiring.now.classes }
    ensures { result.now ≡ class_text wiring.now class }
{
    wiring.class(class).name.as_bytes()
}

/// The word for the kind of a slot.
pub fn kind_word(kind: ReferenceKind) -> &'static [u8]
    ensures { result.now ≡ kind_text kind }
{
    match kind {
        ReferenceKind::Fixed => b"fixed",
        ReferenceKind::Optional => b"optional",
        ReferenceKind::Imported => b"imported",
    }
}

//! Keys of paths, by which those are compared without a search.
ghost use Rattle.std.specs.Prelude.{◌≡◌, ◌++◌, OnOk};
ghost use Rattle.derived_classes.specs.Keys.{code, codes};

use room_ast::Name;
use std::alloc::AllocError;

/// Adds a name: each byte behind a 1, and a 0 at the end.
#[tactic(auto, using(crate::proofs::KeyLaws::code_start, crate::proofs::KeyLaws::code_next))]
pub(super) fn put_name(key: &mut Vec<u8>, name: &[u8]) -> Result<(), AllocError>
    ensures { OnOk result (key.new.items ≡ key.old.items ++ code name.now) }
{
    for byte in name {
        key.push(1)?;
        key.push(*byte)?;
    }
    key.push(0)?;
    Ok(())
}

/// Adds the names of a path.
#[tactic(auto, using(crate::proofs::KeyLaws::codes_start, crate::proofs::KeyLaws::codes_next))]
pub(super) fn put_names(key: &mut Vec<u8>, names: &[Name]) -> Result<(), AllocError>
    ensures { OnOk result (key.new.items ≡ key.old.items ++ codes names.now) }
{
    for name in names {
        put_name(key, name.as_bytes())?;
    }
    Ok(())
}

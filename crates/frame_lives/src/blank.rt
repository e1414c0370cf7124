//! What stands where nothing was ever written.
ghost use Rattle.std.specs.Prelude.{◌≡◌, OnOk};
ghost use Rattle.frame_lives.specs.Lengthened.{IsLengthened};

use std::alloc::{AllocError, Global};

/// A type of items of which one, the blank, stands where nothing was ever written.
pub trait Blank {
    ghost no_item: { Self };

    /// The blank. It takes no memory.
    fn blank(alloc: Global) -> Self
        ensures { result ≡ no_item };
}

/// Items are lengthened by blanks until they reach a place.
pub fn lengthen<T: Blank + Drop>(
    items: &mut Vec<T>,
    alloc: Global,
    place: usize,
) -> Result<(), AllocError>
    ensures { OnOk result (IsLengthened T.no_item items.old.items items.new.items place) }
{
    while items.len() <= place {
        items.push(T::blank(alloc))?;
    }
    Ok(())
}

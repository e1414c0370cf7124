//! A list that several owners share.
ghost use Rattle.std.specs.Prelude.{◌≡◌, ◌==◌, length, IfOk};

use std::alloc::{AllocError, Global};
use std::marker::Model;
use std::sync::Arc;

/// Items in order, which never change and are kept once, however many owners they have.
#[derive(Drop, Debug)]
pub struct SharedSequence<T> {
    items: Arc<Vec<T>, Global>,
}

impl<T> Model for SharedSequence<T> {
    ghost use Rattle.std.specs.Prelude.{List};
    ghost use Rattle.std.specs.Arc.{arc_value};

    ghost Value = { List T };

    ghost view = { λ s. (arc_value s.items).items };
}

impl<T: Drop> SharedSequence<T> {
    /// The vector's items, with no copy.
    pub fn of(alloc: Global, items: Vec<T>) -> Result<Self, AllocError>
        ensures { IfOk result (λ s. s ≡ items.items) }
    {
        let items = Arc::new(alloc, items)?;
        Ok(SharedSequence { items })
    }

    pub fn len(&self) -> usize
        ensures { result ≡ length self.now }
    {
        self.items.len()
    }

    pub fn is_empty(&self) -> bool
        ensures { result ≡ (length self.now == 0) }
    {
        self.items.is_empty()
    }

    pub fn as_slice(&self) -> &[T]
        ensures { result.now ≡ self.now }
    {
        self.items.as_slice()
    }

    /// One more owner of the same items. It takes no memory.
    pub fn share(&self) -> Result<Self, AllocError>
        ensures { IfOk result (λ s. s ≡ self.now) }
    {
        let items = Arc::try_clone(&self.items)?;
        Ok(SharedSequence { items })
    }
}

//! A page of items.
ghost use Rattle.std.specs.Prelude.{◌≡◌, ◌<◌, [], length, IsSome, OnOk};
ghost use Rattle.std.specs.Borrow.{sem};
ghost use Rattle.frame_lives.specs.Lengthened.{IsLengthened};
ghost use Rattle.frame_lives.specs.Items.{item_or, item_or_mut, item_of};
ghost use Rattle.frame_lives.specs.PageLends.{lends_item, lends_if_there};

use crate::blank::{Blank, lengthen};
use std::alloc::{AllocError, Global};
use std::marker::Model;

/// Items from the first of a page to the last that was reached. Behind their end stand blanks.
#[derive(Drop)]
pub struct Page<T> {
    items: Vec<T>,
}

impl<T> Model for Page<T> {
    ghost use Rattle.std.specs.Prelude.{List};

    ghost Value = { List T };

    ghost view = { λ p. p.items.items };
}

impl<T: Blank + Drop> Blank for Page<T> {
    ghost no_item = { [] };

    fn blank(alloc: Global) -> Page<T> {
        Page {
            items: Vec::new(alloc),
        }
    }
}

impl<T: Blank + Drop> Page<T> {
    /// The item at a place, if the page reaches it.
    pub fn get(&self, place: usize) -> Option<&T>
        ensures { item_or T.no_item result ≡ item_of T.no_item self.now place }
    {
        self.items.as_slice().get(place)
    }

    /// The item at a place, to be changed, if the page reaches it.
    pub fn get_mut(&mut self, place: usize) -> Option<&mut T>
        ensures* writes_back { sem 𝓛 (lends_if_there T.row self.entry place result) }
        ensures there { IsSome result → place < length self.old }
        ensures value { item_or_mut T.no_item result ≡ item_of T.no_item self.old place }
    {
        self.items.get_mut(place)
    }

    /// The page reaches a place.
    pub fn lengthen(&mut self, alloc: Global, place: usize) -> Result<(), AllocError>
        ensures { OnOk result (IsLengthened T.no_item self.old self.new place) }
    {
        lengthen(&mut self.items, alloc, place)?;
        Ok(())
    }

    /// The item at a place that the page reaches, to be changed.
    pub fn item_mut(&mut self, place: usize) -> &mut T
        requires { place < length self.old }
        ensures* writes_back { sem 𝓛 (lends_item T.row self.entry place result) }
        ensures value { result.now ≡ item_of T.no_item self.old place }
    {
        &mut self.items[place]
    }
}

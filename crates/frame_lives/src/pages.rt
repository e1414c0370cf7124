//! Items by number in pages.
ghost use Rattle.std.specs.Prelude.{◌≡◌, [], IsSome, OnOk, IfOk};
ghost use Rattle.std.specs.Borrow.{sem};
ghost use Rattle.frame_lives.specs.Items.{item_or, item_or_mut, item_in, IsThere, IsReached};
ghost use Rattle.frame_lives.specs.PagesLend.{lends_item, lends_if_there, lends_reached};

use crate::blank::{Blank, lengthen};
use crate::page::Page;
use std::alloc::{AllocError, Global};
use std::marker::Model;

/// How many items a page has at most.
const PAGE: usize = 32;

/// Items by number, in pages of 32. A page reaches as far as the last item that was reached in it, and
/// behind the last page and behind the end of each stand blanks: so items that nobody reached take memory
/// only where a later one of their page was reached, and an empty list for each page before the last. An
/// item is found by its number, without a search. Contracts see the pages, and speak of items by their
/// numbers (`item_in`).
#[derive(Drop)]
pub struct Pages<T> {
    alloc: Global,
    pages: Vec<Page<T>>,
}

impl<T> Model for Pages<T> {
    ghost use Rattle.std.specs.Prelude.{List};

    ghost Value = { List (List T) };

    ghost view = { λ x. x.pages.items };
}

impl<T: Blank + Drop> Pages<T> {
    /// Blanks alone. It takes no memory.
    pub fn new(alloc: Global) -> Pages<T>
        ensures { result ≡ [] }
    {
        Pages {
            alloc,
            pages: Vec::new(alloc),
        }
    }

    /// The item at a place; `None` stands for a blank. It takes no memory.
    pub fn get(&self, place: usize) -> Option<&T>
        ensures { item_or T.no_item result ≡ item_in T.no_item self.now place }
    {
        match self.pages.as_slice().get(place / PAGE) {
            Some(page) => page.get(place % PAGE),
            None => None,
        }
    }

    /// The item at a place, or a blank. It takes no memory.
    pub fn item(&self, place: usize) -> T
    where
        T: Copy,
        ensures { result ≡ item_in T.no_item self.now place }
    {
        match self.get(place) {
            Some(item) => *item,
            None => T::blank(self.alloc),
        }
    }

    /// The item at a place, to be changed; `None` stands for a blank. It takes no memory.
    pub fn get_mut(&mut self, place: usize) -> Option<&mut T>
        ensures* writes_back { sem 𝓛 (lends_if_there T.row self.entry place result) }
        ensures there { IsSome result → IsThere self.old place }
        ensures value { item_or_mut T.no_item result ≡ item_in T.no_item self.old place }
    {
        match self.pages.get_mut(place / PAGE) {
            Some(page) => page.get_mut(place % PAGE),
            None => None,
        }
    }

    /// The item at a place, to be changed. Where there is none, blanks are made as far as the place. Where
    /// memory is wanting, the items before it may have been made.
    pub fn reach(&mut self, place: usize) -> Result<&mut T, AllocError>
        ensures* writes_back { sem 𝓛 (lends_reached T.row T.no_item self.entry place result) }
        ensures value { IfOk result (λ x. x.now ≡ item_in T.no_item self.old place) }
    {
        self.lengthen(place)?;
        Ok(self.item_mut(place))
    }

    /// The pages reach a place.
    fn lengthen(&mut self, place: usize) -> Result<(), AllocError>
        ensures { OnOk result (IsReached T.no_item self.old self.new place) }
    {
        let page = place / PAGE;
        lengthen(&mut self.pages, self.alloc, page)?;
        self.pages[page].lengthen(self.alloc, place % PAGE)?;
        Ok(())
    }

    /// The item at a place that the pages reach, to be changed.
    fn item_mut(&mut self, place: usize) -> &mut T
        requires { IsThere self.old place }
        ensures* writes_back { sem 𝓛 (lends_item T.row self.entry place result) }
        ensures value { result.now ≡ item_in T.no_item self.old place }
    {
        let page = &mut self.pages[place / PAGE];
        page.item_mut(place % PAGE)
    }
}

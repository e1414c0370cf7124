//! Links: whom the name table joins, and what the owners of the joined service points know of it.

ghost use Rattle.law_names.specs.Links.{TableStaysSound, JoinsAreSingle, RunsKeepTablesSound, RunsForetellLinks, QuietLinksAgree, QuietNamesAgree};

/// The name table of controller 0 is sound. `stays`: each of its duties keeps it so, where an endpoint
/// that registers doesn't stand in it yet. `single`: in a sound table no place is a side of two links.
/// `runs`: it is sound at every moment.
pub fn tables_are_sound<M>()
    ensures stays { TableStaysSound }
    ensures single { JoinsAreSingle }
    ensures runs { RunsKeepTablesSound M }
{}

/// At every moment, what a place of a live actor is linked to at its owner, changed by the Bound and Ended
/// on their way from the name table, is what the table links it to; and where nobody lives there is no link.
pub fn links_foretell<M>()
    ensures { RunsForetellLinks M }
{}

/// In a quiet world what a place of a live actor is linked to at its owner is what the name table links it
/// to, seen from either side.
pub fn links_agree<M>()
    ensures { QuietLinksAgree M }
{}

/// In a quiet world owners and name table agree on links, and every endpoint that stands in the table is of
/// a live actor.
pub fn names_agree<M>()
    ensures { QuietNamesAgree M }
{}

//! What all controllers agree on, where all is quiet.

ghost use Rattle.law_names.specs.Agreed.{QuietWorldsAreAgreed, DoneRunsAreAgreed};

/// All controllers agree: each directory tells what lives; an import place holds a home exactly where the home
/// lives and has it among its plugs; the links of live actors are those of the name table; and where the peer
/// of a place is a live actor's, that one's peer is the first. `quiet`: wherever a run is quiet at its end.
/// `done`: in the world that the journals of a done run lead to.
pub fn all_agree<M>()
    ensures quiet { QuietWorldsAreAgreed M }
    ensures done { DoneRunsAreAgreed M }
{}

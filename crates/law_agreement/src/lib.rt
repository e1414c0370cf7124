//! Agreement: wherever a run of the world is quiet, all controllers agree on which actors live, and which
//! are lent to which containers. Laws that hold of every run, as functions without a body, whose contract is
//! the law; they hold over any kind `M` of machine and any tables.
//!
//! Their premises: actors and the lines of the environment send nothing at priority 0, which is the system's.
#![tactic(auto)]

ghost use Rattle.law_agreement.specs.Trails.{TrailsAreQueues, QuietTrailsAreEmpty};
ghost use Rattle.law_agreement.specs.Senders.{OwnersTell};
ghost use Rattle.law_agreement.specs.Announced.{RunsForetell, QuietDirectoriesAgree};
ghost use Rattle.law_agreement.specs.Bodies.{RunsForetellParts, QuietBodiesAgree, ContainersLive};
ghost use Rattle.law_agreement.specs.Settled.{DoneRunsAgree, DoneImportsAgree};
ghost use Rattle.law_agreement.specs.Mutual.{OrderlyPeersAgree, RunsLiveInHomes};
ghost use Rattle.law_agreement.specs.Imports.{RunsRouteLoans, RunsLendToTheLiving, RunsAwait, QuietPlacesSettle};
ghost use Rattle.law_agreement.specs.Loans.{RunsKeepRows, RunsPlugOnce};
ghost use Rattle.law_agreement.specs.Held.{QuietImportsAgree};
ghost use Rattle.law_agreement.specs.Plugs.{RunsFitPlugs};

/// The system messages on their way from one controller to another are a queue. `steps`: an event that is
/// not a turn leaves every trail as it is; a turn takes the front of at most one, and appends what it sends.
/// `quiet`: in a quiet world all of them are empty.
pub fn trails_are_queues<M>()
    ensures steps { TrailsAreQueues M }
    ensures quiet { QuietTrailsAreEmpty M }
{}

/// What is on its way from one controller to another and tells of an actor's life tells of a slot of the
/// sender's own.
pub fn owners_tell<M>()
    ensures { OwnersTell M }
{}

/// Directories agree with the owners of the slots. `runs`: at every moment, what a directory tells of a
/// slot that is announced to it, changed by the Announces on their way, is what stands in the slot at its
/// owner. `quiet`: so in a quiet world the directory itself tells that.
pub fn directories_agree<M>()
    ensures runs { RunsForetell M }
    ensures quiet { QuietDirectoriesAgree M }
{}

/// The body of an optional slot, all that it reaches by fixed references, lives exactly where the slot
/// does, whoever owns its parts. `runs`: at every moment each part lives as a whole or not at all: at the
/// slot's owner as the slot does, and elsewhere where PartMake and PartEnd on their way count, which
/// alternate. `quiet`: so in a quiet world the body lives exactly where the slot does.
pub fn bodies_agree<M>()
    ensures runs { RunsForetellParts M }
    ensures quiet { QuietBodiesAgree M }
{}

/// A live optional slot has a live container, at every moment.
pub fn containers_live<M>()
    ensures { ContainersLive M }
{}

/// Where a whole run is done, all controllers agree on which actors live, in the world that its journals
/// lead to: what directories tell, what lives of the body of an optional slot, and that a live optional slot
/// has a live container.
pub fn done_runs_agree<M>()
    ensures { DoneRunsAgree M }
{}

/// An Import or a Deport on its way comes from the controller of its import place and goes to the controller
/// of the home that it names; and what is answered goes from the home's controller to the place's. Premise:
/// an imported slot is its container's owner's.
pub fn loans_are_routed<M>()
    ensures { RunsRouteLoans M }
{}

/// At every moment only a live container has import places that ask for, hold or give back a home, which is
/// an actor of a fixed or optional slot; and only live actors have plugs, each of which is an import place.
pub fn loans_are_of_the_living<M>()
    ensures { RunsLendToTheLiving M }
{}

/// Import places settle. `runs`: at every moment, while a place asks for a home or gives it back, its message
/// is on the trail to the home's owner, or an answer on the trail back. `quiet`: so where a run is quiet at
/// its end, each import place is empty or holds a home. Premise there: each slot's owner is a controller.
pub fn places_settle<M>()
    ensures runs { RunsAwait M }
    ensures quiet { QuietPlacesSettle M }
{}

/// Where the peer of a place of a live actor is a place of a live actor, that one's peer is the first: in any
/// orderly world in which directories, imports and links agree. Premises on the wiring: partners are each
/// other's, and who may have to know of a slot is told of it.
pub fn peers_agree<M>()
    ensures { OrderlyPeersAgree M }
{}

/// Only fixed and optional slots live, each in a generation from 1 on. Premise: slots are numbered depth first.
pub fn only_homes_live<M>()
    ensures { RunsLiveInHomes M }
{}

/// The rows of an import place and a home. `rows`: at every moment each import place and each home stand in a
/// row of the table: how the place stands to the home, which of their messages are on their way, and how often
/// the place is among the home's plugs. `once`: so no place stands twice among the plugs of a home. Premises:
/// an imported slot is its container's owner's, and for `once` it has a container.
pub fn loans_keep_rows<M>()
    ensures rows { RunsKeepRows M }
    ensures once { RunsPlugOnce M }
{}

/// All controllers agree on imports wherever a run is quiet at its end: each import place of a live container
/// is empty or holds a home that lives and has it once among its plugs, and each plug is such a place.
/// Premises beside: each slot's owner is a controller, and an imported slot has a container.
pub fn imports_agree<M>()
    ensures { QuietImportsAgree M }
{}

/// The plugs of a home fit, at every moment: of a home's plugs at most one has a place of a port joined to an
/// end place, and none has where the home's own place is joined to something. What an import place is tied to,
/// and what a plug holds, is an actor of a slot of the imported slot's class.
pub fn plugs_fit<M>()
    ensures { RunsFitPlugs M }
{}

/// Where a whole run is done, all controllers agree on imports, in the world that its journals lead to.
/// Premises: an imported slot has a container, whose owner is its own, and each slot's owner is a controller.
pub fn done_imports_agree<M>()
    ensures { DoneImportsAgree M }
{}

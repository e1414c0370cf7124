//! The behaviour of a model's charts: what actors do by the tables of their classes, as the world's
//! definitions ask for it, and the laws of it that laws of the world rest on.
//!
//! An actor's machine takes a message as a whole (run to completion: Selic, Gullekson and Ward 1994). A
//! class without a chart has actors that handle nothing. The laws are functions without a body, whose
//! contract is the law.
#![tactic(auto)]

pub mod chart_defers;
pub mod sends;

ghost use Rattle.chart_behaviour.specs.Laws.{MachinesBegin, MachinesHandle, ChartsAreModest, ChartsAskOnly, ChartsAreOpen, ChartsAreStatic};

pub use chart_defers::charts_tell_defers;

/// Machines that run tables do what the behaviour says: at their start, and at each message.
pub fn machines_behave()
    ensures begin { MachinesBegin }
    ensures handle { MachinesHandle }
{}

/// What actors note by themselves says nothing of lives.
pub fn charts_are_modest()
    ensures { ChartsAreModest }
{}

/// An actor asks for nothing but what the programs of its class may ask for. So where programs send
/// nothing at the system level, actors don't; and where programs neither create, destroy or lend actors
/// nor meet by name, actors don't.
pub fn charts_ask_only()
    ensures only { ChartsAskOnly }
    ensures openly { ChartsAreOpen }
    ensures statically { ChartsAreStatic }
{}

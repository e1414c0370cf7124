//! Laws that say definitions which go along a list or a tree again, in the words of their subject: which
//! program a text has, which places a binding pairs, who owns what stands at the end of a way, and which ports an
//! imported slot has. `message_forms` says which forms system messages have on their way.
//!
//! No code: the laws alone.
#![tactic(auto)]

ghost use Rattle.law_definitions.specs.Codes.{CodesHaveOneProgram};
ghost use Rattle.law_definitions.specs.Imported.{ImportedSlotsHaveEndPorts};
ghost use Rattle.law_definitions.specs.Owners.{OwnersHaveTheLongestMapping, SlotsAreOwned};
ghost use Rattle.law_definitions.specs.Places.{BindingsTakeFreePlaces};

pub mod message_forms;

/// The program of a code is the one whose tokens are those of its text, within the limits of the language; there
/// is none exactly where the text has none. So it is of conditions.
pub fn codes_have_one_program()
    ensures { CodesHaveOneProgram }
{}

/// A binding pairs the first places of its sides that no earlier binding of its class paired.
pub fn bindings_take_free_places()
    ensures { BindingsTakeFreePlaces }
{}

/// The owner that is found by going along a way into references is the controller of the longest mapped path that
/// leads there or to a container of it, of equally long ones the last declared; controller 0 where none does. So it
/// is of every slot of a structure; an imported one has its container's owner.
pub fn owners_have_the_longest_mapping()
    ensures ways { OwnersHaveTheLongestMapping }
    ensures slots { SlotsAreOwned }
{}

/// A port of an imported slot is no relay port and no service provision point. `frame` has one place there, an end
/// port of the Interface as many as it declares, as at each slot of the class; all others have none.
pub fn imported_slots_have_end_ports()
    ensures { ImportedSlotsHaveEndPorts }
{}

//! Laws of the classes of a model whose charts have no fault: the names that its wiring has of a class fit
//! the class's chart.
//!
//! Each program names what its class has, and the labels of a class's states are those of its chart,
//! number by number. No code: the laws.

ghost use Rattle.law_models.specs.class_laws.Commands.{ActorsAskWhatTheyCan};
ghost use Rattle.law_models.specs.class_laws.Laws.{ChartsNameTheirClass, StatesAreLabelled, TablesNameTheirClass};

/// What a class's chart runs, and the tables that are compiled from the chart, names what the class has: its
/// ports and the messages that go out or come in there, references of the kind that is needed, the numbers
/// of its attributes, and the priorities from 1 to 5.
pub fn charts_name_their_class()
    ensures charts { ChartsNameTheirClass }
    ensures tables { TablesNameTheirClass }
{}

/// The labels of the states that a wiring has of a class are those of the class's chart, number by number.
pub fn states_are_labelled()
    ensures { StatesAreLabelled }
{}

/// An actor asks for nothing but what its class can ask for: a send at a port of the class, of a message that
/// goes out there, at a priority from 1 to 5; a request on a reference of the kind that is needed; a service
/// name for a service point.
pub fn actors_ask_what_they_can()
    ensures { ActorsAskWhatTheyCan }
{}

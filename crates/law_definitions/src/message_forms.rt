//! The forms of system messages: what is on its way from one controller to another, in every run.
//!
//! No code: the law, as a function without a body; it holds over any kind `M` of machine and any tables.

ghost use Rattle.law_definitions.specs.message_forms.Forms.{RunsSendForms, RunsStandOnTrails};

/// What is sent at the system's priority, at every moment. `forms`: each message on its way from one controller
/// to another is of one of the nineteen kinds and has the form of its kind: from whom to whom it goes, that
/// these are the two controllers', and which numbers it tells. `alone`: all system messages are on their way
/// so, wherever they wait. Premises: actors and lines send nothing at priority 0, which is the system's, and for
/// `forms` an imported slot is its container's owner's.
pub fn messages_have_their_forms<M>()
    ensures forms { RunsSendForms M }
    ensures alone { RunsStandOnTrails M }
{}

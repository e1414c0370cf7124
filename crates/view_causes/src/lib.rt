//! What is wrong where a text is refused, and where.
//!
//! The rules say that a model is refused, and not where. The places are found by trial: a part of the text whose
//! absence mends the fault is a cause of it (`find_causes`). So one search serves all rules, and who asks them is a
//! `Judge`, the program itself. Of a fault of syntax it is tried what could have stood in its place (`could_stand`).
//!
//! What the text shows comes first: which name isn't there and which are, which part of a chart has no way on, which
//! statement of a code is none.
//! `chart_causes` looks at the whole chart of a class, so that what is told are causes alone. `rule_cause` looks at
//! a part that was found to be the cause of a broken rule, and `base_cause` at one where the rule is on bases;
//! `system_causes` looks at what a system names. All of them name what there is in place of what there isn't.
//!
//! All calls are safe and end; that they tell what they should is shown by cases.
#![tactic(auto)]

mod cause;
mod charts;
mod circles;
mod code_causes;
mod declared;
mod draft;
mod meanings;
mod misread;
mod name_causes;
mod names;
mod rule_causes;
mod search;
mod shape_causes;
mod shapes;
mod sides;
mod syntax;
mod triggers;

pub use cause::Cause;
pub use charts::{FaultyChart, chart_causes};
pub use meanings::{base_meaning, chart_meaning, rule_meaning, wiring_meaning};
pub use misread::word_meaning;
pub use names::named_by;
pub use rule_causes::{base_cause, rule_cause, system_causes};
pub use search::{Judge, find_causes};
pub use syntax::{Unread, could_stand};

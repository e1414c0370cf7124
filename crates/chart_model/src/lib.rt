//! Charts of actor classes by the names of their states, and what they do with messages: definitions alone.
//!
//! State machines are ROOM's (Selic, Gullekson and Ward 1994) in eTrice's textual form. The order in which transitions are
//! tried, the chain, the history rule and the faults are this project's own. The definitions stand over any kind of names
//! (`chart_plan`), so that a chart by names and its tables by numbers have one meaning.
#![tactic(auto)]

pub mod chart_plan;

//! The whole program over texts and sinks in memory, where calls fail on demand: each read, each write,
//! each allocation, a sink without room, texts that are cut anywhere, and a gate at which controllers are held and
//! meet. What it answers where nothing fails is tried over files. And what callers can do with shelves, sinks, files and
//! gates, and the program doesn't show.
#![tactic(auto)]

#[cfg(test)]
mod call_tests;
#[cfg(test)]
mod case;
#[cfg(test)]
mod cut_tests;
#[cfg(test)]
mod growth_tests;
#[cfg(test)]
mod meet_tests;
#[cfg(test)]
mod outside_tests;
#[cfg(test)]
mod rows;

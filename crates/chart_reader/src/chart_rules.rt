//! The rules of charts that speak of names and transitions, and not of programs.
//!
//! Each is a test on a chart by names; `chart_model` says what a valid chart is. That nodes lead in
//! no circle is judged elsewhere.

mod counts;
mod index;
mod names;
mod rules;
mod sources;
mod terminals;

pub(crate) use index::{ChartIndex, border_keys};
pub(crate) use rules::{
    has_defaults, has_initials, has_one_initial_at_most, has_right_names, is_shallow,
};

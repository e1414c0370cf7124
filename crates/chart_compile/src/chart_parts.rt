//! When tables are those of a chart, part by part: definitions alone.

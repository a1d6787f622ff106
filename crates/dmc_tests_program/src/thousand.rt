//! A thousand runs in a row.
mod clock;
mod scenes;
mod thousand_runs;
mod totals;
mod words;

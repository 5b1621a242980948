//! Worked rows of words and texts: files and sinks, lines and numbers, task files read and written, blocks of plans, and
//! lists checked.
//!
//! There is no call: tests stand apart from the crates of which they are, so that those are proved once. It
//! stands on `symk_text`, `symk_io`, `symk_words`, `sas_reader`, `sas_writer`, `plan_out` and `small_tasks`.
#![tactic(auto)]

#[cfg(test)]
mod files;
#[cfg(test)]
mod lines;
#[cfg(test)]
mod lists;
#[cfg(test)]
mod reading;
#[cfg(test)]
mod words;
#[cfg(test)]
mod writing;

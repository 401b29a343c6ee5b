//! Tests of the model and of the texts of scenarios and transcripts, by worked histories and printed words.
//!
//! Whole outputs are compared in `examples/`, and lines outside the grammar in `tests/`.
#![tactic(auto)]

#[cfg(test)]
mod histories;
#[cfg(test)]
mod scenarios;
#[cfg(test)]
mod transcripts;

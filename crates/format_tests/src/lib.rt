//! Tests of the formats by outside values: entries, commands and their bodies, completions, events and
//! requests as the bytes and words that other readers of the same layouts have.
#![tactic(auto)]

#[cfg(test)]
mod bodies;
#[cfg(test)]
mod commands;
#[cfg(test)]
mod completions;
#[cfg(test)]
mod fields;
#[cfg(test)]
mod requests;

//! Tests of the execution of commands, by worked values.
#![tactic(auto)]

#[cfg(test)]
mod boot;
#[cfg(test)]
mod refusals;
#[cfg(test)]
mod steps;

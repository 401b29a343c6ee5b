//! Tests of the bus, of the queues that lie in its words, and of where they lie, by worked values.
#![tactic(auto)]

#[cfg(test)]
mod buses;
#[cfg(test)]
mod completions;
#[cfg(test)]
mod places;
#[cfg(test)]
mod requests;
#[cfg(test)]
mod rings;

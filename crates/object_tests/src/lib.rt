//! Examples of use of the objects of the interface, each with worked values.
#![tactic(auto)]

#[cfg(test)]
mod arms;
#[cfg(test)]
mod cells;
#[cfg(test)]
mod commands;
#[cfg(test)]
mod events;
#[cfg(test)]
mod memory_keys;
#[cfg(test)]
mod qp_states;
#[cfg(test)]
mod shared_receives;
#[cfg(test)]
mod start_order;

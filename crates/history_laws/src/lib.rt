//! Laws of legal histories, in the words of somebody who looks for lost and doubled completions.
#![tactic(auto)]

pub mod laws;

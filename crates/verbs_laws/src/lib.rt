//! What holds of the abstract state after every legal step, as lemmas that laws above cite (`proofs/`):
//! its invariant is kept by each entry, and what threads owe goes down by what they said.
#![tactic(auto)]

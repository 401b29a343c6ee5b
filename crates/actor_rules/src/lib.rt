//! The rules of all actors over their own operations, and what holds between the operations of a run in which each
//! keeps its rule (`specs/`), with the lemmas that the laws of the actors share (`proofs/`).
#![tactic(auto)]

//! What stands before an operation of a poll, and what the operation may come to (`specs/`), with the lemmas that the
//! laws of loads and of polls share (`proofs/`).
#![tactic(auto)]

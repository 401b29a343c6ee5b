//! What verbs queues are and which histories are legal: the abstract state, the step of each entry with
//! its rules, and what answers a call. It is definitions alone (`specs/`): no ring, no owner bit, no
//! doorbell, but plain lists and whole numbers.
#![tactic(auto)]

//! A legal history, and such as are not.

use sample_objects::{one_pair, two_nops};
use std::test::Fail;
use verbs_model::{Abstract, check_history, start};
use verbs_types::{CheckFault, Entry, Illegal, RuleName};

#[test]
fn two_nops_are_legal(rt: HostRuntime) -> Result<(), Fail> {
    let declared = one_pair(rt.alloc())?;
    let first = start(rt.alloc(), &declared)?;
    let history = two_nops(rt.alloc())?;
    check_history(&first, history.as_slice())?;
    Ok(())
}

/// The first entry without a step.
fn illegal(first: &Abstract, history: &[Entry]) -> Result<Option<Illegal>, CheckFault> {
    match check_history(first, history) {
        Ok(()) => Ok(None),
        Err(CheckFault::Illegal(illegal)) => Ok(Some(illegal)),
        Err(CheckFault::NoMemory) => Err(CheckFault::NoMemory),
    }
}

/// Without the first fetch, the second one or the poll, the entry that comes next has no step.
#[test]
fn first_entry_without_a_step_is_named(rt: HostRuntime) -> Result<(), Fail> {
    let declared = one_pair(rt.alloc())?;
    let first = start(rt.alloc(), &declared)?;
    let cases = [
        (2, RuleName::Count),
        (3, RuleName::Hand),
        (5, RuleName::Count),
    ];
    for (at, rule) in cases {
        let mut history = two_nops(rt.alloc())?;
        if at < history.len() {
            history.remove(at);
        }
        let found = illegal(&first, history.as_slice())?;
        let at = at as u64;
        assert_eq!(rt; found, Some(Illegal { at, rule }));
    }
    Ok(())
}

//! Whether a history is legal.
ghost use Rattle.std.specs.Prelude.{◌≡◌, Some, OnOk, IsErrOf, IfOk};
ghost use Rattle.verbs_types.specs.declared.entry.Illegal.{Illegal};
ghost use Rattle.verbs_rules.specs.Legal.{IsLegal, first_illegal};
ghost use Rattle.verbs_model.specs.Tables.{state_of};

use crate::abstract_state::Abstract;
use std::alloc::AllocError;
use verbs_types::{CheckFault, Entry};

/// Checks that each entry of a history has a step, from this state on.
///
/// `Illegal` names the first entry that has none, and its first failing rule.
pub fn check_history(first: &Abstract, h: &[Entry]) -> Result<(), CheckFault>
    ensures legal { OnOk result (IsLegal (state_of first.now) h.now) }
    ensures illegal { (i : Illegal) → IsErrOf result (CheckFault.Illegal i) → first_illegal (state_of first.now) 0 h.now ≡ Some i }
{
    let mut state = match copy_of(first) {
        Ok(state) => state,
        Err(_) => return Err(CheckFault::NoMemory),
    };
    for (at, e) in h.iter().enumerate() {
        state.apply(at as u64, e)?;
    }
    Ok(())
}

fn copy_of(first: &Abstract) -> Result<Abstract, AllocError>
    ensures { IfOk result (λ a. a ≡ first.now) }
{
    first.clone()
}

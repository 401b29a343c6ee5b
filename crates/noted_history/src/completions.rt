//! The completions that an entry is about.
ghost use Rattle.std.specs.Prelude.{◌≡◌, ℕ, ◌∷◌, ◌≤◌, List, length, map, take, IsTrue, IfOk};
ghost use Rattle.verbs_types.specs.declared.state.Act.{Act};
ghost use Rattle.verbs_types.specs.declared.state.Unpolled.{Unpolled};
ghost use Rattle.verbs_model.specs.Tables.{state_of};

use std::alloc::Global;
use verbs_model::Abstract;
use verbs_types::{Act, Completion, NoMemory};

/// The `count` oldest completions of a completion queue that no poll took.
pub(crate) fn first_unpolled(
    alloc: Global,
    state: &Abstract,
    cq: u32,
    count: usize,
) -> Result<Vec<Completion>, NoMemory>
    requires live { IsTrue ((state_of state.now).device.completions_live cq) }
    requires there { count ≤ length ((state_of state.now).unpolled cq) }
    ensures { IfOk result (λ v. v.items ≡ map (λ (u : Unpolled). u.completion) (take count ((state_of state.now).unpolled cq))) }
{
    let mut completions = Vec::new(alloc);
    for unpolled in &state.unpolled(cq)[..count] {
        completions.push(unpolled.completion).map_err(|_| NoMemory)?;
    }
    Ok(completions)
}

/// The completion that the adapter owes next.
pub(crate) fn owed_completion(state: &Abstract) -> Completion
    requires { (cq : ℕ) × (u : Unpolled) × (acts : List Act) × ((state_of state.now).device.owed ≡ Act.Complete cq u ∷ acts) }
    ensures { (cq : ℕ) (u : Unpolled) (acts : List Act) → (state_of state.now).device.owed ≡ Act.Complete cq u ∷ acts → result ≡ u.completion }
{
    match state.owed() {
        Some(Act::Complete { owed, .. }) => owed.completion,
        None => unreachable!(),
    }
}

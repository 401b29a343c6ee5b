//! How many turns a plan has.
ghost use Rattle.std.specs.Prelude.{◌≡◌, ◌≤◌};
ghost use Rattle.std.specs.List.{sum_by};
ghost use Rattle.scenario_text.specs.Limits.{times_of, turn_count};

use scenario_text::{Plan, PlanItem};

/// How many turns an item stands for.
pub(crate) fn times(item: PlanItem) -> u64
    ensures { result ≡ times_of item }
{
    item.times.unwrap_or(1)
}

/// How many turns a plan has, where there are `threads` threads.
pub(crate) fn turns_of(threads: usize, plan: &Plan) -> u64
    requires threads { threads ≤ 16 }
    requires turns { turn_count threads plan.now ≤ 1048576 }
    ensures { result ≡ turn_count threads plan.now }
{
    match plan {
        Plan::Idle => 0,
        Plan::Schedule(items) => turns_of_items(items.as_slice()),
        Plan::Rounds(rounds) => *rounds * (threads as u64 + 1),
    }
}

fn turns_of_items(items: &[PlanItem]) -> u64
    requires { sum_by times_of items.now ≤ 1048576 }
    ensures { result ≡ sum_by times_of items.now }
{
    let mut turns = 0;
    for item in items {
        turns += times(*item);
    }
    turns
}

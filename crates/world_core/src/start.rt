//! A run before its first turn.
ghost use Rattle.std.specs.Prelude.{◌≡◌, ◌≤◌, ◌^◌, length, IfOk};
ghost use Rattle.actor_map.specs.Map.{map_of};
ghost use Rattle.actor_map.specs.Sizes.{words_of};
ghost use Rattle.thread_actor.specs.Fresh.{CanRun, IsFresh};
ghost use Rattle.world_core.specs.RunInside.{run_view};
ghost use Rattle.world_core.specs.Start.{AreFresh, CanStart, IsFirst, IsFirstBus};

use crate::copies::copy_of_calls;
use crate::log::Log;
use crate::run::Run;
use crate::turns::turns_of;
use actor_map::{AddressMap, set_starts, words};
use bus_core::PlainBus;
use device_engine::Device;
use ready_scenarios::laws::ready;
use scenario_text::Scenario;
use std::alloc::Global;
use thread_actor::ThreadActor;
use verbs_types::{Call, Declared, NoMemory, Sequence};

/// The start word of a scheduled run.
const SCHEDULED: u64 = 1;

/// The run of a scenario before its first turn, with room for all that its turns make.
pub(crate) fn first_run(alloc: Global, scenario: &Scenario) -> Result<Run, NoMemory>
    ensures { IfOk result (λ r. IsFirst scenario.now (run_view r)) }
{
    ready();
    let declared = scenario.declared();
    let turns = turns_of(scenario.programs().len(), scenario.plan());
    let map = map_of_objects(alloc, declared)?;
    Ok(Run {
        bus: first_bus(alloc, declared, turns)?,
        adapter: Device::new(alloc, declared, &map)?,
        threads: threads_of(alloc, declared, &map, scenario.programs())?,
        log: Log::new(alloc, turns as usize)?,
    })
}

/// The map of these objects.
fn map_of_objects(alloc: Global, declared: &Declared) -> Result<AddressMap, NoMemory>
    ensures { IfOk result (λ map. map ≡ map_of declared.now) }
{
    match AddressMap::build(alloc, declared) {
        Ok(map) => Ok(map),
        Err(_) => Err(NoMemory),
    }
}

/// The words with which a run begins, and room for `room` operations.
fn first_bus(alloc: Global, declared: &Declared, room: u64) -> Result<PlainBus, NoMemory>
    requires { words_of declared.now ≤ 2 ^ 20 }
    ensures { IfOk result (IsFirstBus declared.now room) }
{
    let count = words(declared) as u32;
    match PlainBus::new(alloc, count, room) {
        Ok(mut bus) => {
            set_starts(declared, SCHEDULED, &mut bus);
            Ok(bus)
        }
        Err(_) => Err(NoMemory),
    }
}

/// The threads of these programs, which are numbered from 1.
fn threads_of(
    alloc: Global,
    declared: &Declared,
    map: &AddressMap,
    programs: &[Sequence<Call>],
) -> Result<Vec<ThreadActor>, NoMemory>
    requires map { map.now ≡ map_of declared.now }
    requires fits { words_of declared.now ≤ 2 ^ 20 }
    requires few { length programs.now ≤ 16 }
    requires run { CanStart declared.now programs.now }
    ensures { IfOk result (λ threads. AreFresh declared.now programs.now threads.items) }
{
    let mut threads = Vec::new(alloc);
    for calls in programs {
        let number = threads.len() as u8 + 1;
        let thread = first_thread(alloc, declared, map, number, calls.as_slice())?;
        match threads.push(thread) {
            Ok(()) => {}
            Err(_) => return Err(NoMemory),
        }
    }
    Ok(threads)
}

/// The thread of this number before the first of these calls.
fn first_thread(
    alloc: Global,
    declared: &Declared,
    map: &AddressMap,
    number: u8,
    calls: &[Call],
) -> Result<ThreadActor, NoMemory>
    requires map { map.now ≡ map_of declared.now }
    requires fits { words_of declared.now ≤ 2 ^ 20 }
    requires run { CanRun declared.now number calls.now }
    ensures { IfOk result (IsFresh declared.now number calls.now) }
{
    match copy_of_calls(alloc, calls) {
        Ok(copy) => ThreadActor::new(alloc, declared, map, number, copy),
        Err(_) => Err(NoMemory),
    }
}

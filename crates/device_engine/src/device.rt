//! The adapter as an actor.
ghost use Rattle.std.specs.Prelude.{◌≡◌, ◌≤◌, ◌^◌, IfOk};
ghost use Rattle.actor_map.specs.Map.{map_of};
ghost use Rattle.actor_map.specs.Sizes.{words_of};
ghost use Rattle.device_engine.specs.First.{IsFresh};

use crate::scan::Scan;
use crate::start::first_scan;
use actor_map::{Actor, AddressMap};
use bus_core::{BusPort, Note};
use std::alloc::Global;
use std::marker::Model;
use verbs_types::{Declared, NoMemory};

/// The adapter, which scans the declared objects, one bus operation a turn: it visits the queue pairs by
/// rising number, and then loads the word of actors that ended. `specs/Rule.antt` says what each operation is.
///
/// A visit of a pair loads the register of its send queue, and the doorbell record where the register is
/// another one than the last. Where the pair may send and the record showed an entry that was not fetched, it
/// reads the next entry, which fetches the request, and publishes the completion of a NOP that wants one.
#[derive(Drop)]
pub struct Device {
    scan: Scan,
}

impl Model for Device {
    ghost use Rattle.device_engine.specs.View.{ScanView};

    ghost Value = { ScanView };

    ghost use Rattle.device_engine.specs.View.{scan_of};
    ghost use Rattle.device_engine.specs.Scan.{IsStanding};

    ghost view = { λ a. scan_of a.scan };

    ghost invariant = { λ a. IsStanding (scan_of a.scan) };
}

impl Device {
    /// An adapter that has made no operation.
    pub fn new(alloc: Global, d: &Declared, map: &AddressMap) -> Result<Device, NoMemory>
        requires map { map.now ≡ map_of d.now }
        requires fits { words_of d.now ≤ 2 ^ 20 }
        ensures { IfOk result (IsFresh d.now) }
    {
        match first_scan(alloc, d, map) {
            Ok(scan) => Ok(Device { scan }),
            Err(_) => Err(NoMemory),
        }
    }
}

impl Actor for Device {
    ghost use Rattle.std.specs.Prelude.{◌^◌, false};
    ghost use Rattle.actor_map.specs.Sizes.{words_of};
    ghost use Rattle.device_engine.specs.Turn.{AdapterTurn};
    ghost use Rattle.device_engine.specs.Counts.{CountsBelow};
    ghost use Rattle.device_engine.specs.View.{rule_of};

    ghost has_ended = { λ v. false };

    ghost program = { λ v. 0 };

    ghost finished = { λ v. 0 };

    ghost words = { λ v. words_of v.declared };

    ghost IsSmall = { λ v. CountsBelow (2 ^ 61) (rule_of v) };

    ghost Turn = { AdapterTurn };

    fn ended(&self) -> bool {
        false
    }

    fn calls(&self) -> u32 {
        0
    }

    fn answered(&self) -> u32 {
        0
    }

    fn turn<P: BusPort>(&mut self, port: &mut P) -> Option<Note> {
        let told = self.scan.operate(port);
        self.scan.go(told.comes);
        told.note
    }
}

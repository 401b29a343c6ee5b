//! The last operation of a thread.
ghost use Rattle.std.specs.Prelude.{◌≤◌, ◌<◌, ◌^◌};
ghost use Rattle.bus_core.specs.Port.{Appends, HasRoom};
ghost use Rattle.bus_core.specs.Operation.{IsSetBits};
ghost use Rattle.bus_core.specs.declared.operation.BusEntry.{BusEntry};
ghost use Rattle.object_places.specs.declared.ended.TheConstants.{ENDED_WORD};

use bus_core::BusPort;
use object_places::ENDED_WORD;

/// Sets the bit of this actor in the word of actors that ended.
pub(crate) fn end<P: BusPort>(number: u8, port: &mut P)
    requires number { number ≤ 16 }
    requires inside { ENDED_WORD < (P.port port.old).words }
    requires room { HasRoom (P.port port.old).room }
    ensures { (e : BusEntry) × Appends (P.port port.old) (P.port port.new) e × IsSetBits ENDED_WORD (2 ^ number) e }
{
    port.set_bits(ENDED_WORD, 1 << number);
}

//! What the words of a send entry ask for, and the completion that answers.
ghost use Rattle.std.specs.Prelude.{◌≡◌, ◌<◌, ◌^◌};
ghost use Rattle.cqe_format.specs.Completion.{IsCompletion};
ghost use Rattle.device_engine.specs.Entry.{wants};
ghost use Rattle.device_engine.specs.Entry.{nop_cqe as nop_of};

use cqe_format::{Cqe, opcode};
use work_entries::{is_wanted, opcode_in};

/// The opcode of a NOP.
const NOP: u8 = 0;

/// Whether the words are those of a NOP that wants a completion.
pub(crate) fn wants_completion(words: &[u64; 32]) -> bool
    ensures { result ≡ wants words.now }
{
    opcode_in(words[0]) == NOP && is_wanted(words[1])
}

/// The completion of a NOP of a queue pair, whose entry's first block has this index.
pub(crate) fn nop_cqe(qp: u32, index: u64) -> Cqe
    requires { qp < 2 ^ 24 }
    ensures cqe { result ≡ nop_of qp index }
    ensures completion { IsCompletion result }
{
    Cqe {
        opcode: opcode::REQUEST,
        sop: NOP,
        qpn: qp,
        srqn: 0,
        imm: 0,
        len: 0,
        counter: (index & 0xffff) as u16,
        syndrome: 0,
        solicited: false,
        format: 0,
    }
}

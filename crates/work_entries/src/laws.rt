//! Laws of entries.

ghost use Rattle.std.specs.Prelude.{◌≡◌, ◌^◌, ◌<◌, ◌≤◌, Ok, length};
ghost use Rattle.std.specs.List.{AllByRecursion};
ghost use Rattle.work_entries.specs.Body.{MayCarry};
ghost use Rattle.work_entries.specs.Laws.{OneEntry, OneList, OneRequest};
ghost use Rattle.work_entries.specs.Opcode.{opcode_of};
ghost use Rattle.work_entries.specs.Receive.{IsReal, room_of};
ghost use Rattle.work_entries.specs.Send.{sent_body, sent_of};

use crate::fault::BadEntry;
use crate::receive::{decode_recv, encode_recv};
use crate::send::{decode_send, encode_send};
use crate::sent::Sent;
use crate::sge_array::SgeArray;
use verbs_types::{Request, Sequence, Sge};

/// No words spell two requests.
pub fn one_request()
    ensures { OneRequest }
{}

/// No request has two entries: each bit of the blocks of an entry is known from what it says.
pub fn one_entry()
    ensures { OneEntry }
{}

/// No words spell two lists of segments.
pub fn one_list()
    ensures { OneList }
{}

/// What is read from the entry of a request is the request.
pub fn request_comes_back(r: &Request, index: u16, qpn: u32) -> Result<Sent, BadEntry>
    requires number { qpn < 2 ^ 24 }
    requires carried { MayCarry (opcode_of r.now.op) (sent_body r.now.body) }
    ensures { result ≡ Ok (sent_of r.now index qpn) }
{
    decode_send(&encode_send(r, index, qpn))
}

/// What is read from the entry of a receive is the list of its segments.
pub fn list_comes_back(sges: &Sequence<Sge>, stride: u32) -> SgeArray
    requires room { length sges.now ≤ room_of stride }
    requires real { AllByRecursion IsReal sges.now }
    ensures { result ≡ sges.now }
{
    let mut words = [0; 16];
    encode_recv(sges, stride, &mut words);
    let mut found = SgeArray::new();
    decode_recv(&words, stride, &mut found);
    found
}

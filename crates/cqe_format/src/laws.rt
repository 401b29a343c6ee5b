//! Laws of completions and events: no two have a common spelling, decoding undoes encoding, and the
//! owner bit is apart.

ghost use Rattle.std.specs.Prelude.{◌≡◌, ℕ, ◌%◌, ◌<◌, List, length, slice_index};
ghost use Rattle.cqe_format.specs.Bytes.{entry_bytes, with_owner};
ghost use Rattle.cqe_format.specs.Completion.{IsCompletion, IsCqe};
ghost use Rattle.cqe_format.specs.Event.{IsEqe};
ghost use Rattle.cqe_format.specs.declared.completion.Cqe.{Cqe};
ghost use Rattle.verbs_types.specs.declared.completion.EventRecord.{EventRecord};

use crate::completion::{Cqe, decode_cqe, encode_cqe};
use crate::event::{decode_eqe, encode_eqe};
use crate::search::NotAnEntry;
use verbs_types::EventRecord;

/// No bytes spell two completions, or two events.
pub fn one_value()
    ensures completion { (a b : Cqe) (bytes : List ℕ) → IsCqe a bytes → IsCqe b bytes → a ≡ b }
    ensures event { (a b : EventRecord) (bytes : List ℕ) → IsEqe a bytes → IsEqe b bytes → a ≡ b }
{}

/// Words with a clear owner bit spell the same with the owner bit of their index.
pub fn owner_is_apart()
    ensures completion { (c : Cqe) (words : List ℕ) (owner : ℕ) → length words ≡ 8 → slice_index words 7 % 2 ≡ 0 → owner < 2
        → IsCqe c (entry_bytes words) → IsCqe c (entry_bytes (with_owner words owner)) }
    ensures event { (e : EventRecord) (words : List ℕ) (owner : ℕ) → length words ≡ 8 → slice_index words 7 % 2 ≡ 0 → owner < 2
        → IsEqe e (entry_bytes words) → IsEqe e (entry_bytes (with_owner words owner)) }
{}

/// A completion is decoded as it was encoded.
pub fn completion_again(c: &Cqe) -> Result<Cqe, NotAnEntry>
    requires { IsCompletion c.now }
    ensures { result ≡ Ok c.now }
{
    decode_cqe(&encode_cqe(c))
}

/// An event is decoded as it was encoded.
pub fn event_again(e: &EventRecord) -> Result<EventRecord, NotAnEntry>
    ensures { result ≡ Ok e.now }
{
    decode_eqe(&encode_eqe(e))
}

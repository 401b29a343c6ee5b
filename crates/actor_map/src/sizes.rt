//! How many words objects have.
ghost use Rattle.std.specs.Prelude.{◌≡◌, ◌≤◌, ◌^◌, All};
ghost use Rattle.std.specs.List.{sum_by};
ghost use Rattle.actor_map.specs.Sizes as sizes;
ghost use Rattle.actor_map.specs.Limits.{IsEqSize, IsCqSize, IsQpSize};

use verbs_types::{CqLine, Declared, EqLine, QpLine};

/// The first word of the first object. Before it stand the start word, the words of actors that end, the
/// initialisation segment, and the command queue with its mailbox blocks.
pub const FIRST_OBJECT: u64 = 17_408;

/// The words of one queue entry of 64 bytes.
const ENTRY: u64 = 8;

/// The number of words that the map of these objects needs. It does not allocate.
pub fn words(declared: &Declared) -> u64
    ensures { result ≡ sizes.words_of declared.now }
{
    let lines = declared.lines();
    FIRST_OBJECT
        + words_of_eqs(lines.eqs.as_slice())
        + words_of_cqs(lines.cqs.as_slice())
        + words_of_qps(lines.qps.as_slice())
}

fn words_of_eqs(lines: &[EqLine]) -> u64
    requires limits { All IsEqSize lines.now }
    requires sum { sum_by sizes.eq_words lines.now ≤ 2 ^ 32 }
    ensures { result ≡ sum_by sizes.eq_words lines.now }
{
    let mut total = 0;
    for line in lines {
        total += eq_words(line);
    }
    total
}

fn words_of_cqs(lines: &[CqLine]) -> u64
    requires limits { All IsCqSize lines.now }
    requires sum { sum_by sizes.cq_words lines.now ≤ 2 ^ 32 }
    ensures { result ≡ sum_by sizes.cq_words lines.now }
{
    let mut total = 0;
    for line in lines {
        total += cq_words(line);
    }
    total
}

fn words_of_qps(lines: &[QpLine]) -> u64
    requires limits { All IsQpSize lines.now }
    requires sum { sum_by sizes.qp_words lines.now ≤ 2 ^ 32 }
    ensures { result ≡ sum_by sizes.qp_words lines.now }
{
    let mut total = 0;
    for line in lines {
        total += qp_words(line);
    }
    total
}

/// The entries of an event queue, and its two registers: the consumer index, and the same with a request for
/// interrupts.
pub(crate) fn eq_words(line: &EqLine) -> u64
    requires limits { IsEqSize line.now }
    ensures { result ≡ sizes.eq_words line.now }
{
    ENTRY * places(line.log) + 2
}

/// The two areas of a completion queue, its doorbell record of two words, its arm register and its arm sequence
/// number.
pub(crate) fn cq_words(line: &CqLine) -> u64
    requires limits { IsCqSize line.now }
    ensures { result ≡ sizes.cq_words line.now }
{
    2 * ENTRY * places(line.ceiling) + 4
}

/// The send ring of four blocks a request, an id and a head word a block, and the send tail; the receive ring, an
/// id a receive, and the receive tail; the doorbell record of two words and the send register.
pub(crate) fn qp_words(line: &QpLine) -> u64
    requires limits { IsQpSize line.now }
    ensures { result ≡ sizes.qp_words line.now }
{
    send_words(line) + receive_words(line) + 3
}

pub(crate) fn send_words(line: &QpLine) -> u64
    requires limits { IsQpSize line.now }
    ensures { result ≡ sizes.send_words line.now }
{
    let blocks = 4 * places(line.send_log);
    (ENTRY + 2) * blocks + 1
}

pub(crate) fn receive_words(line: &QpLine) -> u64
    requires limits { IsQpSize line.now }
    ensures { result ≡ sizes.receive_words line.now }
{
    let receives = places(line.recv_log);
    (stride(line.segments) + 1) * receives + 1
}

/// The words of a receive entry of `segments` scatter/gather entries: two each, rounded up to a power of two.
pub(crate) fn stride(segments: u32) -> u64
    ensures { result ≡ sizes.stride segments }
{
    match segments {
        0 | 1 => 2,
        2 => 4,
        3 | 4 => 8,
        _ => 16,
    }
}

/// 2^`log`.
pub(crate) fn places(log: u32) -> u64
    requires { log ≤ 12 }
    ensures { result ≡ 2 ^ log }
{
    1 << log
}

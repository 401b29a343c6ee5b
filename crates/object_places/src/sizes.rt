//! How many words the parts of queues have.
ghost use Rattle.std.specs.Prelude.{◌≡◌, ◌≤◌, ◌^◌};
ghost use Rattle.actor_map.specs.Sizes as sizes;

/// 2^`log`.
pub(crate) fn places(log: u32) -> u32
    requires { log ≤ 12 }
    ensures places { result ≡ 2 ^ log }
    ensures few { result ≤ 2 ^ 12 }
{
    1 << log
}

/// The words of a receive entry of `segments` scatter/gather entries: two each, rounded up to a power of two.
pub(crate) fn stride(segments: u32) -> u32
    ensures words { result ≡ sizes.stride segments }
    ensures few { result ≤ 16 }
{
    match segments {
        0 | 1 => 2,
        2 => 4,
        3 | 4 => 8,
        _ => 16,
    }
}

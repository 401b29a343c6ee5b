//! What a call to post comes to.

/// Why a queue did not take a request.
#[derive(Clone, Copy, Debug, PartialEq, Eq)]
pub enum Room {
    /// As many requests as may be are not retired: `head` were posted, those of this call included,
    /// and `tail` are retired.
    Full { head: u64, tail: u64 },
}

/// What a call to post came to.
#[derive(Clone, Copy, Debug, PartialEq, Eq)]
pub enum PostAnswer {
    /// The queue took all requests of the call, and the device was told of them.
    All { posted: u32 },
    /// The queue did not take the request at this place in the list, counted from 0. It took those before
    /// it, and the device was told of them; those behind it were not tried.
    Refused { bad: u32, why: Room },
}

//! Where the objects of `one_pair` lie: addresses of 64-bit words.

/// The actors that have ended, a bit each.
pub const ENDED: u32 = 1;

/// The event queue: 2 entries of 8 words, and 2 registers.
pub const EVENT_QUEUE: u32 = 17_408;

/// The completion queue: two areas of 4 entries of 8 words each.
pub const FIRST_AREA: u32 = EVENT_QUEUE + 18;

pub const SECOND_AREA: u32 = FIRST_AREA + 32;

/// The last words of the first two entries, which have the owner bits.
pub const FIRST_OWNER_WORD: u32 = FIRST_AREA + 7;

pub const SECOND_OWNER_WORD: u32 = FIRST_AREA + 15;

/// The consumer index, with which the completion queue's record of 2 words begins.
pub const CONSUMER_INDEX: u32 = SECOND_AREA + 32;

pub const ARM_REGISTER: u32 = CONSUMER_INDEX + 2;

pub const SEQUENCE_NUMBER: u32 = ARM_REGISTER + 1;

/// The queue pair, which begins with the send queue's ring: 16 blocks of 8 words.
pub const SEND_RING: u32 = SEQUENCE_NUMBER + 1;

/// The id and the head word of each block.
pub const SEND_IDS: u32 = SEND_RING + 128;

pub const SEND_HEADS: u32 = SEND_IDS + 16;

pub const SEND_TAIL: u32 = SEND_HEADS + 16;

/// The receive queue's ring: 1 receive of 2 words.
pub const RECEIVE_RING: u32 = SEND_TAIL + 1;

pub const RECEIVE_IDS: u32 = RECEIVE_RING + 2;

pub const RECEIVE_TAIL: u32 = RECEIVE_IDS + 1;

/// The doorbell record of both queues.
pub const RECEIVE_RECORD: u32 = RECEIVE_TAIL + 1;

pub const SEND_RECORD: u32 = RECEIVE_RECORD + 1;

/// The send queue's register, which is the last word.
pub const REGISTER: u32 = SEND_RECORD + 1;

/// How many words there are.
pub const COUNT: u32 = REGISTER + 1;

//! What a reader finds, and where it stands.

/// What stands in the input, apart from bytes that belong to nothing.
#[derive(Clone, Copy, Debug, PartialEq, Eq)]
pub enum Found {
    /// A packet whose checksum is right. Its data is the reader's `body`.
    Packet,
    /// A packet whose checksum is wrong, or no two hexadecimal digits.
    BadPacket,
    /// `+`: the last packet has arrived.
    Ack,
    /// `-`: the last packet has to be sent again.
    Again,
}

/// Where a reader stands.
#[derive(Clone, Copy, Debug, PartialEq, Eq)]
pub enum Place {
    /// Between packets.
    Outside,
    /// Behind a `$`.
    Inside,
    /// Behind the `#` of a packet.
    Mark,
    /// Behind the first byte of a checksum, which is this one.
    Digit(u8),
}

/// How far a reader came in some bytes.
#[derive(Clone, Copy, Debug, PartialEq, Eq)]
pub struct Advance {
    /// Number of bytes that were read.
    pub used: usize,
    /// What the last of them completed; `None` if all were read and none completed anything.
    pub found: Option<Found>,
}

/// Out of memory: the host refused memory for a byte of a packet's data.
#[derive(Clone, Copy, Debug, PartialEq, Eq)]
pub struct FrameFault {
    /// Number of bytes before it, which were read.
    pub used: usize,
}

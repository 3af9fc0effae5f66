//! Why a packet is no request.

/// Why a packet is no request. Nothing has changed then.
#[derive(Clone, Copy, Debug, PartialEq, Eq)]
pub enum RequestFault {
    /// The packet is known, but not its operands, or a number is above 2^32 - 1. It is answered by
    /// `E01`.
    BadOperand,
    /// The packet is not known. It is answered by an empty packet.
    Unknown,
    /// The host refused memory.
    Memory,
}

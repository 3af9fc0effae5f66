//! Answers without a value.
ghost use Rattle.std.specs.Prelude.{◌≡◌};
ghost use Rattle.gdb_replies.specs.Fixed.{fixed_text};

/// An answer without a value.
#[derive(Clone, Copy, Debug, PartialEq, Eq)]
pub enum FixedReply {
    /// `OK`: it is done.
    Done,
    /// An empty packet: the request is not known.
    Unsupported,
    /// `E01`: an operand is no number, or names no thread or register.
    BadOperand,
    /// `E02`: the checksum is wrong, and no packet is acknowledged any more.
    BadChecksum,
    /// `E14`: the first byte is not mapped.
    Unmapped,
    /// `E30`: nothing is written.
    ReadOnly,
    /// `T05thread:1;`: the stop before the first move.
    FirstStop,
    /// `1`: the program was running before GDB came, so that GDB detaches as it leaves.
    Attached,
    /// `l`: there are no more threads.
    EndOfThreads,
    /// `vCont;..`: the actions that are known.
    Actions,
    /// `PacketSize=4000;..`: what the server can do.
    Features,
}

impl FixedReply {
    /// The answer's text.
    #[tactic(auto, unfolding(crate::specs::Fixed::fixed_text))]
    pub fn text(self) -> &'static str
        ensures { result.now ≡ fixed_text self }
    {
        match self {
            FixedReply::Done => "OK",
            FixedReply::Unsupported => "",
            FixedReply::BadOperand => "E01",
            FixedReply::BadChecksum => "E02",
            FixedReply::Unmapped => "E14",
            FixedReply::ReadOnly => "E30",
            FixedReply::FirstStop => "T05thread:1;",
            FixedReply::Attached => "1",
            FixedReply::EndOfThreads => "l",
            FixedReply::Actions => "vCont;c;C;s;S;r",
            FixedReply::Features => {
                "PacketSize=4000;QStartNoAckMode+;qXfer:features:read+;qXfer:threads:read+;\
                 ReverseStep+;ReverseContinue+;vContSupported+;swbreak+;hwbreak+"
            }
        }
    }
}

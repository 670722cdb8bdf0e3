// Why a call gives no result.
ghost use Rattle.std.specs.Prelude.{◌≡◌};
ghost use Rattle.frame.specs.Refusal.{number_of};

use thiserror::Error;

#[derive(Clone, Copy, Debug, PartialEq, Eq, Error)]
pub enum Refusal {
    #[error("no frame starts here")]
    Start = 1,
    #[error("the bytes end before the frame does")]
    Cut = 2,
    #[error("a length that no frame has")]
    Length = 3,
    #[error("the checksum is another one")]
    Checksum = 4,
    // Given only where the footer is required, and under the ending CR LF.
    #[error("the frame's end is another one")]
    Footer = 5,
    // Under any ending LF is none of these.
    #[error("a character that is neither a digit nor the frame's end")]
    Character = 6,
    #[error("the buffer is too short")]
    Buffer = 13,
    #[error("the payload is empty or longer than 256 bytes")]
    Payload = 14,
    #[error("the chunk is longer than 65,536 bytes")]
    Chunk = 15,
    // The state holds more bytes than a frame can have, or says that more were judged than it holds, or a view does not lie in the chunk.
    #[error("the reader's state is none that a reader has")]
    State = 16,
}

impl Refusal {
    // The refusal's number in document 01.
    pub fn number(self) -> u8
        ensures { result ≡ number_of self }
    {
        self as u8
    }
}

// Why a call gives no message, or writes none.
ghost use Rattle.std.specs.Prelude.{◌≡◌, true, false, OnOk, OnErr, IfErr};
ghost use Rattle.message.specs.Refusal.{number_of};

use thiserror::Error;

// Each refusal has a fixed number.
#[derive(Clone, Copy, Debug, PartialEq, Eq, Error)]
pub enum Refusal {
    #[error("the payload is too short, over 256 bytes, or of no length that its layout has")]
    Length = 7,
    #[error("an address that is not allowed")]
    Address = 8,
    #[error("a command that is not known for this direction")]
    Command = 9,
    #[error("an option is unknown, repeated or cut, the retry byte is wrong, or FF is missing")]
    Option = 10,
    #[error("a fixed field, a zero word, a result or a state has another value")]
    Field = 11,
    #[error("the count of data bytes in an extended message is not the payload's length less 14")]
    Count = 12,
    #[error("the buffer is too short")]
    Buffer = 13,
    // No payload to write is empty.
    #[error("the payload to write is longer than 256 bytes")]
    Payload = 14,
    #[error("in a settings list an identifier is unknown, repeated or cut")]
    Identifier = 17,
}

impl Refusal {
    // The refusal's number.
    pub fn number(self) -> u8
        ensures { result ≡ number_of self }
    {
        self as u8
    }
}

// Refuses where a condition does not hold.
pub(crate) fn ensure(holds: bool, refusal: Refusal) -> Result<(), Refusal>
    ensures ok { OnOk result (holds ≡ true) }
    ensures err { OnErr result (holds ≡ false) }
    ensures refusal { IfErr result (λ e. e ≡ refusal) }
{
    if holds { Ok(()) } else { Err(refusal) }
}

// The simple message, in either direction.
ghost use Rattle.message.specs.Simple.{simple_refusal, simple_layout};
ghost use Rattle.message.specs.Write.{Writes};

use crate::address::is_plain;
use crate::refusal::{Refusal, ensure};
use crate::write::PayloadWriter;
use frame::Framing;

// A simple message: the other side's address and a command below 80.
#[derive(Clone, Copy)]
pub struct Simple {
    pub address: u8,
    pub command: u8,
}

// Writes a simple message with its data.
pub(crate) fn write_simple(
    framing: Framing,
    message: Simple,
    data: &[u8],
    buf: &mut [u8],
) -> Result<usize, Refusal>
    ensures { Writes framing (simple_refusal message) (simple_layout message «data».now) buf.old result buf.new }
{
    ensure(is_plain(message.address), Refusal::Address)?;
    ensure(message.command < 0x80, Refusal::Command)?;
    let mut payload = PayloadWriter::new();
    payload.put(&[message.address, message.command]);
    payload.send_with(framing, data, buf)
}

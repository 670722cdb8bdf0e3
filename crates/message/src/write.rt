// Writing a payload as a frame.
ghost use Rattle.std.specs.Prelude.{[], ◌++◌, ◌+◌, ◌≤◌, ◌≡◌, ◌≢◌, length};
ghost use Rattle.frame.specs.declared.refusal.Refusal.TheVariants.{Payload as FramePayload};
ghost use Rattle.message.specs.declared.refusal.Refusal.TheVariants.{Payload, Buffer};
ghost use Rattle.message.specs.Number.{bytes2, bytes4};
ghost use Rattle.message.specs.Write.{Writes};

use crate::refusal::Refusal;
use arrayvec::ArrayVec;
use frame::Framing;
use std::marker::Model;

// Why a payload is not written, where its frame is not: 14, and else 13, the only other refusal of a write.
fn write_refusal(refusal: frame::Refusal) -> Refusal
    ensures payload { refusal ≡ FramePayload → result ≡ Payload }
    ensures buffer { refusal ≢ FramePayload → result ≡ Buffer }
{
    match refusal {
        frame::Refusal::Payload => Refusal::Payload,
        _ => Refusal::Buffer,
    }
}

// Writes a payload as a frame.
pub(crate) fn send(framing: Framing, payload: &[u8], buf: &mut [u8]) -> Result<usize, Refusal>
    ensures { Writes framing 0 payload.now buf.old result buf.new }
{
    frame::write_frame(framing, payload, buf).map_err(write_refusal)
}

// A payload that is put together, one part behind another, in fixed memory. Clauses see its bytes. A payload of one length is an array in place of this,
// since the memory of 256 bytes is cleared first.
#[derive(Drop)]
pub(crate) struct PayloadWriter {
    bytes: ArrayVec<u8, 256>,
}

impl Model for PayloadWriter {
    ghost use Rattle.std.specs.Prelude.{List, ℕ};

    ghost Value = { List ℕ };

    ghost view = { λ p. p.bytes.items };
}

impl PayloadWriter {
    // No bytes.
    pub(crate) fn new() -> Self
        ensures { result ≡ [] }
    {
        PayloadWriter {
            bytes: ArrayVec::new(),
        }
    }

    // Puts bytes behind those that are there.
    pub(crate) fn put(&mut self, bytes: &[u8])
        requires { length self.old + length bytes.now ≤ 256 }
        ensures bytes { self.new ≡ self.old ++ bytes.now }
        ensures len { length self.new ≡ length self.old + length bytes.now }
    {
        self.bytes.try_extend_from_slice(bytes).unwrap();
    }

    // Puts a 16-bit number.
    pub(crate) fn put_word(&mut self, v: u16)
        requires { length self.old + 2 ≤ 256 }
        ensures bytes { self.new ≡ self.old ++ bytes2 v }
        ensures len { length self.new ≡ length self.old + 2 }
    {
        self.put(&v.to_be_bytes());
    }

    // Puts a 32-bit number.
    pub(crate) fn put_long(&mut self, v: u32)
        requires { length self.old + 4 ≤ 256 }
        ensures bytes { self.new ≡ self.old ++ bytes4 v }
        ensures len { length self.new ≡ length self.old + 4 }
    {
        self.put(&v.to_be_bytes());
    }

    // Writes the payload with data behind it as a frame.
    pub(crate) fn send_with(
        mut self,
        framing: Framing,
        data: &[u8],
        buf: &mut [u8],
    ) -> Result<usize, Refusal>
        ensures { Writes framing 0 (self ++ «data».now) buf.old result buf.new }
    {
        self.bytes
            .try_extend_from_slice(data)
            .map_err(|_| Refusal::Payload)?;
        send(framing, self.bytes.as_slice(), buf)
    }
}

// The static library for callers in C or Rust: a symbol for each call of the crate boundary, with the same numbers and flat structs. A slice crosses as a
// pointer and a length.
// Kept: each function only calls the one of the crate boundary with its name, since a symbol of the C interface is a function of its own.
#![tactic(auto)]

ghost use Rattle.std.specs.Prelude.{◌≡◌};
ghost use Rattle.settings.specs.Walk.{finding};
ghost use Rattle.message.specs.ToModule.{read_to_module};
ghost use Rattle.message.specs.FromModule.{read_from_module};
ghost use Rattle.boundary.specs.Framing.{framing_of, format_of};
ghost use Rattle.boundary.specs.Single.{ReadsFlat, WritesFlat};
ghost use Rattle.boundary.specs.Line.{format_in, new_flat, FeedsFlat, QuietsFlat};
ghost use Rattle.boundary.specs.Setting.{flat_setting};
ghost use Rattle.boundary.specs.ToModule.{to_module_numbers, request_in, WritesRequest, WritesChange, WritesSetup};
ghost use Rattle.boundary.specs.FromModule.{from_module_numbers, delivery_in, notice_in, WritesDelivery, WritesNotice};

use boundary::{
    FlatReading, FlatSetting, FlatWriting, FromModuleNumbers, LineFed, LineReader, ToModuleNumbers,
};

// Reads the frame at the front of s into the front of buf, as `frame::read_frame_as` does. A format that is none of 0 to 3 is refused with 255, and buf
// stays.
#[unsafe(no_mangle)]
pub extern "C" fn boundary_read_frame(format: u8, s: &[u8], buf: &mut [u8]) -> FlatReading
    ensures { ReadsFlat (format_of format) s.now buf.old result buf.new }
{
    boundary::boundary_read_frame(format, s, buf)
}

// Writes a payload as a frame into the front of buf, as `frame::write_frame` does. A framing that is neither 0 nor 1 is refused with 255, and buf stays.
#[unsafe(no_mangle)]
pub extern "C" fn boundary_write_frame(framing: u8, payload: &[u8], buf: &mut [u8]) -> FlatWriting
    ensures { WritesFlat (framing_of framing) 0 payload.now buf.old result buf.new }
{
    boundary::boundary_write_frame(framing, payload, buf)
}

// A new reader's state. Where the format is none of 0 to 3 every call with the state is refused.
#[unsafe(no_mangle)]
pub extern "C" fn boundary_new_reader(format: u8) -> LineReader
    ensures { result ≡ new_flat format }
{
    boundary::boundary_new_reader(format)
}

// Takes bytes of a chunk until the next frame is settled, as `Reader::feed` does. A state whose format is none of 0 to 3, or whose mark is
// neither 0 nor 1, is refused with 255; state and buf stay.
#[unsafe(no_mangle)]
pub extern "C" fn boundary_feed(reader: LineReader, chunk: &[u8], buf: &mut [u8]) -> LineFed
    ensures { FeedsFlat (format_in reader) reader chunk.now buf.old result buf.new }
{
    boundary::boundary_feed(reader, chunk, buf)
}

// The line was quiet: gives the next frame of the held bytes, as `Reader::quiet` does. A state whose format is none of 0 to 3, or whose
// mark is neither 0 nor 1, is refused with 255; state and buf stay.
#[unsafe(no_mangle)]
pub extern "C" fn boundary_quiet(reader: LineReader, buf: &mut [u8]) -> LineFed
    ensures { QuietsFlat (format_in reader) reader buf.old result buf.new }
{
    boundary::boundary_quiet(reader, buf)
}

// Reads a payload as a message to the module, as `message::read_to_module` does.
#[unsafe(no_mangle)]
pub extern "C" fn boundary_read_to_module(payload: &[u8]) -> ToModuleNumbers
    ensures { result ≡ to_module_numbers (read_to_module payload.now) }
{
    boundary::boundary_read_to_module(payload)
}

// Reads a payload as a message from the module, as `message::read_from_module` does.
#[unsafe(no_mangle)]
pub extern "C" fn boundary_read_from_module(payload: &[u8]) -> FromModuleNumbers
    ensures { result ≡ from_module_numbers (read_from_module payload.now) }
{
    boundary::boundary_read_from_module(payload)
}

// Writes a message to the module with its data as a frame, as `message::write_request` does. A framing or a kind that stands for none, or for a message
// without data, is refused with 255, and buf stays.
#[unsafe(no_mangle)]
pub extern "C" fn boundary_write_request(
    framing: u8,
    request: ToModuleNumbers,
    data: &[u8],
    buf: &mut [u8],
) -> FlatWriting
    ensures { WritesRequest (framing_of framing) (request_in request) «data».now buf.old result buf.new }
{
    boundary::boundary_write_request(framing, request, data, buf)
}

// Writes a change of outputs as a frame, as `message::write_output_change` does. A framing that stands for none, or a kind that is not 4, is refused with
// 255, and buf stays.
#[unsafe(no_mangle)]
pub extern "C" fn boundary_write_output_change(
    framing: u8,
    change: ToModuleNumbers,
    buf: &mut [u8],
) -> FlatWriting
    ensures { WritesChange (framing_of framing) change buf.old result buf.new }
{
    boundary::boundary_write_output_change(framing, change, buf)
}

// Writes a command to the module itself as a frame, as `message::write_setup` does. A framing that stands for none, or a kind that is not 6, is refused with
// 255, a command that is none of F0, F1, F3, FD, FE, FF with 9; then buf stays.
#[unsafe(no_mangle)]
pub extern "C" fn boundary_write_setup(
    framing: u8,
    command: ToModuleNumbers,
    buf: &mut [u8],
) -> FlatWriting
    ensures { WritesSetup (framing_of framing) command buf.old result buf.new }
{
    boundary::boundary_write_setup(framing, command, buf)
}

// Writes a message from the module with its data as a frame, as `message::write_delivery` does. A framing or a kind that stands for none, or for a message
// without data, is refused with 255, and buf stays.
#[unsafe(no_mangle)]
pub extern "C" fn boundary_write_delivery(
    framing: u8,
    delivery: FromModuleNumbers,
    data: &[u8],
    buf: &mut [u8],
) -> FlatWriting
    ensures { WritesDelivery (framing_of framing) (delivery_in delivery) «data».now buf.old result buf.new }
{
    boundary::boundary_write_delivery(framing, delivery, data, buf)
}

// Writes a message from the module without data as a frame, as `message::write_notice` does. A framing or a kind that stands for none, or for a message
// with data, is refused with 255, a report whose command is none of F0, F1, F3, F8 with 9, a response or a state of silent mode whose result is neither 0
// nor 1 with 11; then buf stays.
#[unsafe(no_mangle)]
pub extern "C" fn boundary_write_notice(
    framing: u8,
    notice: FromModuleNumbers,
    buf: &mut [u8],
) -> FlatWriting
    ensures { WritesNotice (framing_of framing) (notice_in notice) buf.old result buf.new }
{
    boundary::boundary_write_notice(framing, notice, buf)
}

// The setting of a list with this index, counted from 0, as `settings::setting_at` gives it.
#[unsafe(no_mangle)]
pub extern "C" fn boundary_setting_at(list: &[u8], index: usize) -> FlatSetting
    ensures { result ≡ flat_setting (finding list.now index) }
{
    boundary::boundary_setting_at(list, index)
}

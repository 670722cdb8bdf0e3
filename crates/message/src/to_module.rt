// Messages to the module.
ghost use Rattle.std.specs.Prelude.{◌≡◌, ◌≤◌, ◌+◌, ◌++◌, length};
ghost use Rattle.message.specs.ToModule.{to_module_of, read_to_module, to_extended_address, request_at, output_change_at, request_refusal, request_layout};
ghost use Rattle.message.specs.ToModule.{address_allowed, address_bytes, transmission_refusal, transmission_layout, change_refusal, change_layout};
ghost use Rattle.message.specs.Write.{Writes};

use crate::address::{is_extended, is_plain};
use crate::number::{long, word};
use crate::options::{Options, put_options, read_options, retry_allowed};
use crate::refusal::{Refusal, ensure};
use crate::setup::{SetupCommand, read_setup, write_settings};
use crate::simple::{Simple, write_simple};
use crate::write::{PayloadWriter, send};
use frame::Framing;

// The destination of an extended message to the module.
#[derive(Clone, Copy)]
pub enum Address {
    // A plain address: 0, 1 to 100, or 120.
    Plain(u8),
    // An extended address: 0 to FFFF, or 80000000 to FFFFFFFE.
    Extended(u32),
}

// An extended message to the module.
#[derive(Clone, Copy)]
pub struct Transmission {
    pub address: Address,
    pub response_id: u8,
    pub options: Options,
}

// The messages to the module that carry data.
#[derive(Clone, Copy)]
pub enum Request {
    Simple(Simple),
    Extended(Transmission),
    // F2: applies a settings list, which is the data.
    Settings,
}

// The message of the remote app that sets outputs. It carries no data.
#[derive(Clone, Copy)]
pub struct OutputChange {
    pub address: u8,
    pub signals: u16,
    pub mask: u16,
}

// A payload to the module.
#[derive(Clone, Copy)]
pub enum ToModule {
    // A message whose data are the payload's bytes from `start` on.
    Request { request: Request, start: usize },
    OutputChange(OutputChange),
    // A command to the module itself.
    Setup(SetupCommand),
}

// Reads an extended message whose option string begins at index `at`.
#[tactic(auto, unfolding(crate::specs::ToModule::request_at))]
fn read_request(payload: &[u8], address: Address, at: usize) -> Result<ToModule, Refusal>
    requires le_at { 3 ≤ at }
    requires at_in_bounds { at ≤ length payload.now }
    ensures { to_module_of result ≡ request_at payload.now address at }
{
    let (options, start) = read_options(payload, at, Options::none()).ok_or(Refusal::Option)?;
    Ok(ToModule::Request {
        request: Request::Extended(Transmission {
            address,
            response_id: payload[2],
            options,
        }),
        start,
    })
}

// Reads a payload that begins with 80: an extended message with an extended address.
#[tactic(auto, unfolding(crate::specs::ToModule::to_extended_address))]
fn read_to_extended_address(payload: &[u8]) -> Result<ToModule, Refusal>
    requires { 2 ≤ length payload.now }
    ensures { to_module_of result ≡ to_extended_address payload.now }
{
    ensure(payload[1] == 0xA0, Refusal::Command)?;
    ensure(7 <= payload.len(), Refusal::Length)?;
    let address = long(payload, 3);
    ensure(is_extended(address), Refusal::Address)?;
    read_request(payload, Address::Extended(address), 7)
}

// Reads a change of outputs.
#[tactic(auto, unfolding(crate::specs::ToModule::output_change_at))]
fn read_output_change(payload: &[u8]) -> Result<ToModule, Refusal>
    ensures { to_module_of result ≡ output_change_at payload.now }
{
    ensure(payload.len() == 15, Refusal::Length)?;
    ensure(
        payload[2] == 0x01 && long(payload, 7) == 0 && long(payload, 11) == 0,
        Refusal::Field,
    )?;
    Ok(ToModule::OutputChange(OutputChange {
        address: payload[0],
        signals: word(payload, 3),
        mask: word(payload, 5),
    }))
}

// Reads a payload as a message to the module. The refusals in their order: 7 where it has under 2 or over 256 bytes, 8 for an address, 9 for a
// command, 7 for a length, 8 for an extended address, then 10, 11, 17.
#[tactic(auto, unfolding(crate::specs::ToModule::read_to_module, crate::specs::ToModule::to_address, crate::specs::ToModule::to_plain_address))]
pub fn read_to_module(payload: &[u8]) -> Result<ToModule, Refusal>
    ensures { to_module_of result ≡ read_to_module payload.now }
{
    let len = payload.len();
    ensure(matches!(len, 2..=256), Refusal::Length)?;
    let address = payload[0];
    let command = payload[1];
    if address == 0xDB {
        return read_setup(payload);
    }
    if address == 0x80 {
        return read_to_extended_address(payload);
    }
    ensure(is_plain(address), Refusal::Address)?;
    if command < 0x80 {
        return Ok(ToModule::Request {
            request: Request::Simple(Simple { address, command }),
            start: 2,
        });
    }
    if command == 0x80 {
        return read_output_change(payload);
    }
    ensure(command == 0xA0, Refusal::Command)?;
    ensure(3 <= len, Refusal::Length)?;
    read_request(payload, Address::Plain(address), 3)
}

fn address_allowed(address: Address) -> bool
    ensures { result ≡ address_allowed address }
{
    match address {
        Address::Plain(a) => is_plain(a),
        Address::Extended(w) => is_extended(w),
    }
}

// Puts an extended message's bytes before its options behind a payload.
fn put_address(payload: &mut PayloadWriter, address: Address, response_id: u8)
    requires { length payload.old + 7 ≤ 256 }
    ensures bytes { payload.new ≡ payload.old ++ address_bytes address response_id }
    ensures len { length payload.new ≤ length payload.old + 7 }
{
    match address {
        Address::Plain(a) => {
            payload.put(&[a, 0xA0, response_id]);
        }
        Address::Extended(w) => {
            payload.put(&[0x80, 0xA0, response_id]);
            payload.put_long(w);
        }
    }
}

// Writes an extended message with its data.
fn write_transmission(
    framing: Framing,
    message: Transmission,
    data: &[u8],
    buf: &mut [u8],
) -> Result<usize, Refusal>
    ensures { Writes framing (transmission_refusal message) (transmission_layout message «data».now)
        buf.old result buf.new }
{
    ensure(address_allowed(message.address), Refusal::Address)?;
    ensure(retry_allowed(message.options.retries), Refusal::Option)?;
    let mut payload = PayloadWriter::new();
    put_address(&mut payload, message.address, message.response_id);
    put_options(&mut payload, message.options);
    payload.send_with(framing, data, buf)
}

// Writes a message to the module with its data as a frame into the front of buf; the rest of buf stays. The refusals in their order: 8, 9, 10, 17,
// then 14 where the payload has over 256 bytes, 13 where buf is shorter than the frame. A refusal leaves all of buf.
pub fn write_request(
    framing: Framing,
    request: Request,
    data: &[u8],
    buf: &mut [u8],
) -> Result<usize, Refusal>
    ensures { Writes framing (request_refusal request «data».now) (request_layout request «data».now)
        buf.old result buf.new }
{
    match request {
        Request::Simple(message) => write_simple(framing, message, data, buf),
        Request::Extended(message) => write_transmission(framing, message, data, buf),
        Request::Settings => write_settings(framing, 0xF2, data, buf),
    }
}

// Writes a change of outputs as a frame into the front of buf; the rest of buf stays. The refusals in their order: 8, 13. A refusal leaves all of buf.
pub fn write_output_change(
    framing: Framing,
    change: OutputChange,
    buf: &mut [u8],
) -> Result<usize, Refusal>
    ensures { Writes framing (change_refusal change) (change_layout change) buf.old result buf.new }
{
    ensure(is_plain(change.address), Refusal::Address)?;
    let signals = change.signals.to_be_bytes();
    let mask = change.mask.to_be_bytes();
    let payload = [
        change.address,
        0x80,
        0x01,
        signals[0],
        signals[1],
        mask[0],
        mask[1],
        0,
        0,
        0,
        0,
        0,
        0,
        0,
        0,
    ];
    send(framing, &payload, buf)
}

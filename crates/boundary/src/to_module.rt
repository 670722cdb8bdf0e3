// Messages to the module as numbers.
ghost use Rattle.std.specs.Prelude.{◌≡◌};
ghost use Rattle.message.specs.ToModule.{to_module_of, read_to_module};
ghost use Rattle.boundary.specs.Framing.{framing_of};
ghost use Rattle.boundary.specs.ToModule.{transmission_numbers, request_numbers, to_module_numbers};
ghost use Rattle.boundary.specs.ToModule.{transmission_in, request_in, WritesRequest, WritesChange, WritesSetup};

use crate::framing::framing_of;
use crate::options::OptionNumbers;
use crate::refusal::Unnamed;
use crate::single::{FlatWriting, flat_writing};
use message::{
    Address, Options, OutputChange, Refusal, Request, SetupCommand, Simple, ToModule, Transmission,
};

// A message to the module. `kind` is 0 for a refusal, 1 for a simple message, 2 for an extended one to a plain address, 3 for an extended one to an
// extended address, 4 for a change of outputs, 5 for a settings list, which is the data, 6 for a command to the module itself, whose number is `command`.
// Fields that the kind does not have are 0 in an answer, and are not looked at in a write; `refusal` and `start`, the index at which the data begin, belong
// to answers alone.
// Kept: the kind and the command are numbers, and one struct has the fields of every kind, since this is the C interface.
#[repr(C)]
#[derive(Clone, Copy, Default)]
pub struct ToModuleNumbers {
    pub kind: u8,
    pub refusal: u8,
    pub address: u8,
    pub command: u8,
    pub response_id: u8,
    pub extended: u32,
    pub options: OptionNumbers,
    pub signals: u16,
    pub mask: u16,
    pub start: usize,
}

fn transmission_numbers(m: Transmission, start: usize) -> ToModuleNumbers
    ensures { result ≡ transmission_numbers m start }
{
    let numbers = ToModuleNumbers {
        response_id: m.response_id,
        options: OptionNumbers::from(m.options),
        start,
        ..ToModuleNumbers::default()
    };
    match m.address {
        Address::Plain(address) => ToModuleNumbers {
            kind: 2,
            address,
            ..numbers
        },
        Address::Extended(extended) => ToModuleNumbers {
            kind: 3,
            extended,
            ..numbers
        },
    }
}

fn request_numbers(request: Request, start: usize) -> ToModuleNumbers
    ensures { result ≡ request_numbers request start }
{
    match request {
        Request::Simple(m) => ToModuleNumbers {
            kind: 1,
            address: m.address,
            command: m.command,
            start,
            ..ToModuleNumbers::default()
        },
        Request::Extended(m) => transmission_numbers(m, start),
        Request::Settings => ToModuleNumbers {
            kind: 5,
            start,
            ..ToModuleNumbers::default()
        },
    }
}

fn to_module_numbers(answer: Result<ToModule, Refusal>) -> ToModuleNumbers
    ensures { result ≡ to_module_numbers (to_module_of answer) }
{
    match answer {
        Ok(ToModule::Request { request, start }) => request_numbers(request, start),
        Ok(ToModule::OutputChange(m)) => ToModuleNumbers {
            kind: 4,
            address: m.address,
            signals: m.signals,
            mask: m.mask,
            ..ToModuleNumbers::default()
        },
        Ok(ToModule::Setup(command)) => ToModuleNumbers {
            kind: 6,
            command: command.number(),
            ..ToModuleNumbers::default()
        },
        Err(refusal) => ToModuleNumbers {
            refusal: refusal.number(),
            ..ToModuleNumbers::default()
        },
    }
}

fn transmission_in(address: Address, n: ToModuleNumbers) -> Transmission
    ensures { result ≡ transmission_in address n }
{
    Transmission {
        address,
        response_id: n.response_id,
        options: Options::from(n.options),
    }
}

// The request that numbers stand for, if any.
fn request_in(n: ToModuleNumbers) -> Option<Request>
    ensures { result ≡ request_in n }
{
    match n.kind {
        1 => Some(Request::Simple(Simple {
            address: n.address,
            command: n.command,
        })),
        2 => Some(Request::Extended(transmission_in(Address::Plain(n.address), n))),
        3 => Some(Request::Extended(transmission_in(Address::Extended(n.extended), n))),
        5 => Some(Request::Settings),
        _ => None,
    }
}

// Reads a payload as a message to the module, as `message::read_to_module` does.
pub fn boundary_read_to_module(payload: &[u8]) -> ToModuleNumbers
    ensures { result ≡ to_module_numbers (read_to_module payload.now) }
{
    to_module_numbers(message::read_to_module(payload))
}

// Writes a message to the module with its data as a frame, as `message::write_request` does. A framing or a kind that stands for none, or for a message
// without data, is refused with 255, and buf stays.
pub fn boundary_write_request(
    framing: u8,
    request: ToModuleNumbers,
    data: &[u8],
    buf: &mut [u8],
) -> FlatWriting
    ensures { WritesRequest (framing_of framing) (request_in request) «data».now buf.old result buf.new }
{
    let (Some(framing), Some(request)) = (framing_of(framing), request_in(request)) else {
        return flat_writing(Err(Unnamed::Kind));
    };
    flat_writing(message::write_request(framing, request, data, buf))
}

// Writes a change of outputs as a frame, as `message::write_output_change` does. A framing that stands for none, or a kind that is not 4, is refused with
// 255, and buf stays.
pub fn boundary_write_output_change(
    framing: u8,
    change: ToModuleNumbers,
    buf: &mut [u8],
) -> FlatWriting
    ensures { WritesChange (framing_of framing) change buf.old result buf.new }
{
    let (Some(framing), 4) = (framing_of(framing), change.kind) else {
        return flat_writing(Err(Unnamed::Kind));
    };
    let change = OutputChange {
        address: change.address,
        signals: change.signals,
        mask: change.mask,
    };
    flat_writing(message::write_output_change(framing, change, buf))
}

// Writes a command to the module itself as a frame, as `message::write_setup` does. A framing that stands for none, or a kind that is not 6, is refused with
// 255, a command that is none of F0, F1, F3, FD, FE, FF with 9; then buf stays.
pub fn boundary_write_setup(framing: u8, command: ToModuleNumbers, buf: &mut [u8]) -> FlatWriting
    ensures { WritesSetup (framing_of framing) command buf.old result buf.new }
{
    let (Some(framing), 6) = (framing_of(framing), command.kind) else {
        return flat_writing(Err(Unnamed::Kind));
    };
    let Some(command) = SetupCommand::named(command.command) else {
        return flat_writing(Err(Unnamed::Command));
    };
    flat_writing(message::write_setup(framing, command, buf))
}

// Messages from the module as numbers.
ghost use Rattle.std.specs.Prelude.{◌≡◌};
ghost use Rattle.message.specs.FromModule.{from_module_of, read_from_module};
ghost use Rattle.boundary.specs.Framing.{framing_of};
ghost use Rattle.boundary.specs.FromModule.{information_numbers, delivery_numbers, report_numbers};
ghost use Rattle.boundary.specs.FromModule.{notice_numbers, from_module_numbers, delivery_in, information_in, response_in, report_in, notice_in};
ghost use Rattle.boundary.specs.FromModule.{WritesDelivery, WritesNotice};

use crate::framing::framing_of;
use crate::refusal::Unnamed;
use crate::single::{FlatWriting, flat_writing};
use crate::status::{StatusNumbers, remote_in, standard_in};
use message::{
    Delivery, FromModule, Information, Notice, Outcome, Reception, Refusal, Response, SetupReport,
    Simple,
};

// The information of F1, its fields as in `message::Information`.
#[repr(C)]
#[derive(Clone, Copy, Default)]
pub struct InformationNumbers {
    pub application: u32,
    pub version: u32,
    pub device: u8,
    pub serial: u32,
    pub silent: u8,
    pub network: u8,
}

impl From<Information> for InformationNumbers {
    ghost from_gives = { λ information numbers. numbers ≡ information_numbers information };

    fn from(m: Information) -> InformationNumbers {
        InformationNumbers {
            application: m.application,
            version: m.version,
            device: m.device,
            serial: m.serial,
            silent: m.silent,
            network: m.network,
        }
    }
}

impl From<InformationNumbers> for Information {
    ghost from_gives = { λ numbers information. information ≡ information_in numbers };

    fn from(n: InformationNumbers) -> Information {
        Information {
            application: n.application,
            version: n.version,
            device: n.device,
            serial: n.serial,
            silent: n.silent,
            network: n.network,
        }
    }
}

// A message from the module. `kind` is 0 for a refusal, 1 for a simple message, 2 for an extended one, 3 for a response, 4 for a standard status, 5 for a
// remote status, 6 for a settings list, which is the data, 7 for a report of the module on itself. `address` is the sender's, `response_id` also a
// response's own ID, `lqi` also a status's. `command` is a simple message's, or says which report it is: F0 an acknowledgement, F1 the information, in
// `information`, F3 that settings were not applied, F8 the state of silent mode. `result` is a response's, 1 success and 0 failure, or F8's state, 1 released
// and 0 not. Fields that the kind, or the report, does not have are 0 in an answer, and are not looked at in a write; `refusal` and `start`, the index at
// which the data begin, belong to answers alone.
// Kept: the kind, the report and the result are numbers, and one struct has the fields of every kind, since this is the C interface.
#[repr(C)]
#[derive(Clone, Copy, Default)]
pub struct FromModuleNumbers {
    pub kind: u8,
    pub refusal: u8,
    pub address: u8,
    pub command: u8,
    pub response_id: u8,
    pub result: u8,
    pub lqi: u8,
    pub source: u32,
    pub destination: u32,
    pub status: StatusNumbers,
    pub information: InformationNumbers,
    pub start: usize,
}

fn delivery_numbers(delivery: Delivery, start: usize) -> FromModuleNumbers
    ensures { result ≡ delivery_numbers delivery start }
{
    match delivery {
        Delivery::Simple(m) => FromModuleNumbers {
            kind: 1,
            address: m.address,
            command: m.command,
            start,
            ..FromModuleNumbers::default()
        },
        Delivery::Extended(m) => FromModuleNumbers {
            kind: 2,
            address: m.sender,
            response_id: m.response_id,
            lqi: m.lqi,
            source: m.source,
            destination: m.destination,
            start,
            ..FromModuleNumbers::default()
        },
        Delivery::Settings => FromModuleNumbers {
            kind: 6,
            start,
            ..FromModuleNumbers::default()
        },
    }
}

fn report_numbers(report: SetupReport) -> FromModuleNumbers
    ensures { result ≡ report_numbers report }
{
    let own = FromModuleNumbers {
        kind: 7,
        ..FromModuleNumbers::default()
    };
    match report {
        SetupReport::Acknowledged => FromModuleNumbers {
            command: 0xF0,
            ..own
        },
        SetupReport::Information(m) => FromModuleNumbers {
            command: 0xF1,
            information: InformationNumbers::from(m),
            ..own
        },
        SetupReport::SettingsFailed => FromModuleNumbers {
            command: 0xF3,
            ..own
        },
        SetupReport::SilentMode { released } => FromModuleNumbers {
            command: 0xF8,
            result: u8::from(released),
            ..own
        },
    }
}

fn notice_numbers(notice: Notice) -> FromModuleNumbers
    ensures { result ≡ notice_numbers notice }
{
    match notice {
        Notice::Response(m) => FromModuleNumbers {
            kind: 3,
            response_id: m.id,
            result: m.outcome as u8,
            ..FromModuleNumbers::default()
        },
        Notice::Standard(m) => FromModuleNumbers {
            kind: 4,
            address: m.sender,
            lqi: m.lqi,
            status: StatusNumbers::from(m),
            ..FromModuleNumbers::default()
        },
        Notice::Remote(m) => FromModuleNumbers {
            kind: 5,
            address: m.sender,
            lqi: m.lqi,
            status: StatusNumbers::from(m),
            ..FromModuleNumbers::default()
        },
        Notice::Setup(m) => report_numbers(m),
    }
}

fn from_module_numbers(answer: Result<FromModule, Refusal>) -> FromModuleNumbers
    ensures { result ≡ from_module_numbers (from_module_of answer) }
{
    match answer {
        Ok(FromModule::Delivery { delivery, start }) => delivery_numbers(delivery, start),
        Ok(FromModule::Notice(notice)) => notice_numbers(notice),
        Err(refusal) => FromModuleNumbers {
            refusal: refusal.number(),
            ..FromModuleNumbers::default()
        },
    }
}

// The message with data that numbers stand for, if any.
fn delivery_in(n: FromModuleNumbers) -> Option<Delivery>
    ensures { result ≡ delivery_in n }
{
    match n.kind {
        1 => Some(Delivery::Simple(Simple {
            address: n.address,
            command: n.command,
        })),
        2 => Some(Delivery::Extended(Reception {
            sender: n.address,
            response_id: n.response_id,
            source: n.source,
            destination: n.destination,
            lqi: n.lqi,
        })),
        6 => Some(Delivery::Settings),
        _ => None,
    }
}

fn response_in(n: FromModuleNumbers) -> Result<Notice, Unnamed>
    ensures { result ≡ response_in n.response_id n.result }
{
    let outcome = match n.result {
        0 => Outcome::Failure,
        1 => Outcome::Success,
        _ => return Err(Unnamed::Flag),
    };
    Ok(Notice::Response(Response {
        id: n.response_id,
        outcome,
    }))
}

fn report_in(n: FromModuleNumbers) -> Result<Notice, Unnamed>
    ensures { result ≡ report_in n.command n.result n.information }
{
    let report = match (n.command, n.result) {
        (0xF0, _) => SetupReport::Acknowledged,
        (0xF1, _) => SetupReport::Information(Information::from(n.information)),
        (0xF3, _) => SetupReport::SettingsFailed,
        (0xF8, 0) => SetupReport::SilentMode { released: false },
        (0xF8, 1) => SetupReport::SilentMode { released: true },
        (0xF8, _) => return Err(Unnamed::Flag),
        _ => return Err(Unnamed::Command),
    };
    Ok(Notice::Setup(report))
}

// The message without data that numbers stand for, or why they stand for none.
// Kept: tests one after the other, since behind a match the compiler joins the messages of all kinds before they are written: up to 1.5 times the instructions.
fn notice_in(n: FromModuleNumbers) -> Result<Notice, Unnamed>
    ensures { result ≡ notice_in n }
{
    if n.kind == 3 {
        return response_in(n);
    }
    if n.kind == 4 {
        return Ok(Notice::Standard(standard_in(n.address, n.lqi, n.status)));
    }
    if n.kind == 5 {
        return Ok(Notice::Remote(remote_in(n.address, n.lqi, n.status)));
    }
    if n.kind == 7 {
        return report_in(n);
    }
    Err(Unnamed::Kind)
}

// Reads a payload as a message from the module, as `message::read_from_module` does.
pub fn boundary_read_from_module(payload: &[u8]) -> FromModuleNumbers
    ensures { result ≡ from_module_numbers (read_from_module payload.now) }
{
    from_module_numbers(message::read_from_module(payload))
}

// Writes a message from the module with its data as a frame, as `message::write_delivery` does. A framing or a kind that stands for none, or for a message
// without data, is refused with 255, and buf stays.
pub fn boundary_write_delivery(
    framing: u8,
    delivery: FromModuleNumbers,
    data: &[u8],
    buf: &mut [u8],
) -> FlatWriting
    ensures { WritesDelivery (framing_of framing) (delivery_in delivery) «data».now buf.old result buf.new }
{
    let (Some(framing), Some(delivery)) = (framing_of(framing), delivery_in(delivery)) else {
        return flat_writing(Err(Unnamed::Kind));
    };
    flat_writing(message::write_delivery(framing, delivery, data, buf))
}

// Writes a message from the module without data as a frame, as `message::write_notice` does. A framing or a kind that stands for none, or for a message
// with data, is refused with 255, a report whose command is none of F0, F1, F3, F8 with 9, a response or a state of silent mode whose result is neither 0
// nor 1 with 11; then buf stays.
pub fn boundary_write_notice(framing: u8, notice: FromModuleNumbers, buf: &mut [u8]) -> FlatWriting
    ensures { WritesNotice (framing_of framing) (notice_in notice) buf.old result buf.new }
{
    let Some(framing) = framing_of(framing) else {
        return flat_writing(Err(Unnamed::Kind));
    };
    match notice_in(notice) {
        Ok(notice) => flat_writing(message::write_notice(framing, notice, buf)),
        Err(unnamed) => flat_writing(Err(unnamed)),
    }
}

// Messages from the module.
ghost use Rattle.std.specs.Prelude.{◌≡◌, ◌≤◌, length};
ghost use Rattle.message.specs.FromModule.{from_module_of, read_from_module, from_itself, response_meaning, reception_meaning, status_meaning};
ghost use Rattle.message.specs.FromModule.{reception_refusal, reception_layout, delivery_refusal};
ghost use Rattle.message.specs.FromModule.{delivery_layout, notice_refusal, notice_layout};
ghost use Rattle.message.specs.Status.{standard_layout, standard_at, remote_layout, remote_at};
ghost use Rattle.message.specs.Address.{plain_refusal};
ghost use Rattle.message.specs.Write.{Writes};

use crate::address::is_plain;
use crate::number::{long, word};
use crate::refusal::{Refusal, ensure};
use crate::setup::{
    SetupReport, read_ack, read_control, read_information, read_settings, write_report,
    write_settings,
};
use crate::simple::{Simple, write_simple};
use crate::status::{RemoteStatus, StandardStatus};
use crate::write::{PayloadWriter, send};
use frame::Framing;

// An extended message from the module. Both addresses are carried unjudged.
#[derive(Clone, Copy)]
pub struct Reception {
    pub sender: u8,
    pub response_id: u8,
    pub source: u32,
    pub destination: u32,
    pub lqi: u8,
}

// The messages from the module that carry data.
#[derive(Clone, Copy)]
pub enum Delivery {
    Simple(Simple),
    Extended(Reception),
    // F3: the module's settings, a list, which is the data.
    Settings,
}

#[derive(Clone, Copy)]
pub enum Outcome {
    Failure = 0,
    Success = 1,
}

// The module's response to a transmission.
#[derive(Clone, Copy)]
pub struct Response {
    pub id: u8,
    pub outcome: Outcome,
}

// The messages from the module that carry no data.
#[derive(Clone, Copy)]
pub enum Notice {
    Response(Response),
    Standard(StandardStatus),
    Remote(RemoteStatus),
    // A report of the module on itself.
    Setup(SetupReport),
}

// A payload from the module.
#[derive(Clone, Copy)]
pub enum FromModule {
    // A message whose data are the payload's bytes from `start` on.
    Delivery { delivery: Delivery, start: usize },
    Notice(Notice),
}

// Reads a response.
#[tactic(auto, unfolding(crate::specs::FromModule::response_meaning))]
fn read_response(payload: &[u8]) -> Result<FromModule, Refusal>
    ensures { from_module_of result ≡ response_meaning payload.now }
{
    ensure(payload.len() == 4, Refusal::Length)?;
    let outcome = match payload[3] {
        0 => Outcome::Failure,
        1 => Outcome::Success,
        _ => return Err(Refusal::Field),
    };
    Ok(FromModule::Notice(Notice::Response(Response {
        id: payload[2],
        outcome,
    })))
}

// Reads a payload that begins with DB: a response, or a report of the module on itself.
#[tactic(auto, unfolding(crate::specs::FromModule::from_itself))]
fn read_from_itself(payload: &[u8]) -> Result<FromModule, Refusal>
    requires { 2 ≤ length payload.now }
    ensures { from_module_of result ≡ from_itself payload.now }
{
    match payload[1] {
        0xA1 => read_response(payload),
        0xF0 => read_ack(payload),
        0xF1 => read_information(payload),
        0xF3 => read_settings(payload),
        0xF8 => read_control(payload),
        _ => Err(Refusal::Command),
    }
}

// Reads an extended message.
#[tactic(auto, unfolding(crate::specs::FromModule::reception_meaning))]
fn read_reception(payload: &[u8]) -> Result<FromModule, Refusal>
    requires { length payload.now ≤ 256 }
    ensures { from_module_of result ≡ reception_meaning payload.now }
{
    let len = payload.len();
    ensure(14 <= len, Refusal::Length)?;
    ensure(usize::from(word(payload, 12)) == len - 14, Refusal::Count)?;
    Ok(FromModule::Delivery {
        delivery: Delivery::Extended(Reception {
            sender: payload[0],
            response_id: payload[2],
            source: long(payload, 3),
            destination: long(payload, 7),
            lqi: payload[11],
        }),
        start: 14,
    })
}

// The standard status in a payload of 23 bytes.
fn standard_at(payload: &[u8]) -> StandardStatus
    requires { length payload.now ≡ 23 }
    ensures { result ≡ standard_at payload.now }
{
    StandardStatus {
        sender: payload[0],
        identifier: payload[2],
        lqi: payload[4],
        serial: long(payload, 5),
        destination: payload[9],
        time: word(payload, 10),
        relays: payload[12],
        supply: word(payload, 13),
        unused: payload[15],
        di: payload[16],
        di_changed: payload[17],
        ad1: payload[18],
        ad2: payload[19],
        ad3: payload[20],
        ad4: payload[21],
        correction: payload[22],
    }
}

// The remote status in a payload of 20 bytes.
fn remote_at(payload: &[u8]) -> RemoteStatus
    requires { length payload.now ≡ 20 }
    ensures { result ≡ remote_at payload.now }
{
    RemoteStatus {
        sender: payload[0],
        lqi: payload[4],
        serial: long(payload, 5),
        destination: payload[9],
        time: word(payload, 10),
        relays: payload[12],
        signals: word(payload, 13),
        mask: word(payload, 15),
        interrupts: word(payload, 17),
        unused: payload[19],
    }
}

// Reads a status; the length says which one it is.
#[tactic(auto, unfolding(crate::specs::FromModule::status_meaning, crate::specs::FromModule::standard_meaning, crate::specs::FromModule::remote_meaning))]
fn read_status(payload: &[u8]) -> Result<FromModule, Refusal>
    ensures { from_module_of result ≡ status_meaning payload.now }
{
    match payload.len() {
        23 => {
            ensure(payload[3] == 0x01, Refusal::Field)?;
            Ok(FromModule::Notice(Notice::Standard(standard_at(payload))))
        }
        20 => {
            ensure(payload[2] == 0x0F && payload[3] == 0x01, Refusal::Field)?;
            Ok(FromModule::Notice(Notice::Remote(remote_at(payload))))
        }
        _ => Err(Refusal::Length),
    }
}

// Reads a payload as a message from the module. The refusals in their order: 7 where it has under 2 or over 256 bytes, 8 for an address, 9 for a
// command, 7 for a length, then 11, 12, 17.
#[tactic(auto, unfolding(crate::specs::FromModule::read_from_module, crate::specs::FromModule::sender_meaning))]
pub fn read_from_module(payload: &[u8]) -> Result<FromModule, Refusal>
    ensures { from_module_of result ≡ read_from_module payload.now }
{
    ensure(matches!(payload.len(), 2..=256), Refusal::Length)?;
    let address = payload[0];
    let command = payload[1];
    if address == 0xDB {
        return read_from_itself(payload);
    }
    ensure(is_plain(address), Refusal::Address)?;
    match command {
        0x00..=0x7F => Ok(FromModule::Delivery {
            delivery: Delivery::Simple(Simple { address, command }),
            start: 2,
        }),
        0x81 => read_status(payload),
        0xA0 => read_reception(payload),
        _ => Err(Refusal::Command),
    }
}

// Writes an extended message with its data.
fn write_reception(
    framing: Framing,
    message: Reception,
    data: &[u8],
    buf: &mut [u8],
) -> Result<usize, Refusal>
    ensures { Writes framing (reception_refusal message) (reception_layout message «data».now) buf.old result buf.new }
{
    ensure(is_plain(message.sender), Refusal::Address)?;
    let len = u16::try_from(data.len()).map_err(|_| Refusal::Payload)?;
    let mut payload = PayloadWriter::new();
    payload.put(&[message.sender, 0xA0, message.response_id]);
    payload.put_long(message.source);
    payload.put_long(message.destination);
    payload.put(&[message.lqi]);
    payload.put_word(len);
    payload.send_with(framing, data, buf)
}

// Writes a message from the module with its data as a frame into the front of buf; the rest of buf stays. The refusals in their order: 8, 9, 17, then
// 14 where the payload has over 256 bytes, 13 where buf is shorter than the frame. A refusal leaves all of buf.
pub fn write_delivery(
    framing: Framing,
    delivery: Delivery,
    data: &[u8],
    buf: &mut [u8],
) -> Result<usize, Refusal>
    ensures { Writes framing (delivery_refusal delivery «data».now) (delivery_layout delivery «data».now)
        buf.old result buf.new }
{
    match delivery {
        Delivery::Simple(message) => write_simple(framing, message, data, buf),
        Delivery::Extended(message) => write_reception(framing, message, data, buf),
        Delivery::Settings => write_settings(framing, 0xF3, data, buf),
    }
}

// Writes a standard status.
fn write_standard(framing: Framing, s: StandardStatus, buf: &mut [u8]) -> Result<usize, Refusal>
    ensures { Writes framing (plain_refusal s.sender) (standard_layout s) buf.old result buf.new }
{
    ensure(is_plain(s.sender), Refusal::Address)?;
    let serial = s.serial.to_be_bytes();
    let time = s.time.to_be_bytes();
    let supply = s.supply.to_be_bytes();
    let payload = [
        s.sender,
        0x81,
        s.identifier,
        0x01,
        s.lqi,
        serial[0],
        serial[1],
        serial[2],
        serial[3],
        s.destination,
        time[0],
        time[1],
        s.relays,
        supply[0],
        supply[1],
        s.unused,
        s.di,
        s.di_changed,
        s.ad1,
        s.ad2,
        s.ad3,
        s.ad4,
        s.correction,
    ];
    send(framing, &payload, buf)
}

// Writes a remote status.
fn write_remote(framing: Framing, s: RemoteStatus, buf: &mut [u8]) -> Result<usize, Refusal>
    ensures { Writes framing (plain_refusal s.sender) (remote_layout s) buf.old result buf.new }
{
    ensure(is_plain(s.sender), Refusal::Address)?;
    let serial = s.serial.to_be_bytes();
    let time = s.time.to_be_bytes();
    let signals = s.signals.to_be_bytes();
    let mask = s.mask.to_be_bytes();
    let interrupts = s.interrupts.to_be_bytes();
    let payload = [
        s.sender,
        0x81,
        0x0F,
        0x01,
        s.lqi,
        serial[0],
        serial[1],
        serial[2],
        serial[3],
        s.destination,
        time[0],
        time[1],
        s.relays,
        signals[0],
        signals[1],
        mask[0],
        mask[1],
        interrupts[0],
        interrupts[1],
        s.unused,
    ];
    send(framing, &payload, buf)
}

// Writes a message from the module that carries no data as a frame into the front of buf; the rest of buf stays. The refusals in their order: 8, 13. A
// refusal leaves all of buf.
pub fn write_notice(framing: Framing, notice: Notice, buf: &mut [u8]) -> Result<usize, Refusal>
    ensures { Writes framing (notice_refusal notice) (notice_layout notice) buf.old result buf.new }
{
    match notice {
        Notice::Response(response) => {
            let result = response.outcome as u8;
            send(framing, &[0xDB, 0xA1, response.id, result], buf)
        }
        Notice::Standard(status) => write_standard(framing, status, buf),
        Notice::Remote(status) => write_remote(framing, status, buf),
        Notice::Setup(report) => write_report(framing, report, buf),
    }
}

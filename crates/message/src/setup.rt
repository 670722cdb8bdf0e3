// Setting up the module itself: the family DB of sheet 000, and what the module reports.
ghost use Rattle.std.specs.Prelude.{◌≡◌, ◌≤◌, length, true, false, OnOk, OnErr, IfErr};
ghost use Rattle.settings.specs.List.{is_list};
ghost use Rattle.message.specs.declared.refusal.Refusal.TheVariants.{Identifier};
ghost use Rattle.message.specs.Setup.{command_number, command_of, setup_layout, settings_layout, settings_refusal, information_layout, report_layout};
ghost use Rattle.message.specs.ToModule.{to_module_of, to_itself};
ghost use Rattle.message.specs.FromModule.{from_module_of, ack_meaning, information_meaning, settings_meaning, control_meaning};
ghost use Rattle.message.specs.Write.{Writes};

use crate::from_module::{Delivery, FromModule, Notice};
use crate::number::long;
use crate::refusal::{Refusal, ensure};
use crate::to_module::{Request, ToModule};
use crate::write::{PayloadWriter, send};
use frame::Framing;

// The commands to the module itself with nothing after them.
#[derive(Clone, Copy)]
pub enum SetupCommand {
    // F0: asks for an acknowledgement.
    EnableAck = 0xF0,
    // F1: asks for information.
    GetInformation = 0xF1,
    // F3: asks for the settings.
    GetSettings = 0xF3,
    // FD: erases the settings and resets the module.
    EraseSettings = 0xFD,
    // FE: saves the settings that were applied and resets the module.
    SaveSettings = 0xFE,
    // FF: drops the settings that were applied and resets the module.
    Reset = 0xFF,
}

// The information of F1. Every field is carried unjudged.
#[derive(Clone, Copy)]
pub struct Information {
    pub application: u32,
    // 00010407 stands for 1.4.7.
    pub version: u32,
    // The logical device ID.
    pub device: u8,
    pub serial: u32,
    // Whether silent mode is on: 1 or 0 by the sheet; any byte is carried.
    pub silent: u8,
    // Whether the network is up: 1 or 0 by the sheet; any byte is carried.
    pub network: u8,
}

// What the module reports of itself, but for its settings: those are data.
#[derive(Clone, Copy)]
pub enum SetupReport {
    // F0.
    Acknowledged,
    // F1.
    Information(Information),
    // F3 FF: it failed; by the sheet, the settings of an F2 were not applied.
    SettingsFailed,
    // F8: whether silent mode is released.
    SilentMode { released: bool },
}

impl SetupCommand {
    // The command's number in sheet 000.
    pub fn number(self) -> u8
        ensures { result ≡ command_number self }
    {
        self as u8
    }

    // The command with this number, if any.
    #[tactic(auto, unfolding(crate::specs::Setup::command_of))]
    pub fn named(number: u8) -> Option<SetupCommand>
        ensures { result ≡ command_of number }
    {
        match number {
            0xF0 => Some(SetupCommand::EnableAck),
            0xF1 => Some(SetupCommand::GetInformation),
            0xF3 => Some(SetupCommand::GetSettings),
            0xFD => Some(SetupCommand::EraseSettings),
            0xFE => Some(SetupCommand::SaveSettings),
            0xFF => Some(SetupCommand::Reset),
            _ => None,
        }
    }
}

// Refuses what is no settings list.
fn check_list(list: &[u8]) -> Result<(), Refusal>
    ensures ok { OnOk result (is_list list.now ≡ true) }
    ensures err { OnErr result (is_list list.now ≡ false) }
    ensures refusal { IfErr result (λ e. e ≡ Identifier) }
{
    ensure(settings::is_list(list), Refusal::Identifier)
}

// Reads a payload to the module that begins with DB.
#[tactic(auto, unfolding(crate::specs::ToModule::to_itself))]
pub(crate) fn read_setup(payload: &[u8]) -> Result<ToModule, Refusal>
    requires { 2 ≤ length payload.now }
    ensures { to_module_of result ≡ to_itself payload.now }
{
    let number = payload[1];
    if number == 0xF2 {
        check_list(&payload[2..])?;
        return Ok(ToModule::Request {
            request: Request::Settings,
            start: 2,
        });
    }
    let command = SetupCommand::named(number).ok_or(Refusal::Command)?;
    ensure(payload.len() == 2, Refusal::Length)?;
    Ok(ToModule::Setup(command))
}

// Reads an acknowledgement.
#[tactic(auto, unfolding(crate::specs::FromModule::ack_meaning))]
pub(crate) fn read_ack(payload: &[u8]) -> Result<FromModule, Refusal>
    ensures { from_module_of result ≡ ack_meaning payload.now }
{
    ensure(payload.len() == 3, Refusal::Length)?;
    ensure(payload[2] == 0x01, Refusal::Field)?;
    Ok(FromModule::Notice(Notice::Setup(SetupReport::Acknowledged)))
}

// Reads the module's information.
#[tactic(auto, unfolding(crate::specs::FromModule::information_meaning))]
pub(crate) fn read_information(payload: &[u8]) -> Result<FromModule, Refusal>
    ensures { from_module_of result ≡ information_meaning payload.now }
{
    ensure(payload.len() == 17, Refusal::Length)?;
    Ok(FromModule::Notice(Notice::Setup(SetupReport::Information(Information {
        application: long(payload, 2),
        version: long(payload, 6),
        device: payload[10],
        serial: long(payload, 11),
        silent: payload[15],
        network: payload[16],
    }))))
}

// Reads the module's settings, or that it failed.
#[tactic(auto, unfolding(crate::specs::FromModule::settings_meaning))]
pub(crate) fn read_settings(payload: &[u8]) -> Result<FromModule, Refusal>
    requires { 2 ≤ length payload.now }
    ensures { from_module_of result ≡ settings_meaning payload.now }
{
    if payload.len() == 3 && payload[2] == 0xFF {
        return Ok(FromModule::Notice(Notice::Setup(SetupReport::SettingsFailed)));
    }
    check_list(&payload[2..])?;
    Ok(FromModule::Delivery {
        delivery: Delivery::Settings,
        start: 2,
    })
}

// Reads the state of silent mode.
#[tactic(auto, unfolding(crate::specs::FromModule::control_meaning))]
pub(crate) fn read_control(payload: &[u8]) -> Result<FromModule, Refusal>
    ensures { from_module_of result ≡ control_meaning payload.now }
{
    ensure(payload.len() == 4, Refusal::Length)?;
    ensure(payload[2] == 0x11 && payload[3] <= 1, Refusal::Field)?;
    Ok(FromModule::Notice(Notice::Setup(SetupReport::SilentMode {
        released: payload[3] == 1,
    })))
}

// Writes a settings list behind DB and a command.
pub(crate) fn write_settings(
    framing: Framing,
    command: u8,
    list: &[u8],
    buf: &mut [u8],
) -> Result<usize, Refusal>
    ensures { Writes framing (settings_refusal list.now) (settings_layout command list.now)
        buf.old result buf.new }
{
    check_list(list)?;
    let mut payload = PayloadWriter::new();
    payload.put(&[0xDB, command]);
    payload.send_with(framing, list, buf)
}

// Writes a command to the module itself as a frame into the front of buf; the rest of buf stays. Refused with 13, which leaves all of buf.
pub fn write_setup(
    framing: Framing,
    command: SetupCommand,
    buf: &mut [u8],
) -> Result<usize, Refusal>
    ensures { Writes framing 0 (setup_layout command) buf.old result buf.new }
{
    send(framing, &[0xDB, command.number()], buf)
}

// Writes the module's information.
fn write_information(
    framing: Framing,
    information: Information,
    buf: &mut [u8],
) -> Result<usize, Refusal>
    ensures { Writes framing 0 (information_layout information) buf.old result buf.new }
{
    let application = information.application.to_be_bytes();
    let version = information.version.to_be_bytes();
    let serial = information.serial.to_be_bytes();
    let payload = [
        0xDB,
        0xF1,
        application[0],
        application[1],
        application[2],
        application[3],
        version[0],
        version[1],
        version[2],
        version[3],
        information.device,
        serial[0],
        serial[1],
        serial[2],
        serial[3],
        information.silent,
        information.network,
    ];
    send(framing, &payload, buf)
}

// Writes what the module reports of itself, but for its settings.
pub(crate) fn write_report(
    framing: Framing,
    report: SetupReport,
    buf: &mut [u8],
) -> Result<usize, Refusal>
    ensures { Writes framing 0 (report_layout report) buf.old result buf.new }
{
    match report {
        SetupReport::Acknowledged => send(framing, &[0xDB, 0xF0, 0x01], buf),
        SetupReport::Information(information) => write_information(framing, information, buf),
        SetupReport::SettingsFailed => send(framing, &[0xDB, 0xF3, 0xFF], buf),
        SetupReport::SilentMode { released } => send(
            framing,
            &[0xDB, 0xF8, 0x11, u8::from(released)],
            buf,
        ),
    }
}

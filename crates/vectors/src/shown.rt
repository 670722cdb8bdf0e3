// How messages and their parts print. Numbers are hex capitals, unless a comment says decimal.
use console::HexField;
use message::{
    Address, Channel, Delivery, Information, Notice, Options, Outcome, OutputChange, Reception,
    RemoteStatus, Request, Response, SetupCommand, SetupReport, Simple, StandardStatus,
    Transmission,
};
use settings::{Setting, setting_at};
use std::fmt;

// A message, or a part of one, that prints.
#[derive(Clone, Copy)]
pub struct Shown<T>(pub T);

// A message that prints with its data.
#[derive(Clone, Copy)]
pub struct Carrying<'a, T> {
    pub message: T,
    pub data: &'a [u8],
}

// A settings list that prints as its settings, found by their indices from 0 on until one is past the last, or that the bytes are no list.
#[derive(Clone, Copy)]
pub struct Walk<'a>(pub &'a [u8]);

// What stands behind the number of an option that is given.
#[derive(Clone, Copy)]
enum Argument {
    Nothing,
    Byte(u8),
    Word(u16),
}

impl fmt::Display for Carrying<'_, Request> {
    fn fmt<W: fmt::Write>(&self, f: &mut fmt::Formatter<W>) -> fmt::Result {
        let data = HexField(self.data);
        match self.message {
            Request::Simple(simple) => write!(f, "{} {data}", Shown(simple)),
            Request::Extended(transmission) => write!(f, "{} {data}", Shown(transmission)),
            Request::Settings => write!(f, "settings F2 {data}{}", Walk(self.data)),
        }
    }
}

impl fmt::Display for Carrying<'_, Delivery> {
    fn fmt<W: fmt::Write>(&self, f: &mut fmt::Formatter<W>) -> fmt::Result {
        let data = HexField(self.data);
        match self.message {
            Delivery::Simple(simple) => write!(f, "{} {data}", Shown(simple)),
            Delivery::Extended(reception) => write!(f, "{} {data}", Shown(reception)),
            Delivery::Settings => write!(f, "settings F3 {data}{}", Walk(self.data)),
        }
    }
}

// Each setting has a byte at least, so no index above the list's length is looked at. Places and lengths are decimal.
impl fmt::Display for Walk<'_> {
    fn fmt<W: fmt::Write>(&self, f: &mut fmt::Formatter<W>) -> fmt::Result {
        for index in 0..=self.0.len() {
            match setting_at(self.0, index) {
                Ok(
                    Some(
                        Setting {
                            identifier,
                            start,
                            len,
                        },
                    ),
                ) => write!(f, " {identifier:02X}@{start}+{len}")?,
                Ok(None) => break,
                Err(_) => return f.write_str(" refused 17"),
            }
        }
        Ok(())
    }
}

impl fmt::Display for Shown<Notice> {
    fn fmt<W: fmt::Write>(&self, f: &mut fmt::Formatter<W>) -> fmt::Result {
        match self.0 {
            Notice::Response(response) => write!(f, "{}", Shown(response)),
            Notice::Standard(status) => write!(f, "{}", Shown(status)),
            Notice::Remote(status) => write!(f, "{}", Shown(status)),
            Notice::Setup(report) => write!(f, "{}", Shown(report)),
        }
    }
}

impl fmt::Display for Shown<SetupCommand> {
    fn fmt<W: fmt::Write>(&self, f: &mut fmt::Formatter<W>) -> fmt::Result {
        write!(f, "setup {:02X}", self.0.number())
    }
}

impl fmt::Display for Shown<SetupReport> {
    fn fmt<W: fmt::Write>(&self, f: &mut fmt::Formatter<W>) -> fmt::Result {
        match self.0 {
            SetupReport::Acknowledged => f.write_str("acknowledged"),
            SetupReport::Information(information) => write!(f, "{}", Shown(information)),
            SetupReport::SettingsFailed => f.write_str("failed"),
            SetupReport::SilentMode { released } => write!(f, "control {}", u8::from(released)),
        }
    }
}

impl fmt::Display for Shown<Information> {
    fn fmt<W: fmt::Write>(&self, f: &mut fmt::Formatter<W>) -> fmt::Result {
        let Information {
            application,
            version,
            device,
            serial,
            silent,
            network,
        } = self.0;
        write!(
            f,
            "information {application:08X} {version:08X} {device:02X} {serial:08X}"
        )?;
        write!(f, " {silent:02X} {network:02X}")
    }
}

impl fmt::Display for Shown<Simple> {
    fn fmt<W: fmt::Write>(&self, f: &mut fmt::Formatter<W>) -> fmt::Result {
        let Simple { address, command } = self.0;
        write!(f, "simple {address:02X} {command:02X}")
    }
}

// The head of an extended message to the module.
impl fmt::Display for Shown<Transmission> {
    fn fmt<W: fmt::Write>(&self, f: &mut fmt::Formatter<W>) -> fmt::Result {
        let Transmission {
            address,
            response_id,
            options,
        } = self.0;
        write!(
            f,
            "extended {} {response_id:02X} {}",
            Shown(address),
            Shown(options)
        )
    }
}

impl fmt::Display for Shown<Address> {
    fn fmt<W: fmt::Write>(&self, f: &mut fmt::Formatter<W>) -> fmt::Result {
        match self.0 {
            Address::Plain(plain) => write!(f, "{plain:02X}"),
            Address::Extended(long) => write!(f, "{long:08X}"),
        }
    }
}

// The options that are given, with commas between, or `none`.
impl fmt::Display for Shown<Options> {
    fn fmt<W: fmt::Write>(&self, f: &mut fmt::Formatter<W>) -> fmt::Result {
        let options = self.0;
        let arguments = [
            options.mac_ack.then_some(Argument::Nothing),
            options.retries.map(Argument::Byte),
            options.lower_delay.map(Argument::Word),
            options.upper_delay.map(Argument::Word),
            options.interval.map(Argument::Word),
            options.parallel.then_some(Argument::Nothing),
            options.no_response.then_some(Argument::Nothing),
            options.sleep.then_some(Argument::Nothing),
        ];
        let mut separator = "";
        for (index, argument) in arguments.iter().enumerate() {
            if let Some(argument) = argument {
                write!(f, "{separator}{:02X}{argument}", index + 1)?;
                separator = ",";
            }
        }
        if separator.is_empty() {
            return f.write_str("none");
        }
        Ok(())
    }
}

impl fmt::Display for Argument {
    fn fmt<W: fmt::Write>(&self, f: &mut fmt::Formatter<W>) -> fmt::Result {
        match *self {
            Argument::Nothing => Ok(()),
            Argument::Byte(byte) => write!(f, "={byte:02X}"),
            Argument::Word(word) => write!(f, "={word:04X}"),
        }
    }
}

impl fmt::Display for Shown<OutputChange> {
    fn fmt<W: fmt::Write>(&self, f: &mut fmt::Formatter<W>) -> fmt::Result {
        let OutputChange {
            address,
            signals,
            mask,
        } = self.0;
        write!(f, "output {address:02X} {signals:04X} {mask:04X}")
    }
}

// The head of an extended message from the module.
impl fmt::Display for Shown<Reception> {
    fn fmt<W: fmt::Write>(&self, f: &mut fmt::Formatter<W>) -> fmt::Result {
        let Reception {
            sender,
            response_id,
            source,
            destination,
            lqi,
        } = self.0;
        write!(
            f,
            "extended {sender:02X} {response_id:02X} {source:08X} {destination:08X} {lqi:02X}"
        )
    }
}

impl fmt::Display for Shown<Response> {
    fn fmt<W: fmt::Write>(&self, f: &mut fmt::Formatter<W>) -> fmt::Result {
        let Response { id, outcome } = self.0;
        let word = match outcome {
            Outcome::Failure => "fail",
            Outcome::Success => "ok",
        };
        write!(f, "response {id:02X} {word}")
    }
}

// The fields, then the four channels in mV, in decimal.
impl fmt::Display for Shown<StandardStatus> {
    fn fmt<W: fmt::Write>(&self, f: &mut fmt::Formatter<W>) -> fmt::Result {
        let s = self.0;
        write!(
            f,
            "standard {:02X} {:02X} {:02X} {:08X}",
            s.sender, s.identifier, s.lqi, s.serial
        )?;
        write!(
            f,
            " {:02X} {:04X} {:02X} {:04X}",
            s.destination, s.time, s.relays, s.supply
        )?;
        write!(f, " {:02X} {:02X} {:02X}", s.unused, s.di, s.di_changed)?;
        write!(
            f,
            " {:02X} {:02X} {:02X} {:02X} {:02X}",
            s.ad1, s.ad2, s.ad3, s.ad4, s.correction
        )?;
        for channel in [Channel::One, Channel::Two, Channel::Three, Channel::Four] {
            write!(f, " {}", s.millivolts(channel))?;
        }
        Ok(())
    }
}

impl fmt::Display for Shown<RemoteStatus> {
    fn fmt<W: fmt::Write>(&self, f: &mut fmt::Formatter<W>) -> fmt::Result {
        let s = self.0;
        write!(
            f,
            "remote {:02X} {:02X} {:08X} {:02X}",
            s.sender, s.lqi, s.serial, s.destination
        )?;
        write!(
            f,
            " {:04X} {:02X} {:04X} {:04X}",
            s.time, s.relays, s.signals, s.mask
        )?;
        write!(f, " {:04X} {:02X}", s.interrupts, s.unused)
    }
}

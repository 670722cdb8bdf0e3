// Prints what a payload means to the module and from the module, a line for each direction. Fields are hex capitals, the channels
// in mV decimal; data that are empty are `-`. Behind `to`:
// - `simple ADDRESS COMMAND DATA`
// - `extended ADDRESS ID OPTIONS DATA`, the address with two digits or, an extended one, with eight
// - `output ADDRESS SIGNALS MASK`
// - `settings F2 LIST`, and each setting of the list as `ID@START+LEN`: where its data begin and their length, decimal
// - `setup COMMAND`
//
// Behind `from`:
// - `simple SENDER COMMAND DATA`
// - `extended SENDER ID SOURCE DESTINATION LQI DATA`
// - `response ID ok` or `fail`
// - `standard SENDER IDENTIFIER LQI SERIAL DESTINATION TIME RELAYS SUPPLY UNUSED DI CHANGED AD1 AD2 AD3 AD4 CORRECTION` and the
//   four channels in mV
// - `remote SENDER LQI SERIAL DESTINATION TIME RELAYS SIGNALS MASK INTERRUPTS UNUSED`
// - `settings F3 LIST`, and each setting of the list likewise
// - `acknowledged`
// - `information APPLICATION VERSION DEVICE SERIAL SILENT NETWORK`
// - `failed`
// - `control 0` or `control 1`
//
// Such a line ends in `same` where the message, written with its data by the crate message, is the frame that was read, and in
// `other` where it is not, as with options that do not stand in ascending order, or a frame without its footer. Behind either: `refused` and
// the number.
use crate::shown::{Carrying, Shown};
use console::{front, rest};
use frame::Framing;
use message::{FromModule, ToModule};
use std::{fmt, io};

// A frame that was read: its payload, and all of its bytes.
#[derive(Clone, Copy)]
pub struct ReadFrame<'a> {
    pub framing: Framing,
    pub payload: &'a [u8],
    pub whole: &'a [u8],
}

impl ReadFrame<'_> {
    // Whether the frame that is written for the payload is this one.
    pub fn is_written(&self) -> bool {
        let mut back = [0u8; 517];
        let len = frame::write_frame(self.framing, self.payload, &mut back).unwrap_or(0);
        self.is_whole(&back, len)
    }

    // Prints both meanings of the payload.
    pub fn print_meanings(&self, rt: &impl Print) -> io::Result<()> {
        print!(rt; "  to ")?;
        self.print_to_module(rt)?;
        print!(rt; "  from ")?;
        self.print_from_module(rt)
    }

    // Prints what the payload means to the module, and whether that is written as this frame.
    fn print_to_module(&self, rt: &impl Print) -> io::Result<()> {
        let mut back = [0u8; 517];
        match message::read_to_module(self.payload) {
            Ok(ToModule::Request { request, start }) => {
                let data = rest(self.payload, start);
                let written = message::write_request(self.framing, request, data, &mut back);
                let text = Carrying {
                    message: request,
                    data,
                };
                print_message(rt, text, self.is_whole(&back, written.unwrap_or(0)))
            }
            Ok(ToModule::OutputChange(change)) => {
                let written = message::write_output_change(self.framing, change, &mut back);
                print_message(
                    rt,
                    Shown(change),
                    self.is_whole(&back, written.unwrap_or(0)),
                )
            }
            Ok(ToModule::Setup(command)) => {
                let written = message::write_setup(self.framing, command, &mut back);
                print_message(
                    rt,
                    Shown(command),
                    self.is_whole(&back, written.unwrap_or(0)),
                )
            }
            Err(refusal) => println!(rt; "refused {}", refusal.number()),
        }
    }

    // The same from the module.
    fn print_from_module(&self, rt: &impl Print) -> io::Result<()> {
        let mut back = [0u8; 517];
        match message::read_from_module(self.payload) {
            Ok(FromModule::Delivery { delivery, start }) => {
                let data = rest(self.payload, start);
                let written = message::write_delivery(self.framing, delivery, data, &mut back);
                let text = Carrying {
                    message: delivery,
                    data,
                };
                print_message(rt, text, self.is_whole(&back, written.unwrap_or(0)))
            }
            Ok(FromModule::Notice(notice)) => {
                let written = message::write_notice(self.framing, notice, &mut back);
                print_message(
                    rt,
                    Shown(notice),
                    self.is_whole(&back, written.unwrap_or(0)),
                )
            }
            Err(refusal) => println!(rt; "refused {}", refusal.number()),
        }
    }

    // Whether the first bytes of a buffer, as many as were written there, are this frame.
    fn is_whole(&self, back: &[u8], len: usize) -> bool {
        front(back, len) == self.whole
    }
}

// Prints a message, and whether it is written as the frame that was read.
fn print_message<D: fmt::Display + Drop>(
    rt: &impl Print,
    text: D,
    is_same: bool,
) -> io::Result<()> {
    let ending = if is_same { "same" } else { "other" };
    println!(rt; "{text} {ending}")
}

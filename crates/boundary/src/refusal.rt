// Refusals as numbers.
ghost use Rattle.std.specs.Prelude.{◌≡◌, ℕ};
ghost use Rattle.frame.specs.Refusal.{number_of as frame_number};
ghost use Rattle.message.specs.Refusal.{number_of as message_number};
ghost use Rattle.boundary.specs.Refusal.{unnamed_number};

use settings::NotAList;

// A refusal that has a number.
pub(crate) trait Numbered {
    ghost number_of: { Self → ℕ };

    fn number(self) -> u8
        ensures { result ≡ number_of self };
}

impl Numbered for frame::Refusal {
    ghost number_of = { frame_number };

    fn number(self) -> u8 {
        frame::Refusal::number(self)
    }
}

impl Numbered for message::Refusal {
    ghost number_of = { message_number };

    fn number(self) -> u8 {
        message::Refusal::number(self)
    }
}

impl Numbered for NotAList {
    ghost number_of = { λ _. 17 };

    fn number(self) -> u8 {
        17
    }
}

// Why numbers that a call was given stand for nothing.
#[derive(Clone, Copy)]
pub(crate) enum Unnamed {
    // A number that stands for no framing, format, mark or kind of message.
    Kind = 255,
    // One that names no command.
    Command = 9,
    // A result, or a state of silent mode, that is neither 0 nor 1.
    Flag = 11,
}

impl Numbered for Unnamed {
    ghost number_of = { unnamed_number };

    fn number(self) -> u8 {
        self as u8
    }
}

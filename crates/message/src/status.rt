// The status messages of the standard app and the remote app.
ghost use Rattle.std.specs.Prelude.{◌≡◌, ◌<◌};
ghost use Rattle.message.specs.Status.{millivolts, channel_from};

// The standard app's status. Every field that is not fixed is carried, the unused one too.
#[derive(Clone, Copy)]
pub struct StandardStatus {
    pub sender: u8,
    pub identifier: u8,
    pub lqi: u8,
    pub serial: u32,
    pub destination: u8,
    // In 1/64 s.
    pub time: u16,
    pub relays: u8,
    // In mV.
    pub supply: u16,
    pub unused: u8,
    pub di: u8,
    pub di_changed: u8,
    pub ad1: u8,
    pub ad2: u8,
    pub ad3: u8,
    pub ad4: u8,
    // Two bits for each channel, those of AD1 the lowest.
    pub correction: u8,
}

// The remote app's status. Every field that is not fixed is carried, the unused one too.
#[derive(Clone, Copy)]
pub struct RemoteStatus {
    pub sender: u8,
    pub lqi: u8,
    pub serial: u32,
    pub destination: u8,
    // In 1/64 s. The top bit is carried as it is.
    pub time: u16,
    pub relays: u8,
    pub signals: u16,
    pub mask: u16,
    pub interrupts: u16,
    pub unused: u8,
}

// An analog channel of a standard status.
#[derive(Clone, Copy)]
pub enum Channel {
    One,
    Two,
    Three,
    Four,
}

// A channel in mV, of its byte and its two correction bits.
fn channel_from(byte: u8, bits: u8) -> u16
    requires { bits < 4 }
    ensures { result ≡ channel_from byte bits }
{
    (u16::from(byte) * 4 + u16::from(bits)) * 4
}

impl StandardStatus {
    // An analog channel in mV: (its byte * 4 + its two correction bits) * 4.
    pub fn millivolts(self, channel: Channel) -> u16
        ensures { result ≡ millivolts self channel }
    {
        let correction = self.correction;
        match channel {
            Channel::One => channel_from(self.ad1, correction % 4),
            Channel::Two => channel_from(self.ad2, correction / 4 % 4),
            Channel::Three => channel_from(self.ad3, correction / 16 % 4),
            Channel::Four => channel_from(self.ad4, correction / 64 % 4),
        }
    }
}

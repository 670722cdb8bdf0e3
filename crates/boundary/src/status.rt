// The statuses as numbers.
ghost use Rattle.std.specs.Prelude.{◌≡◌};
ghost use Rattle.boundary.specs.Status.{standard_part, remote_part, standard_in, remote_in};

use message::{RemoteStatus, StandardStatus};

// What a status has beside its sender and its LQI. Fields that a status does not have are 0.
#[repr(C)]
#[derive(Clone, Copy, Default)]
pub struct StatusNumbers {
    pub identifier: u8,
    pub serial: u32,
    pub destination: u8,
    pub time: u16,
    pub relays: u8,
    pub supply: u16,
    pub unused: u8,
    pub di: u8,
    pub di_changed: u8,
    pub ad1: u8,
    pub ad2: u8,
    pub ad3: u8,
    pub ad4: u8,
    pub correction: u8,
    pub signals: u16,
    pub mask: u16,
    pub interrupts: u16,
}

impl From<StandardStatus> for StatusNumbers {
    ghost from_gives = { λ status numbers. numbers ≡ standard_part status };

    fn from(s: StandardStatus) -> StatusNumbers {
        StatusNumbers {
            identifier: s.identifier,
            serial: s.serial,
            destination: s.destination,
            time: s.time,
            relays: s.relays,
            supply: s.supply,
            unused: s.unused,
            di: s.di,
            di_changed: s.di_changed,
            ad1: s.ad1,
            ad2: s.ad2,
            ad3: s.ad3,
            ad4: s.ad4,
            correction: s.correction,
            ..StatusNumbers::default()
        }
    }
}

impl From<RemoteStatus> for StatusNumbers {
    ghost from_gives = { λ status numbers. numbers ≡ remote_part status };

    fn from(s: RemoteStatus) -> StatusNumbers {
        StatusNumbers {
            serial: s.serial,
            destination: s.destination,
            time: s.time,
            relays: s.relays,
            unused: s.unused,
            signals: s.signals,
            mask: s.mask,
            interrupts: s.interrupts,
            ..StatusNumbers::default()
        }
    }
}

pub(crate) fn standard_in(sender: u8, lqi: u8, n: StatusNumbers) -> StandardStatus
    ensures { result ≡ standard_in sender lqi n }
{
    StandardStatus {
        sender,
        identifier: n.identifier,
        lqi,
        serial: n.serial,
        destination: n.destination,
        time: n.time,
        relays: n.relays,
        supply: n.supply,
        unused: n.unused,
        di: n.di,
        di_changed: n.di_changed,
        ad1: n.ad1,
        ad2: n.ad2,
        ad3: n.ad3,
        ad4: n.ad4,
        correction: n.correction,
    }
}

pub(crate) fn remote_in(sender: u8, lqi: u8, n: StatusNumbers) -> RemoteStatus
    ensures { result ≡ remote_in sender lqi n }
{
    RemoteStatus {
        sender,
        lqi,
        serial: n.serial,
        destination: n.destination,
        time: n.time,
        relays: n.relays,
        signals: n.signals,
        mask: n.mask,
        interrupts: n.interrupts,
        unused: n.unused,
    }
}

// The line of a frame.
ghost use Rattle.std.specs.Prelude.{◌≤◌, length};
ghost use Rattle.message.specs.FromModule.{read_from_module};
ghost use Rattle.message.specs.Refusal.{number_of};
ghost use Rattle.listing.specs.Line.{simple_line, reception_line, response_line, standard_line, remote_line, settings_line, refusal_line, meaning_line, line_of};
ghost use Rattle.listing.specs.Parts.{HasRoom, Adds};

use crate::text::Listing;
use message::{
    Delivery, FromModule, Notice, Outcome, Reception, Refusal, RemoteStatus, Response, Simple,
    StandardStatus,
};

impl Listing<'_> {
    #[tactic(auto, unfolding(crate::specs::Line::simple_line))]
    fn put_simple(&mut self, message: Simple, data: &[u8])
        requires { HasRoom self.old (simple_line message «data».now) }
        ensures { Adds self.old (simple_line message «data».now) 0 0 self.new }
    {
        self.put(b"simple");
        self.put_field(&[message.address]);
        self.put_field(&[message.command]);
        self.put_data(data);
    }

    #[tactic(auto, unfolding(crate::specs::Line::reception_line))]
    fn put_reception(&mut self, message: Reception, data: &[u8])
        requires { HasRoom self.old (reception_line message «data».now) }
        ensures { Adds self.old (reception_line message «data».now) 0 0 self.new }
    {
        self.put(b"extended");
        self.put_field(&[message.sender]);
        self.put_field(&[message.response_id]);
        self.put_field(&message.source.to_be_bytes());
        self.put_field(&message.destination.to_be_bytes());
        self.put_field(&[message.lqi]);
        self.put_data(data);
    }

    #[tactic(auto, unfolding(crate::specs::Line::response_line))]
    fn put_response(&mut self, response: Response)
        requires { HasRoom self.old (response_line response) }
        ensures { Adds self.old (response_line response) 0 0 self.new }
    {
        self.put(b"response");
        self.put_field(&[response.id]);
        match response.outcome {
            Outcome::Failure => self.put(b" fail"),
            Outcome::Success => self.put(b" ok"),
        }
    }

    #[tactic(auto, unfolding(crate::specs::Line::standard_line))]
    fn put_standard(&mut self, status: StandardStatus)
        requires { HasRoom self.old (standard_line status) }
        ensures { Adds self.old (standard_line status) 0 0 self.new }
    {
        self.put(b"standard");
        self.put_field(&[status.sender]);
        self.put_field(&status.serial.to_be_bytes());
        self.put_field(&[status.lqi]);
        self.put_field(&status.supply.to_be_bytes());
        self.put_field(&[status.di]);
    }

    #[tactic(auto, unfolding(crate::specs::Line::remote_line))]
    fn put_remote(&mut self, status: RemoteStatus)
        requires { HasRoom self.old (remote_line status) }
        ensures { Adds self.old (remote_line status) 0 0 self.new }
    {
        self.put(b"remote");
        self.put_field(&[status.sender]);
        self.put_field(&status.serial.to_be_bytes());
        self.put_field(&[status.lqi]);
        self.put_field(&status.signals.to_be_bytes());
    }

    // Puts the line of a message that sets up the module, from its payload.
    #[tactic(auto, unfolding(crate::specs::Line::settings_line))]
    fn put_settings(&mut self, payload: &[u8])
        requires in_bounds { 2 ≤ length payload.now }
        requires room { HasRoom self.old (settings_line payload.now) }
        ensures { Adds self.old (settings_line payload.now) 0 0 self.new }
    {
        self.put(b"settings");
        self.put_field(&[payload[1]]);
        self.put_data(&payload[2..]);
    }

    #[tactic(auto, unfolding(crate::specs::Line::refusal_line))]
    fn put_refusal(&mut self, refusal: Refusal)
        requires { HasRoom self.old (refusal_line (number_of refusal)) }
        ensures { Adds self.old (refusal_line (number_of refusal)) 0 0 self.new }
    {
        self.put(b"refused ");
        self.put_decimal(u64::from(refusal.number()));
    }

    // Puts the line of a frame with this payload, but for its end.
    fn put_meaning(&mut self, payload: &[u8])
        requires { HasRoom self.old (meaning_line payload.now (read_from_module payload.now)) }
        ensures { Adds self.old (meaning_line payload.now (read_from_module payload.now)) 0 0 self.new }
    {
        match message::read_from_module(payload) {
            Ok(FromModule::Delivery { delivery, start }) => {
                let data = &payload[start..];
                match delivery {
                    Delivery::Simple(m) => self.put_simple(m, data),
                    Delivery::Extended(m) => self.put_reception(m, data),
                    Delivery::Settings => self.put_settings(payload),
                }
            }
            Ok(FromModule::Notice(notice)) => match notice {
                Notice::Response(m) => self.put_response(m),
                Notice::Standard(m) => self.put_standard(m),
                Notice::Remote(m) => self.put_remote(m),
                Notice::Setup(_) => self.put_settings(payload),
            },
            Err(refusal) => self.put_refusal(refusal),
        }
    }

    // Puts the line of a frame with this payload.
    #[tactic(auto, unfolding(crate::specs::Line::line_of))]
    pub(crate) fn put_line(&mut self, payload: &[u8])
        requires { HasRoom self.old (line_of payload.now) }
        ensures { Adds self.old (line_of payload.now) 0 0 self.new }
    {
        self.put_meaning(payload);
        self.put(b"\n");
    }
}

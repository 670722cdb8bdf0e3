// What payloads mean: the messages of App_Uart, the remote app and the standard app, in both directions.
#![tactic(auto)]

mod address;
mod from_module;
mod number;
mod options;
mod refusal;
mod setup;
mod simple;
mod status;
mod to_module;
mod write;

pub use from_module::{
    Delivery, FromModule, Notice, Outcome, Reception, Response, read_from_module, write_delivery,
    write_notice,
};
pub use options::Options;
pub use refusal::Refusal;
pub use setup::{Information, SetupCommand, SetupReport, write_setup};
pub use simple::Simple;
pub use status::{Channel, RemoteStatus, StandardStatus};
pub use to_module::{
    Address, OutputChange, Request, ToModule, Transmission, read_to_module, write_output_change,
    write_request,
};

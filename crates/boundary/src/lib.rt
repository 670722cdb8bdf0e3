// The library for callers in C or Rust: the calls that read and write frames, lines, messages and settings lists, with numbers and flat structs in place of
// enums. The crate boundary_c exports them.
#![tactic(auto)]

mod framing;
mod from_module;
mod line;
mod options;
mod refusal;
mod setting;
mod single;
mod status;
mod to_module;

pub use from_module::{
    FromModuleNumbers, InformationNumbers, boundary_read_from_module, boundary_write_delivery,
    boundary_write_notice,
};
pub use line::{
    LineAnswer, LineFed, LineReader, boundary_feed, boundary_new_reader, boundary_quiet,
};
pub use options::OptionNumbers;
pub use setting::{FlatSetting, boundary_setting_at};
pub use single::{FlatReading, FlatWriting, boundary_read_frame, boundary_write_frame};
pub use status::StatusNumbers;
pub use to_module::{
    ToModuleNumbers, boundary_read_to_module, boundary_write_output_change, boundary_write_request,
    boundary_write_setup,
};

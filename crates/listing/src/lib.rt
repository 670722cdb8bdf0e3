// The text of booth-list: a line for each frame from the module, and the total of noise.
#![tactic(auto)]

mod line;
mod list;
mod text;

pub use list::{CHUNK_ROOM, Listed, QUIET_ROOM, TOTAL_ROOM, list_chunk, list_quiet, list_total};
pub use text::Lines;

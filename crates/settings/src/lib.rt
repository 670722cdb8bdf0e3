// Settings lists: the parameters of the commands F2 and F3 of the family DB (sheet 000).
#![tactic(auto)]

mod list;
mod walk;

pub use list::is_list;
pub use walk::{NotAList, Setting, setting_at};

// The line reader: frames of App_Uart out of chunks of a serial line, as they come.
#![tactic(auto)]

mod answer;
mod reader;
mod scan;
mod view;

pub use answer::{FeedAnswer, QuietAnswer};
pub use reader::{Fed, Quieted, Reader};
pub use view::{View, Viewed};

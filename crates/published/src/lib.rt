// Published cases: bytes in print, lines of data, and the comparison with what was computed.
#![tactic(auto)]

mod compare;
mod lines;
mod spelling;

pub use compare::Tally;
pub use lines::{AtLine, Line};
pub use spelling::{Hex, Unread, bytes_of};

// Drives a pair of ends by a technician's choices, and hands over the log.
#![tactic(auto)]

mod calls;
mod left_over;
mod opened;
mod pair;
mod run;
mod technician;
mod text;
mod tickets;
mod types;

pub use opened::{run_one_key, run_pair};
pub use pair::drive;
pub use technician::Technician;
pub use types::{Answer, End, Noted, Outcome, Step, Stopped};

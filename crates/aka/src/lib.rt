// Authentication and key agreement (3GPP TS 33.102) over Milenage-256: the network's end and the card's.
#![tactic(auto)]

mod bytes;
mod card;
mod laws;
mod message;
mod network;
mod numbers;
mod pair_end;
mod shared;
mod sizes;
mod ticket;

pub use card::CardEnd;
pub use laws::{numbers_step_and_compare, tokens_are_read_as_written};
pub use message::{ChallengeToken, Message, ResyncToken};
pub use network::{NetworkEnd, Resynced};
pub use pair_end::PairEnd;
pub use sizes::{ResyncMask, Sizes};
pub use ticket::Ticket;

mod reading;

pub use reading::read_message;
pub(crate) use reading::{split_autn, split_auts};

// AUTN, the token of a challenge: parts of the received bytes.
#[derive(Clone, Copy)]
pub struct ChallengeToken<'a> {
    pub masked: &'a [u8],
    pub amf: &'a [u8],
    pub mac: &'a [u8],
}

// AUTS, the token of a resynchronisation: parts of the received bytes.
#[derive(Clone, Copy)]
pub struct ResyncToken<'a> {
    pub masked: &'a [u8],
    pub mac: &'a [u8],
}

// A received token.
#[derive(Clone, Copy)]
pub enum Message<'a> {
    Challenge(ChallengeToken<'a>),
    Resync(ResyncToken<'a>),
}

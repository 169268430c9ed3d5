ghost use Rattle.std.specs.Prelude.{◌≡◌};
ghost use Rattle.block.specs.Refusals.{number as number_of, word as word_of};

use std::error::Error;
use std::fmt;

// Why a call is refused, in the order of the numbers from 1.
#[derive(Clone, Copy, Debug, PartialEq, Eq, Hash)]
pub enum Refusal {
    Key = 1,
    OperatorField,
    Constants,
    Name,
    Index,
    Size,
    Mask,
    Number,
    Rand,
    Amf,
    Carried,
    Buffer,
    Spent,
    Stale,
    Message,
    Mac,
    Behind,
}

impl Refusal {
    // The number, from 1 to 17.
    pub fn number(self) -> u8
        ensures { result ≡ number_of self }
    {
        self as u8
    }

    // The word that stands beside the number in print.
    pub fn word(self) -> &'static str
        ensures { result.now ≡ word_of self }
    {
        match self {
            Refusal::Key => "key",
            Refusal::OperatorField => "operator field",
            Refusal::Constants => "constants",
            Refusal::Name => "name",
            Refusal::Index => "index",
            Refusal::Size => "size",
            Refusal::Mask => "mask",
            Refusal::Number => "number",
            Refusal::Rand => "RAND",
            Refusal::Amf => "AMF",
            Refusal::Carried => "carried",
            Refusal::Buffer => "buffer",
            Refusal::Spent => "spent",
            Refusal::Stale => "stale",
            Refusal::Message => "message",
            Refusal::Mac => "MAC",
            Refusal::Behind => "behind",
        }
    }
}

// The number and its word.
impl fmt::Display for Refusal {
    fn fmt<W: fmt::Write>(&self, f: &mut fmt::Formatter<W>) -> fmt::Result {
        write!(f, "{} {}", self.number(), self.word())
    }
}

impl Error for Refusal {}

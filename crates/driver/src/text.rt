// The text of calls and answers, as a log shows them.
use super::types::{Answer, End, Noted, Outcome, Step, Stopped};
use published::Hex;
use std::fmt;

impl fmt::Display for End {
    fn fmt<W: fmt::Write>(&self, f: &mut fmt::Formatter<W>) -> fmt::Result {
        f.write_str(match self {
            End::Network => "network",
            End::Card => "card",
        })
    }
}

// The call with its arguments. Longer than forty lines: one arm for each step, and each field on a line.
impl fmt::Display for Step {
    fn fmt<W: fmt::Write>(&self, f: &mut fmt::Formatter<W>) -> fmt::Result {
        match self {
            Step::Challenge {
                rand,
                amf,
                room,
                scratch,
            } => {
                write!(f, "challenge rand={:#} amf={:#}", Hex(rand), Hex(amf))?;
                write!(f, " room={room} scratch={scratch}")
            }
            Step::Confirm { serial, res } => {
                write!(f, "confirm ticket={serial} res={:#}", Hex(res))
            }
            Step::Resync {
                serial,
                auts,
                scratch,
            } => {
                let auts = Hex(auts);
                write!(f, "resync ticket={serial} auts={auts:#} scratch={scratch}")
            }
            Step::Lapse { serial } => write!(f, "lapse ticket={serial}"),
            Step::Receive {
                rand,
                autn,
                room,
                auts_room,
                scratch,
            } => {
                write!(f, "receive rand={:#} autn={:#}", Hex(rand), Hex(autn))?;
                write!(f, " room={room} auts={auts_room} scratch={scratch}")
            }
            Step::Trace {
                end,
                index,
                rand,
                size,
                carried,
                room,
                scratch,
            } => {
                write!(f, "trace end={end} index={index} rand={:#}", Hex(rand))?;
                write!(f, " size={size} carried={:#}", Hex(carried))?;
                write!(f, " room={room} scratch={scratch}")
            }
        }
    }
}

impl fmt::Display for Outcome {
    fn fmt<W: fmt::Write>(&self, f: &mut fmt::Formatter<W>) -> fmt::Result {
        match self {
            Outcome::Issued(serial) => write!(f, "issued ticket {serial}"),
            Outcome::Confirmed(true) => f.write_str("yes"),
            Outcome::Confirmed(false) => f.write_str("no"),
            Outcome::Raised => f.write_str("raised"),
            Outcome::Kept => f.write_str("kept"),
            Outcome::Lapsed => f.write_str("lapsed"),
            Outcome::Accepted => f.write_str("accepted"),
            Outcome::Traced => f.write_str("traced"),
        }
    }
}

// What the call yielded, and the bytes written, if any.
impl fmt::Display for Answer {
    fn fmt<W: fmt::Write>(&self, f: &mut fmt::Formatter<W>) -> fmt::Result {
        match &self.yielded {
            Ok(outcome) => write!(f, "{outcome}")?,
            Err(e) => write!(f, "refused {e}")?,
        }
        if !self.wrote.is_empty() {
            write!(f, ", wrote {:#}", Hex(&self.wrote))?;
        }
        if !self.wrote_auts.is_empty() {
            write!(f, ", AUTS {:#}", Hex(&self.wrote_auts))?;
        }
        Ok(())
    }
}

// An entry as one line.
impl fmt::Display for Noted {
    fn fmt<W: fmt::Write>(&self, f: &mut fmt::Formatter<W>) -> fmt::Result {
        write!(f, "{} -> {}", self.call, self.answer)
    }
}

impl fmt::Display for Stopped {
    fn fmt<W: fmt::Write>(&self, f: &mut fmt::Formatter<W>) -> fmt::Result {
        match self {
            Stopped::Refused(e) => write!(f, "refused {e}"),
            Stopped::Memory => f.write_str("out of memory"),
        }
    }
}

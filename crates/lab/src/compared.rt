use cases::Checked;
use published::{Hex, Tally};
use std::fmt;

// Bytes that were compared with what is published, printed with how that came out.
#[derive(Clone, Copy)]
pub struct Compared<'a> {
    bytes: &'a [u8],
    agrees: bool,
}

impl<'a> Compared<'a> {
    // Compares what was computed with what is published, and counts.
    pub fn new(computed: &'a [u8], published: &[u8], tally: &mut Tally) -> Compared<'a> {
        Compared {
            bytes: computed,
            agrees: tally.compare(computed, published),
        }
    }
}

// A block that a published case has compared and counted.
impl<'a> From<&'a Checked> for Compared<'a> {
    fn from(checked: &'a Checked) -> Compared<'a> {
        Compared {
            bytes: &checked.block,
            agrees: checked.agrees,
        }
    }
}

impl fmt::Display for Compared<'_> {
    fn fmt<W: fmt::Write>(&self, f: &mut fmt::Formatter<W>) -> fmt::Result {
        let told = if self.agrees { "equal" } else { "differs" };
        write!(f, "{} {told}", Hex(self.bytes))
    }
}

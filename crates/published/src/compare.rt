ghost use Rattle.published.specs.Comparison.{Compared, Joined};
ghost use Rattle.std.specs.Fmt.{decimal};
ghost use Rattle.std.specs.Prelude.{◌≡◌, ◌++◌, Some, codes};

use std::fmt;

// How many values were compared with what is published, and how many of them differ.
#[derive(Clone, Copy, Default)]
pub struct Tally {
    pub compared: u64,
    pub differing: u64,
}

impl Tally {
    // Nothing compared yet.
    pub fn new() -> Tally
        ensures { (result.compared ≡ 0) × (result.differing ≡ 0) }
    {
        Tally::default()
    }

    // Compares what was computed with what is published, and counts.
    pub fn compare(&mut self, computed: &[u8], published: &[u8]) -> bool
        ensures { Compared self.old computed.now published.now result self.new }
    {
        let agrees = computed == published;
        self.compared = self.compared.saturating_add(1);
        self.differing = self.differing.saturating_add(u64::from(!agrees));
        agrees
    }

    // Counts what another tally has counted too.
    pub fn join(&mut self, part: Tally)
        ensures { Joined self.old part self.new }
    {
        self.compared = self.compared.saturating_add(part.compared);
        self.differing = self.differing.saturating_add(part.differing);
    }
}

impl fmt::Display for Tally {
    ghost output = { λ tally. Some (decimal tally.compared ++ codes " compared, " ++ decimal tally.differing ++ codes " differ") };

    fn fmt<W: fmt::Write>(&self, f: &mut fmt::Formatter<W>) -> fmt::Result {
        write!(f, "{} compared, {} differ", self.compared, self.differing)
    }
}

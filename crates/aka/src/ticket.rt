ghost use Rattle.std.specs.Prelude.{◌≡◌};

// Names an open challenge. Whoever holds it spends it, by confirm, resync or lapse: it is neither copied nor let go.
pub struct Ticket {
    serial: u32,
}

impl Ticket {
    pub(crate) fn issue(serial: u32) -> Ticket
        ensures { result.serial ≡ serial }
    {
        Ticket { serial }
    }

    pub(crate) fn spend(self) -> u32
        ensures { result ≡ self.serial }
    {
        let Ticket { serial } = self;
        serial
    }

    // The serial of the challenge: 1 at an end's first.
    pub fn serial(&self) -> u32
        ensures { result ≡ self.now.serial }
    {
        self.serial
    }
}

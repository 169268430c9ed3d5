ghost use Rattle.std.specs.Prelude.{◌≡◌, length};
ghost use Rattle.block.specs.Bytes.{zeros};

// Lent scratch bytes that are zeros, all of them, once the guard is dropped.
pub struct Wipe<'a>(pub &'a mut [u8]);

impl Drop for Wipe<'_> {
    fn drop(self)
        ensures { self.exit.0.now ≡ zeros (length self.entry.0.now) }
    {
        self.0.fill(0);
        let Wipe(_) = self;
    }
}

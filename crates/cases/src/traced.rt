ghost use Rattle.std.specs.Prelude.{◌≡◌, IfSome};
ghost use Rattle.cases.specs.Places.{placed, label_of};

use super::labelled::{Labelled, with_label};

// The place of a block in a trace: input and output of the first kernel run, IN, input and output of the second, the answer block.
#[derive(Clone, Copy, PartialEq, Eq)]
pub enum Traced {
    FirstInput,
    FirstOutput,
    In,
    SecondInput,
    SecondOutput,
    Answer,
}

impl Labelled for Traced {
    ghost label_text = { label_of };

    // The answer block is not published whole.
    fn label(self) -> &'static str {
        match self {
            Traced::FirstInput => "PRF_in1",
            Traced::FirstOutput => "PRF_out1",
            Traced::In => "IN",
            Traced::SecondInput => "PRF_in2",
            Traced::SecondOutput => "PRF_out2",
            Traced::Answer => "block",
        }
    }
}

impl Traced {
    pub const ALL: [Traced; 6] = [
        Traced::FirstInput,
        Traced::FirstOutput,
        Traced::In,
        Traced::SecondInput,
        Traced::SecondOutput,
        Traced::Answer,
    ];

    // The places whose blocks are published: all but the answer block.
    // The 5 is counted by hand: split_last answers an Option that is never none, and the borrow checker does not cover [published @ .., _] yet.
    fn published() -> &'static [Traced] {
        &Traced::ALL[0..5]
    }

    // The published block of a label.
    pub fn named(label: &str) -> Option<Traced>
        ensures { IfSome result (λ place. label_of place ≡ label.now) }
    {
        with_label(Traced::published(), label)
    }
}

// The six blocks of a computation.
// End to end, as the exported call writes them: std has no clause for what an array is after as_flattened_mut.
#[derive(Clone, Copy)]
pub struct Trace {
    pub blocks: [u8; 192],
}

impl Trace {
    // The block at a place.
    pub fn block(&self, place: Traced) -> [u8; 32]
        ensures { result ≡ placed place self.now.blocks }
    {
        let (blocks, _) = self.blocks.as_chunks::<32>();
        blocks[place as usize]
    }
}

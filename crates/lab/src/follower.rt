use super::latest::Latest;
use aka::Sizes;
use driver::{Noted, Step, Technician};
use script::Source;
use std::alloc::{AllocError, Global};
use std::vec::IntoIter;

// A technician who follows the steps of a script, and takes from the log what the script does not give.
#[derive(Drop)]
pub struct Follower {
    heap: Global,
    steps: IntoIter<Step<Source>>,
    sizes: Sizes,
}

impl Follower {
    pub fn new(heap: Global, steps: Vec<Step<Source>>, sizes: Sizes) -> Follower {
        Follower {
            heap,
            steps: steps.into_iter(),
            sizes,
        }
    }

    // The bytes of a source: those given, or the last ones, which are none where there was no such call. The log is searched
    // for the last ones alone: searched at every step, a script of given bytes would cost the square of its length.
    fn bytes<'a, F: FnOnce() -> Option<&'a [u8]>>(
        &self,
        source: Source,
        last: F,
    ) -> Result<Vec<u8>, AllocError>
        requires { F.IsAlwaysCallable last }
    {
        match source {
            Source::Given(bytes) => Ok(bytes),
            Source::Last => last().unwrap_or_default().to_vec(self.heap),
        }
    }

    // A step of the script as a call. Longer than forty lines: one arm for each step, and each field on a line; a function
    // for each would be handed the same fields.
    fn call(&self, step: Step<Source>, latest: Latest<'_>) -> Result<Step, AllocError> {
        let call = match step {
            Step::Challenge {
                rand,
                amf,
                room,
                scratch,
            } => Step::Challenge {
                rand,
                amf,
                room,
                scratch,
            },
            Step::Confirm { serial, res } => Step::Confirm {
                serial,
                res: self.bytes(res, || latest.res())?,
            },
            Step::Resync {
                serial,
                auts,
                scratch,
            } => Step::Resync {
                serial,
                auts: self.bytes(auts, || latest.auts())?,
                scratch,
            },
            Step::Lapse { serial } => Step::Lapse { serial },
            Step::Receive {
                rand,
                autn,
                room,
                auts_room,
                scratch,
            } => Step::Receive {
                rand: self.bytes(rand, || latest.rand())?,
                autn: self.bytes(autn, || latest.autn())?,
                room,
                auts_room,
                scratch,
            },
            Step::Trace {
                end,
                index,
                rand,
                size,
                carried,
                room,
                scratch,
            } => Step::Trace {
                end,
                index,
                rand: self.bytes(rand, || latest.rand())?,
                size,
                carried,
                room,
                scratch,
            },
        };
        Ok(call)
    }
}

impl Technician for Follower {
    ghost chooses = { λ _ _ _ _. Unit {0} };

    fn next(&mut self, log: &Vec<Noted>) -> Result<Option<Step>, AllocError> {
        let latest = Latest {
            log,
            sizes: self.sizes,
        };
        let step = self.steps.next();
        step.map(|step| self.call(step, latest)).transpose()
    }
}

ghost use Rattle.std.specs.Prelude.{List, IfOk, Option};
ghost use Rattle.session.specs.Log.{Call, Entry};
ghost use Rattle.driver.specs.Seen.{choice_of, logged};

use super::types::{Noted, Step};
use std::alloc::AllocError;

// Whoever chooses the calls that are made at a pair.
pub trait Technician {
    // Holds of the technician before a choice, the log that is shown, the call or the end that is chosen, and the technician after.
    // Where it is always true, any choice is allowed.
    ghost chooses: { Self → List Entry → Option Call → Self → Type 0 };

    // The next call, or none where the session is to end.
    fn next(&mut self, log: &Vec<Noted>) -> Result<Option<Step>, AllocError>
        ensures { IfOk result (λ step. chooses self.old (logged log.now.items) (choice_of step) self.new) };
}

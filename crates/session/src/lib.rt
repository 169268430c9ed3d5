// What holds of the log of every session of a pair.
#![tactic(auto)]

ghost use Rattle.session.specs.Laws.{EverySessionShows, TokensTellTheirNumbers};
ghost use Rattle.session.specs.Worked.{WorkedRun};

// Blocks tell their questions, numbers rise, and a resync restores the pair.
pub fn every_session_shows_the_laws()
    ensures { EverySessionShows }
{}

// AUTN and AUTS tell the numbers that they were made of.
pub fn tokens_tell_their_numbers()
    ensures { TokensTellTheirNumbers }
{}

// A run in which a resync restores the pair, byte by byte.
pub fn worked_run_stands()
    ensures { WorkedRun }
{}

ghost use Rattle.aka.specs.Laws.{NumberLaws, TokenLaws};

// Numbers step up and are compared as numbers of one length.
pub fn numbers_step_and_compare()
    ensures { NumberLaws }
{}

// What one end writes into a token, the other reads out of it.
pub fn tokens_are_read_as_written()
    ensures { TokenLaws }
{}

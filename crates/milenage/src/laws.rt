ghost use Rattle.milenage.specs.Laws.{SameInputSameQuestion, FillingIsSeenInTheInput, ByteZeroIsTheStandards, EqualBlocksSameQuestion};

use kernel::Kernel;

// Admissible questions have the same IN exactly when they are the same question.
pub fn same_input_same_question()
    ensures { SameInputSameQuestion }
{}

// At one TEMP, admissible questions have the same answer block exactly when they are the same question, at every kernel.
pub fn equal_blocks_same_question<K: Kernel>(kernel: &K)
    ensures { EqualBlocksSameQuestion (K.Kernel.forth kernel.now) }
{}

// RANDs that agree once filled have one TEMP; their sizes are seen in IN.
pub fn filling_is_seen_in_the_input()
    ensures { FillingIsSeenInTheInput }
{}

// Byte 0 is the standard's at each RAND size that the standard has.
pub fn byte_zero_is_the_standards()
    ensures { ByteZeroIsTheStandards }
{}

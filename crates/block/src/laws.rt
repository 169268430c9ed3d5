ghost use Rattle.block.specs.Laws.{ExclusiveOrLaws, FillingLaws, NumberLaws, GroundLaws};

// Exclusive or undoes itself, and keeps lengths and bytes.
pub fn exclusive_or_laws_stand()
    ensures { ExclusiveOrLaws }
{}

// Filling puts zeros behind the bytes, up to a block.
pub fn filling_laws_stand()
    ensures { FillingLaws }
{}

// A number and its bytes give each other back.
pub fn number_laws_stand()
    ensures { NumberLaws }
{}

// Of several grounds the smallest is reported.
pub fn smallest_ground_is_reported()
    ensures { GroundLaws }
{}

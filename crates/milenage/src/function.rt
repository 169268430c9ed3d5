ghost use Rattle.std.specs.Prelude.{◌≡◌};
ghost use Rattle.block.specs.Refusals.{Answers};
ghost use Rattle.milenage.specs.Functions.{index_of, name_of};
ghost use Rattle.milenage.specs.Grounds.{index_ground};

use block::Refusal;

// The eight functions, in the order of their indices.
#[derive(Clone, Copy, PartialEq, Eq, Debug)]
pub enum Function {
    F1Star,
    F1,
    F2,
    F3,
    F4,
    F5,
    F5Star,
    F5StarStar,
}

impl Function {
    pub const ALL: [Function; 8] = [
        Function::F1Star,
        Function::F1,
        Function::F2,
        Function::F3,
        Function::F4,
        Function::F5,
        Function::F5Star,
        Function::F5StarStar,
    ];

    // The index that the function has in a question.
    pub fn index(self) -> usize
        ensures { result ≡ index_of self }
    {
        self as usize
    }

    // The name that the function has in the standard.
    // No `Display`: contracts speak of the name (`name_of`), and no program prints a function but by it.
    pub fn name(self) -> &'static str
        ensures { result.now ≡ name_of self }
    {
        match self {
            Function::F1Star => "f1*",
            Function::F1 => "f1",
            Function::F2 => "f2",
            Function::F3 => "f3",
            Function::F4 => "f4",
            Function::F5 => "f5",
            Function::F5Star => "f5*",
            Function::F5StarStar => "f5**",
        }
    }
}

// The function with an index.
impl TryFrom<usize> for Function {
    type Error = Refusal;

    ghost try_from_gives = { λ index r. Answers (index_ground index) r (λ f. index_of f ≡ index) };

    fn try_from(index: usize) -> Result<Function, Refusal> {
        Function::ALL.get(index).copied().ok_or(Refusal::Index)
    }
}

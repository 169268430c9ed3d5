ghost use Rattle.std.specs.Prelude.{◌≡◌};
ghost use Rattle.milenage.specs.Functions.{name_of};
ghost use Rattle.cases.specs.Functions.{output_of};

use super::labelled::Labelled;
use milenage::Function;

// A function stands under its name.
impl Labelled for Function {
    ghost label_text = { name_of };

    fn label(self) -> &'static str {
        self.name()
    }
}

// What a function's output is called in print.
pub fn output_label(function: Function) -> &'static str
    ensures { result.now ≡ output_of function }
{
    match function {
        Function::F1Star => "MAC_S",
        Function::F1 => "MAC_A",
        Function::F2 => "RES",
        Function::F3 => "CK",
        Function::F4 => "IK",
        Function::F5 => "AK",
        Function::F5Star | Function::F5StarStar => "AK*",
    }
}

use super::fault::Fault;
use super::labelled::with_label;
use super::opc_block::OpcBlock;
use super::outputs::output_label;
use super::traced::Traced;
use milenage::Function;
use std::str::FromStr;

// What a value of a test is.
#[derive(Clone, Copy)]
pub enum Label {
    Input(Input),
    Opc(OpcBlock),
    Function(FunctionLabel),
}

// What a value of a function is, and of which.
#[derive(Clone, Copy, PartialEq, Eq)]
pub struct FunctionLabel {
    pub function: Function,
    pub part: Part,
}

// An input of a test.
#[derive(Clone, Copy)]
pub enum Input {
    Op,
    Key,
    Rand,
    Sqn,
    Amf,
    // c0 to c7
    Constant(usize),
}

// What a value of a function is: a block on its way, the MAC-S that it carries, its output.
#[derive(Clone, Copy, PartialEq, Eq)]
pub enum Part {
    Traced(Traced),
    MacS,
    Output,
}

// What a label in print means.
impl FromStr for Label {
    type Err = Fault;

    fn from_str(text: &str) -> Result<Label, Fault> {
        Input::named(text)
            .map(Label::Input)
            .or_else(|| with_label(&OpcBlock::ALL, text).map(Label::Opc))
            .or_else(|| FunctionLabel::named(text).map(Label::Function))
            .ok_or(Fault::Label)
    }
}

// No FromStr of their own for FunctionLabel and Input: it was tried, proves, and is no plainer.
// With FromStr, Fault::Label stands in five places, and Label drops two of them again; with Options the error is made once.
impl FunctionLabel {
    // The label of a function's value, as f1:PRF_in1.
    fn named(text: &str) -> Option<FunctionLabel> {
        let (name, rest) = text.split_once(':')?;
        let function = with_label(&Function::ALL, name)?;
        let part = Part::named(function, rest)?;
        Some(FunctionLabel { function, part })
    }
}

impl Input {
    fn named(text: &str) -> Option<Input> {
        match text.as_bytes() {
            b"OP" => Some(Input::Op),
            b"KEY" => Some(Input::Key),
            b"RAND" => Some(Input::Rand),
            b"SQN" => Some(Input::Sqn),
            b"AMF" => Some(Input::Amf),
            [b'c', digit @ b'0'..=b'7'] => Some(Input::Constant(usize::from(*digit - b'0'))),
            _ => None,
        }
    }
}

impl Part {
    // What stands behind a function's name. Only f5** has a MAC_S that is no output.
    fn named(function: Function, text: &str) -> Option<Part> {
        if text == output_label(function) {
            return Some(Part::Output);
        }
        match (function, Traced::named(text)) {
            (_, Some(place)) => Some(Part::Traced(place)),
            (Function::F5StarStar, None) if text == "MAC_S" => Some(Part::MacS),
            _ => None,
        }
    }
}

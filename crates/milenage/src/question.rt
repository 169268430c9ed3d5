use super::function::Function;

mod input;

// A question that the functions admit: the function, and IN before its constant.
#[derive(Clone, Copy)]
pub struct Question {
    function: Function,
    header: [u8; 32],
}

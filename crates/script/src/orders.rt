use aka::Sizes;
use driver::Step;

// Bytes that a step is handed: given in the script, or read from the log so far.
#[derive(Drop)]
pub enum Source {
    Given(Vec<u8>),
    Last,
}

// The masks and keys of a whitened kernel over a chain of two Rijndael kernels.
#[derive(Drop)]
pub struct Layers {
    pub mask_a: Vec<u8>,
    pub mask_b: Vec<u8>,
    pub first_key: Vec<u8>,
    pub second_key: Vec<u8>,
}

// The kernel of both ends: a Rijndael key, or layers by their masks and keys.
#[derive(Drop)]
pub enum Base {
    Key(Vec<u8>),
    Layers(Layers),
}

// OPc, or the OP and the name of the algorithm that it is derived from.
#[derive(Drop)]
pub enum Operator {
    Opc(Vec<u8>),
    Op { op: Vec<u8>, name: String },
}

// A line that sets up the pair.
#[derive(Drop)]
pub enum Setting {
    Kernel(Base),
    Operator(Operator),
    Constants(Vec<u8>),
    Sizes(Sizes),
    NetworkNumber(Vec<u8>),
    CardNumber(Vec<u8>),
}

// A line of the script. A ticket of a step goes by the order in which they were issued, from 1.
#[derive(Drop)]
pub enum Order {
    Set(Setting),
    Do(Step<Source>),
}

// A published value: what it is, and its bytes.
#[derive(Drop)]
pub struct Value<L> {
    pub label: L,
    pub bytes: Vec<u8>,
}

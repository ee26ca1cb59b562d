// Definitions with their texts.

/// What a CREATE statement defines, and the statement's canonical text.
#[derive(Drop)]
pub struct Defined<D> {
    pub def: D,
    /// From 1 to 1,048,576 bytes.
    pub text: Vec<u8>,
}

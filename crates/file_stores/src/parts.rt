/// What is left of a file that was handed back.
#[derive(Drop)]
pub struct Parts<D> {
    /// The disk that the file stood on.
    pub disk: D,
    /// The room in which its bytes waited.
    pub room: Vec<u8>,
}

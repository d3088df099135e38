//! What has become of a reading.

/// What has become of a reading. Once it is not well, nothing more is read.
#[derive(Copy, Clone)]
pub enum Outcome {
    Well,
    /// The token at the place, or the end of the text, can't stand there.
    Wrong,
    /// The token at the place opens a level too many.
    TooDeep,
    /// Memory ran out.
    NoMemory,
}

//! What an examination tells.

use tuple_bytes::Blob;

/// What an examination tells of an evidence file.
#[derive(Debug, Drop)]
pub enum Examined {
    /// The file is of another id, or its header or the eras of the sealed tiles are not as filed.
    OtherHeader,

    /// A line for each entry, and a last one.
    Lines { text: Blob },
}

//! What the notary answers for an entry.

use notary_link::Answer;

/// A list that is shown: how many transactions it has, and the answer for it.
#[derive(Clone, Copy, Debug)]
pub(crate) struct Listed {
    pub count: usize,
    pub answer: Answer,
}

/// A granule, and the lists that are shown for it.
#[derive(Clone, Copy, Debug)]
pub(crate) struct Judged {
    pub granule: u32,
    pub shown: Listed,
    pub original: Option<Listed>,
}

//! What was read of a book.

use crate::pages::Pages;
use crate::shape::BookShape;
use txn_journal::Journal;

/// What the file says, and where its next record goes. Before the file is made there is no journal.
#[derive(Drop)]
pub(crate) struct Kept {
    pub journal: Option<Journal<BookShape>>,
    pub pages: Pages,
}

//! What a look at a store gives.

use file_findings::Finding;
use policy_eras::Eras;
use tuple_bytes::Header;

/// What a file with a header holds, for what it has to do with books.
#[derive(Drop)]
pub struct StoreKnown {
    pub header: Header,
    pub items: u64,
    /// The greatest moment of an item, or 0.
    pub last: u64,
    pub eras: Eras,
    /// How many tiles had ended at the Frontier of each filing.
    pub filed: Vec<u32>,
}

/// All that is odd about a store by itself, in the order of the table, and what is known of it.
#[derive(Drop)]
pub struct StoreSeen {
    pub findings: Vec<Finding>,
    /// Nothing where there is no header.
    pub known: Option<StoreKnown>,
}

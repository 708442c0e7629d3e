//! An audit under way.

use chain_state::Chains;
use tuple_bytes::Header;

/// What was read so far: the header, how many items, the place behind them, and their chains. There
/// are no chains where a granule fell or was too great.
#[derive(Drop)]
pub struct Auditing {
    pub header: Header,
    pub read: u32,
    pub place: u64,
    pub chains: Option<Chains>,
}

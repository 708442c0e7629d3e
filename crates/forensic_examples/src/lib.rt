//! Worked examples of analyses, of evidence and of restoring: stores and notaries in memory, held against answers
//! worked by hand.
//!
//! What is answered is proved where it stands. These examples show that a call answers at all where there
//! is memory, and hold the definitions against texts that were written by hand.
//!
//! | File | Shows |
//! |---|---|
//! | `evidence` | what is gathered of a store and its copy, and what is told of it by a notary's answers |
//! | `reports` | reports, of all tiles and of those of an era, and how many nodes a descent asks |
//! | `restored` | which granules of a store and its copy are kept, and what the new store holds |
//! | `spans` | when a tile was changed; how many events a diagram has |
#![tactic(auto)]

#[cfg(test)]
mod desk;
#[cfg(test)]
mod evidence;
#[cfg(test)]
mod reports;
#[cfg(test)]
mod restored;
#[cfg(test)]
mod sources;
#[cfg(test)]
mod spans;

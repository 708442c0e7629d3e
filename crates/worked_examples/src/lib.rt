//! Worked examples: the program as one call over devices in memory, and over a real file.
//!
//! Each file of tests shows one thing that a user does. What the program answers is proved where
//! it stands; the examples hold the definitions against texts that were written by hand. Most of
//! them are stories, which `story` reads.
#![tactic(auto)]

#[cfg(test)]
mod analysed;
#[cfg(test)]
mod audited;
#[cfg(test)]
mod commands;
#[cfg(test)]
mod desk;
#[cfg(test)]
mod drills;
#[cfg(test)]
mod eras;
#[cfg(test)]
mod evidence;
#[cfg(test)]
mod files;
#[cfg(test)]
mod limits;
#[cfg(test)]
mod makes;
#[cfg(test)]
mod migrated;
#[cfg(test)]
mod notarized;
#[cfg(test)]
mod quorums;
#[cfg(test)]
mod restored;
#[cfg(test)]
mod scripts;
#[cfg(test)]
mod sessions;
#[cfg(test)]
mod stops;
#[cfg(test)]
mod story;
#[cfg(test)]
mod untold;

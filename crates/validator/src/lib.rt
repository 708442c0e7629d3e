//! Filing the digests of a store with a notary, and holding the store against them later.
//!
//! [`validate`] reads the store, and hashes each transaction at most once: the chain alone is computed
//! (`judge_file`: `steps`; that it is called once is by the body alone). It asks for the header and for the
//! eras of the sealed tiles, and searches the chain by halves for the first bad tile.
//!
//! | Found | Where |
//! |---|---|
//! | unsealed | nothing was filed under the id |
//! | header altered | no header is stored, one of another id, or one whose digest differs; or the eras of the sealed tiles are not those that were filed |
//! | clean | the chain at the end of the last sealed tile is the same |
//! | altered | it differs; told is a tile that differs, and is 0 or follows one that is the same |
//! | `SealMissing` | the header's seal was never filed, or that of a tile; the last sealed tile is then not the same, or ends behind the last granule |
//!
//! | The layer above may rely on | Clause of `validate` |
//! |---|---|
//! | what is found is what the answers to the questions show of what is stored (`IsFound`) | `told` |
//! | then the mark of the verdict is added by one call, and nothing else; none where nothing was filed; a call that was refused had the mark of what was found, where both tell | `told`, `trace` |
//! | `Full` comes only where there is no room for the mark, and no other cause refuses | `told`, `none_other` |
//! | whatever the notary tells: where the bytes have no header of the id, only unsealed or an altered header is found. No seal is missing then | `nowhere` |
//! | the disk is as it was, and a sound store stays sound | `same`, `sound` |
//! | where a verdict is answered few questions were asked: one for the header, one for each era but the first that begins at a sealed tile and one for the next; and where a tile is sealed the number of binary digits of the tiles and two more | `asked`, by `questions` |
//! | a fault is answered only where the disk or the notary counted it | `disk_cause`, `notary_cause` |
//! | behind Ok neither counted a fault, nor behind a refusal but its own fault and want of memory: no failed call was tried again | `disk_counted`, `notary_counted` |
//!
//! A caller that has counted the batches finds the verdict and adds its mark by [`judge_file`], which reads the
//! store once and counts its steps for the caller. Where it has at hand what is stored it calls [`judge`], where it
//! has the values of the chain at the ends of the sealed tiles [`judge_links`], which hashes no transaction, and
//! where no history is stored under the id [`judge_nowhere`]. Each answers what `validate` does (`told`).
//!
//! [`ask_header`] is the one code that asks for the header and the eras. Each of these eras has to be the same,
//! and under the name of the next one nothing may be filed. Its answer is `header_answer` of the batches
//! (`told`), and takes at most two questions and one for each of these eras (`asked`).
//!
//! [`notarize`] reads the store anew, and holds what is filed already against it. Where a batch is to be filed
//! and the last moment has not reached the end of the last tile that has ended, it stores a Frontier, and only
//! then files the batches up to it, one after another. It may be called again after every refusal.
//! The batches are those of the chains that the store keeps. Where it keeps none, a plan has them. Then
//! each transaction is hashed at most twice. Else it is hashed once, for the chain that is asked for
//! (`hold_filed`: `steps`, `linked`). Where no batch is to be filed that is all (`few`).
//!
//! | The layer above may rely on | Clause of `notarize` |
//! |---|---|
//! | a closed store, an earlier clock and a granule too late are refused first, and nothing is asked or changed | `early`, `untouched` |
//! | whatever the notary tells: what is done goes by what was heard, the number of batches and what the answers speak against the store (`Heard`, `intent_of`). Where lists are told, that is what they say | `told`: `heard`, `may`, `told` of `Notarizes` |
//! | any other refusal has its cause (`notarize_fault`): `Broken` and `SealMissing` of what was heard, `StoreFull` of the Frontier | `refused` of `CarriesOut` |
//! | where there is such a cause, nothing is stored and no changing call is made, also where a fault or want of memory is answered | `free` there |
//! | Ok tells how many tiles are sealed then: at least the number of tiles that have ended; where it is more, nothing is stored | `value` there |
//! | a Frontier that is stored is the end of the last tile that has ended by the clock. It lies past the last moment, and there is room for it | `stands`, `images` there, by `frontier_for` |
//! | a crash leaves the items, or those and the Frontier | `images`, `kept` there |
//! | after these the store is as it was, has reached the end of the last tile, or is closed. Besides, granules of its chains may be closed then | `stands` there |
//! | where the store has reached it, each place from which reading goes on is one still | `places` of `IsReached` |
//! | no batch is filed before all changing calls of the disk | `order` there |
//! | where lists are told: the batches of the tiles that have ended are filed, of the clock's moment; after `Full` as many as there is room for, and as many calls are done; none where there is a cause against it | `free`, `files`, `calls` of `Files` |
//! | no batch is filed before the store has reached the end of its tile on a settled disk | `ordered` there |
//! | a sound store stays sound under each id, whatever is answered | `sound` |
//! | `OutOfTurn` tells the count that the notary answered | `turn` |
//! | few questions are asked: for the header, for each era of the sealed tiles and the next, and for the last chain | `asked`; at most so many where both tell: `asked` of `Notarizes` |
//! | only a fault of the disk and want of memory close the store | `open` |
//! | a fault has its cause, and none is hidden, as with `validate` | `disk_cause`, `notary_cause`, `disk_counted`, `notary_counted` |
//!
//! Where the file behind an open store was changed, the eras that are read anew may be others than the store's: `Broken`.
//!
//! [`policy`] does the same up to there, files nothing, and stores a policy at the first tile that is not sealed.
//! From that tile on it has other exponents and chains, where the last era does not begin behind it.
//!
//! | The layer above may rely on | Clause of `policy` |
//! |---|---|
//! | what is done goes by what was heard, as with `notarize` | `told`: `heard`, `may`, `told` of `Turns` |
//! | a refusal has its cause (`turn_fault`): of what was heard, then `TooManyEras` exactly where there are 256 eras, then `Closed` and `StoreFull` of the item | `refused` of `CarriesOutTurn` |
//! | where there is such a cause, nothing is stored | `free` there |
//! | Ok tells how many eras stand before the item, and the tile where it begins | `value` there |
//! | a crash leaves the items, or those and the policy | `images`, `kept` there |
//! | then the store has the item more, or is as it was, or is closed | `stands` there |
//! | the notary is as it was | `unfiled` |
//! | a sound store stays sound under each id, whatever is answered | `sound` |
//! | no other refusal comes; questions and faults are as with `notarize` | `none_other`, `asked`, `disk_cause` and the others |
//!
//! [`frontier_ahead`] tells before which Frontier that will be (`value`), or which of its early refusals comes
//! (`early`). So a caller knows how many changing calls of the disk come before the first batch.
//!
//! | A law | Says |
//! |---|---|
//! | [`sound_is_clean`] | of what a sound store's images hold only a clean verdict is found |
//! | [`sound_is_not_refused`] | nothing that is filed speaks against a sound store |
//! | [`broken_is_altered`] | a store that is refused as `Broken` has another header or other eras, or some sealed granule is altered |
//! | [`missing_is_clash`] | `SealMissing`, of a notary that holds a history's batches, comes only where two inputs clash |
//!
//! That something can always be found is `proofs/SomethingFound`. Only tested: that calls succeed
//! where there is memory.
//!
//! ```rust
//! let sealed = notarize(alloc, &mut store, &mut disk, &mut notary, now)?;
//! let verdict = validate(alloc, &mut disk, &mut notary, id, now)?;
//! put_verdict(alloc, &mut out, verdict)?;
//! ```
#![tactic(auto)]

mod ahead;
mod anew;
mod asking;
mod fail;
mod filing;
mod finding;
mod holding;
mod judging;
mod laws;
mod marking;
mod next;
mod notarizing;
mod printing;
mod turned;
mod turning;
mod validating;
mod verdict;

pub use ahead::frontier_ahead;
pub use asking::ask_header;
pub use fail::AuditFail;
pub use judging::{judge, judge_links, judge_nowhere};
pub use laws::{broken_is_altered, missing_is_clash, sound_is_clean, sound_is_not_refused};
pub use notarizing::notarize;
pub use printing::{put_refusal, put_turned, put_verdict};
pub use turned::Turned;
pub use turning::policy;
pub use validating::{judge_file, validate};
pub use verdict::Verdict;

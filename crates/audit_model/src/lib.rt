//! What is filed for a history, what a notary answers of another, and which granules that names.
//!
//! This is what a reader of the audits has to believe: definitions, and laws about them. Here is no
//! code that runs. All digests are those of `digest_model`; what a notary is stands in `notary_link`.
//!
//! # Names and batches
//!
//! | Batch | Seals, in this order |
//! |---|---|
//! | 0 | Header |
//! | j + 1 | Era e for each era e from 1 on that begins at tile j, ascending; Cum j; with tile chains, the whole tile j (part 255) and its bit chains 0 to k - 1; with the tree, every node whose last granule lies in tile j, by last granule and then by level from 0 upwards |
//!
//! The tree of a tile is that of its era: its leaves are the era's granules, counted from 0. Its nodes are named
//! Node in era 0, and EraNode in a later one. A batch has at most 2,314 seals (`batches_are_short`).
//!
//! # Definitions
//!
//! | Definition | In words |
//! |---|---|
//! | `planned l n`, `digest h name`, `batch h i` | the names of batches 0 to n, the digest of a name, the seals of a batch |
//! | `inputs h n`, `HashClash h s n` | all that is hashed for the planned names; an input for h and one for s differ and have equal digests |
//! | `NotaryOf batches id h n` | the batches under the id are those of h with n sealed tiles |
//! | `answers batches s name` | what is answered for the digest of s: Same, Differs, or Absent |
//! | `era_check batches s n` | each era of s that begins at one of n tiles is the same, and the name of the next era is absent |
//! | `header_answer batches s n` | the header's answer, where it isn't Same; else Same or Differs by the era check |
//! | `IsAltered h s n g` | granule g is sealed, and s does not show h's transactions in it: others, another header, other eras of the n tiles, or no header |
//! | `BeginsRegion cums n region` | where the Monochromatic region begins: at a tile that differs and is 0 or follows one that is the same |
//! | `Explains k parts granules` | a set of granules that, were exactly these altered, gives these answers for the parts of a tile |
//! | `IsCandidate`, `IsCandidateAmong kappa` | a member of some set that explains; of one with kappa members |
//! | `Reached`, `IsFound` | a root, or a child of a reached node that differs; a reached leaf that differs |
//! | `checks granules nodes` | the roots, and two nodes for each reached one of level 1 or more that differs |
//! | `changed_from`, `first_changed_until` | the span in which a tile was changed, by the moments of its batch and of the marks |
//! | `IsTold defined told` | what the answers define is told, unless the notary fails or memory runs out |
//! | `stop_at`, `or_stop`, `first_stop`, `unless_stopped` | what stops a reader of answers, and which of two causes stops it first |
//! | `IsSound is_image batches id` | nothing is filed, or each image of the disk holds the history that is filed |
//!
//! # What the layers above may rely on
//!
//! Each is the contract of a function that does nothing. h is the notarized history, s another one
//! under its header, both with spellings, as all that files hold; "or a clash" is `HashClash`.
//!
//! | Law | Clause |
//! |---|---|
//! | a planned name is answered by comparing the two digests, every other name is absent, h itself is the same throughout; there are n + 1 batches; so each image of a sound store is answered the same | `answers_compare`, `others_are_absent`, `notarized_is_same`, `batches_are_counted`, `held_is_same` |
//! | `header_answer` is Same: the headers and the sealed eras are equal, or a clash; it differs: the file has another header or other eras; a file has these or others; under others every sealed granule is altered | `header_is_shown`, `refused_header_is_other`, `headers_are_one_or_other`, `other_header_is_altered` |
//! | the chain is the same at a tile's end: nothing is altered up to there, or a clash; it differs: some granule up to there is altered | `same_chain_is_clean`, `changed_chain_has_altered` |
//! | the region has every altered granule and begins at an altered tile, or a clash; where the answers change once, it begins there | `region_has_altered`, `region_begins_altered`, `step_is_region` |
//! | the candidates are the numbers that have every bit of the target; among sets of kappa members the target alone, all of them, or none | `candidates_are_exact`, `candidates_among_are_exact` |
//! | an altered granule is a candidate, and among sets of as many members as are altered, or a clash; a tile that differs has an altered granule | `candidates_have_altered`, `candidates_among_have_altered`, `failing_tile_is_altered` |
//! | of the sealed tiles of one era: an altered granule is found in its tree, or a clash; a found one is altered; below a node that differs a child differs; of whatever history, a child is not the same | `descent_has_altered`, `descent_is_altered`, `tree_is_consistent`, `nodes_are_consistent` |
//! | the list of leaves has exactly those found, ascends, and few nodes are asked for it | `found_are_exact`, `found_ascend`, `checks_are_few` |
//! | a notarized history stays so with an item that is not before its last moment, or a policy behind its sealed tiles; a frontier of any moment leaves what is filed, and each batch | `added_stays_notarized`, `frontier_stays_filed`, `frontier_files_same` |
//! | the header's batch begins what is filed, and the next tile's extends it; each batch may be filed, and is short | `filing_begins`, `filing_extends`, `batches_may_be_filed`, `batches_are_short` |
//! | examples worked by hand | `worked_examples` |
//!
//! Words on tiles go by a layout and never by a header, since eras change the size of tiles.
//!
//! Trusted is the statement of SHA-256 in the kit's `sha2`; that no two inputs share a digest is
//! assumed nowhere.
#![tactic(auto)]

mod laws;

pub use laws::{
    added_stays_notarized, answers_compare, batches_are_counted, batches_are_short,
    batches_may_be_filed, candidates_among_are_exact, candidates_among_have_altered,
    candidates_are_exact, candidates_have_altered, changed_chain_has_altered, checks_are_few,
    descent_has_altered, descent_is_altered, failing_tile_is_altered, filing_begins,
    filing_extends, found_are_exact, found_ascend, frontier_files_same, frontier_stays_filed,
    header_is_shown, headers_are_one_or_other, held_is_same, nodes_are_consistent,
    notarized_is_same, other_header_is_altered, others_are_absent, refused_header_is_other,
    region_begins_altered, region_has_altered, same_chain_is_clean, step_is_region,
    tree_is_consistent, worked_examples,
};

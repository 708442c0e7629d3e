//! Reports of what an intruder changed.
//!
//! [`analyse`] reads the store, asks a notary about it by one of three algorithms, and writes a
//! report: which granules are altered, or may be, when they were changed, and a diagram of all that is
//! known of the tiles.
//!
//! ```text
//! report tiled id 7 tiles 1 altered
//! tile 0 target 101 candidates 5 7 when 480 to 500
//! first change in tile 0 when 480 to 500
//! diagram
//!          480 N
//!          500 X
//! ```
//!
//! The range of a report is the sealed tiles of an era, where one is named, else all sealed tiles. The
//! first line then reads `report a3d id 7 era 1 tiles 2 altered`, with the number of tiles in the range.
//! The granules of a list are those of its tile: its first one plus the number within the tile. The
//! diagram is always over all sealed tiles.
//!
//! | In this order | Answer |
//! |---|---|
//! | nothing is filed | `unsealed` |
//! | the header or an era is another one, or there is none of the id | `header altered`, over all tiles and of no era |
//! | the store has no era of this number | `NoEra` |
//! | a tile of the range lacks the chains; or the header, where no tile is sealed and no era is named | `NotSealedSo` |
//! | tiles end behind the last granule | `SealMissing` of the first of them |
//! | none of these | what the algorithm finds in the range |
//!
//! | The layer above may rely on | Clause of `analyse` |
//! |---|---|
//! | what is found is what the answers show of the stored bytes (`IsAnalysis`), and the text is the report of it (`report_text`) | `told` |
//! | the verdict and the first line, and few questions, whatever is told: one for the header, one for each sealed era but the first and one for the next, and then those of the algorithm | `told`: `altered`, `begins`, `asked`, `fits` of `IsReport` |
//! | bytes that were read and have a header hold a history | `held` |
//! | where the bytes have no header of the id, whatever is told: a report begins as that of nothing filed or of an altered header. Only a failed device and want of memory refuse it | `nowhere` |
//! | no other cause refuses | `none_other` |
//! | the store and the notary are as they were | `same`, `unchanged` |
//! | a fault is answered only where the disk or the notary counted it | `disk_cause`, `notary_cause` |
//! | behind Ok neither counted a fault, nor behind a refusal but its own fault and want of memory: no failed call was tried again | `disk_counted`, `notary_counted` |
//!
//! | A law | Says |
//! |---|---|
//! | `reports_show` | of a history whose batches the notary holds: unless two inputs clash, each altered granule of the range that the algorithm promises is named; where an alteration is told there is one in the range, or another header or era, the tree's granules are altered, and each tile that fails has one that is, without exception (`Shows`) |
//! | `ranges_are_shared` | a file under the notarized header and eras has the same range, and the same chains in it |
//! | `sound_is_unaltered` | of a sound store no report tells of an alteration |
//! | `refusals_are_clashes` | a notary that holds a history's batches has each seal that is asked for, or two inputs clash; chains are lacking only where a tile of that history's range has none, and an era only where none of its sealed tiles is of it, or two inputs clash |
//!
//! Only tested, in `forensic_examples`: that calls succeed where there is memory.
//!
//! ```text
//! let report = analyse(alloc, &mut disk, &mut notary, id, Algorithm::Tiled, None, now)?;
//! out.write_all(report.text.as_slice())?;
//! if report.altered { .. }
//! ```
#![tactic(auto)]

mod algorithm;
mod analysing;
mod asking;
mod bad;
mod bodies;
mod ends;
mod fail;
mod failing;
mod finding;
mod found;
mod laws;
mod lines;
mod printing;
mod range;
mod report;
mod searching;
mod text;
mod writing;

pub use algorithm::Algorithm;
pub use analysing::analyse;
pub use fail::AnalyseFail;
pub use laws::{
    ranges_are_shared, refusals_are_clashes, reports_show, sound_is_unaltered, worked_reports,
};
pub use printing::put_refusal;
pub use report::Report;

//! The language of statements: lines of text, read into values of their own and printed back, both exactly.
//!
//! # The grammar
//!
//! A line is the bytes before a line feed; one carriage return at its end is dropped. A line of spaces alone, or
//! whose first byte is `#`, is blank. Any other line has at most 65,536 bytes. Its tokens are separated by one or
//! more spaces that do not stand between quotes, and words are in lower case as shown.
//!
//! ```text
//! line      = plain | "s" N insession | drill           N is 0 to 15 in the same token, spelled plainly
//! insession = table | "begin" | "commit" | "abort"
//! plain     = table | "notarize" | "validate" | "audit" | "policy" K ALGS | "analyse" algorithm | "now" M
//! table     = "create" NAME NAME KIND [NAME KIND ..]    1 to 32 columns whose names differ
//!           | "insert" NAME VALUE [VALUE ..]            1 to 32 values
//!           | "update" NAME VALUE [VALUE ..]
//!           | "delete" NAME VALUE
//!           | "get" NAME VALUE ["as" "of" M]
//!           | "scan" NAME [NAME COMPARE VALUE] ["as" "of" M]
//!           | "history" NAME VALUE
//!           | "over" M "to" M "select" NAME [NAME COMPARE VALUE]
//!           | "over" M "to" M "join" NAME NAME "on" NAME NAME
//! algorithm = "mono" | ("tiled" | "tiled" KAPPA | "a3d") ["era" ERA]
//! drill     = "init" ID WIDTH K ALGS | "crash" AFTER CHOICE | "alter" PLACE HEX | "cut" LENGTH
//! KIND      = "int" | "text" | "bytes" | "bool"
//! COMPARE   = "=" | "!=" | "<" | "<=" | ">" | ">="
//! VALUE     = INT | TEXT | BYTES | "true" | "false" | "null"
//! ALGS      = "m" | "t" | "a" | "ta"
//! ```
//!
//! | Token | Spelled | Range |
//! |---|---|---|
//! | NAME | a letter or `_`, then letters, digits or `_` | 32 bytes |
//! | INT | digits, maybe behind a `-` | that of `i64`, else NumberTooWide |
//! | M | digits | 0 to 1,099,511,627,775, else NumberTooWide |
//! | KAPPA | digits | 1 to 1,024, else NumberTooWide |
//! | ERA | digits | 0 to 4,294,967,295, else NumberTooWide |
//! | TEXT | UTF-8 without control characters between single quotes, a quote within doubled | |
//! | BYTES | `x'`, hexadecimal digits in either case, two for each byte, and `'` | |
//! | ID, CHOICE, PLACE, LENGTH | digits, spelled plainly: no zero at the front of others | that of `u64`, else Syntax |
//! | WIDTH, K, AFTER | digits, spelled plainly | 1 to 86,400, 0 to 10, 0 to 1,000,000, else Syntax |
//! | HEX | hexadecimal digits in either case, two for each byte | 1 to 256 bytes |
//!
//! # What the layer above may rely on
//!
//! | Sentence | Clause |
//! |---|---|
//! | `parse_line` gives the one line that the grammar gives, and refuses every other | `value`, `spelled` of `parse_line`; `line_is_said` |
//! | Syntax comes exactly where the bytes are no line, whatever the width of numbers; else NumberTooWide exactly where a number is out of its range | `syntax`, `number_too_wide` of `parse_line`; `answers_are_exact` |
//! | what was read can be printed | `fits` of `parse_line`; `lines_fit` |
//! | what a line asks for, and which part of a store's world answers it, is said once for all layers | `value` of `Line::kind` and `Stmt::kind` |
//! | `print_line` writes one text for each line, and reading it gives the same line | `value`, `spelled` of `print_line`; `lines_come_back` |
//!
//! `specs/Grammar.antt` says the grammar by cases on what is said: tokens, values and lines, with numbers in their ranges
//! or of any width, and so what is refused as Syntax and as NumberTooWide. The other files read a line part by part;
//! `Reading` has the words of the code alone. Only tested: that memory suffices, and that long lines take no long time
//! (each byte is looked at a fixed number of times, and nothing recurses).
//!
//! # Use
//!
//! ```text
//! let line = parse_line(alloc, b"s3 insert ledger 7 'it''s' x'0aFF'")?;
//! let text = print_line(alloc, &line)?;      // s3 insert ledger 7 'it''s' x'0aff'
//! ```
//!
//! # To add a statement
//!
//! A variant of `Stmt` and a word of `Keyword`; its reading in `specs/Statements.antt` with a line in `stmt_by`, and a
//! function of as many lines in `stmt_reading`; a line each in `keyword_token`, `stmt_keyword`, `stmt_tokens`,
//! `stmt_kind` (and `NotaryLine`, if the notary is asked), `FitsStmt` and `SayStmt`; and in the proofs a line for each
//! lemma that goes by cases on statements or words (`Said`, `Taken`, `Printed`, `PrintedTokens`, `Fitting`,
//! `RangeLaws`, `WordReads`). Numbers that are Syntax where they are out of their range are read by `plain_number`,
//! others by `kept`.
#![tactic(auto)]

mod error;
mod event;
mod event_printing;
mod event_reading;
mod kind;
mod laws;
mod line;
mod line_printing;
mod line_reading;
mod number;
mod part;
pub mod plain;
mod row_reading;
mod stmt;
mod stmt_printing;
mod stmt_reading;
mod token;
mod value_printing;
mod value_reading;
mod word;

pub use error::ParseFail;
pub use event::Event;
pub use kind::{LineKind, NotaryLine, WorldPart};
pub use laws::{
    line_is_said, lines_come_back, numbers_come_back, ranges_only_refuse, statement_is_said,
    tokens_are_had, value_is_said,
};
pub use line::Line;
pub use line_printing::print_line;
pub use line_reading::parse_line;
pub use number::plain_number_of;
pub use stmt::{LineAlgorithm, Stmt};
pub use tuple_bytes::{Compare, Filter};
pub use value_printing::print_row;
pub use word::algs_of;

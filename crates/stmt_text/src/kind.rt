//! What a line asks for, and of what.

ghost use Rattle.std.specs.Prelude.{◌≡◌};
ghost use Rattle.stmt_text.specs.declared.kind.LineKind.TheVariants as kinds;
ghost use Rattle.stmt_text.specs.declared.kind.WorldPart.TheVariants as parts;
ghost use Rattle.stmt_text.specs.Kinds.{stmt_kind, line_kind};

use crate::line::Line;
use crate::stmt::{LineAlgorithm, Stmt};

/// What a line asks of the notary.
#[derive(Clone, Copy, Debug, PartialEq, Eq)]
pub enum NotaryLine {
    Notarize,
    Validate,
    Audit,
    Policy {
        k: u8,
        algs: u8,
    },
    Analyse {
        algorithm: LineAlgorithm,
        era: Option<u32>,
    },
}

/// The part of a store's world that answers a line.
#[derive(Clone, Copy, Debug, PartialEq, Eq)]
pub enum WorldPart {
    /// Its tables: `create`, `insert`, `update`, `delete`, `get`, `scan`, `history` and `over`.
    Tables,
    /// One of its sixteen sessions.
    Sessions,
    /// Its notary: `notarize`, `validate`, `audit`, `policy` and `analyse`.
    Notary { asks: NotaryLine },
}

/// What a line asks for.
#[derive(Clone, Copy, Debug, PartialEq, Eq)]
pub enum LineKind {
    Blank,
    InWorld { part: WorldPart },
    /// `now`, in a scripted run.
    SetsMoment { moment: u64 },
    /// What stands in no script: `begin`, `commit` and `abort` outside sessions, and what a drill does.
    OutsideScripts,
}

/// The kind of a line that asks this of the notary.
fn notary_line(asks: NotaryLine) -> LineKind
    ensures value { result ≡ kinds.InWorld (parts.Notary asks) }
{
    LineKind::InWorld {
        part: WorldPart::Notary { asks },
    }
}

impl Stmt {
    /// What it asks for where it stands outside sessions.
    pub fn kind(&self) -> LineKind
        ensures value { result ≡ stmt_kind self.now }
    {
        match self {
            Stmt::Create { .. }
            | Stmt::Insert { .. }
            | Stmt::Update { .. }
            | Stmt::Delete { .. }
            | Stmt::Get { .. }
            | Stmt::Scan { .. }
            | Stmt::History { .. }
            | Stmt::OverSelect { .. }
            | Stmt::OverJoin { .. } => LineKind::InWorld {
                part: WorldPart::Tables,
            },
            Stmt::Notarize => notary_line(NotaryLine::Notarize),
            Stmt::Validate => notary_line(NotaryLine::Validate),
            Stmt::Audit => notary_line(NotaryLine::Audit),
            Stmt::Policy { k, algs } => notary_line(NotaryLine::Policy { k: *k, algs: *algs }),
            Stmt::Analyse { algorithm, era } => notary_line(NotaryLine::Analyse {
                algorithm: *algorithm,
                era: *era,
            }),
            Stmt::Now { moment } => LineKind::SetsMoment { moment: *moment },
            Stmt::Begin | Stmt::Commit | Stmt::Abort => LineKind::OutsideScripts,
        }
    }
}

impl Line {
    /// What it asks for.
    pub fn kind(&self) -> LineKind
        ensures value { result ≡ line_kind self.now }
    {
        match self {
            Line::Blank => LineKind::Blank,
            Line::Plain { stmt } => stmt.kind(),
            Line::InSession { .. } => LineKind::InWorld {
                part: WorldPart::Sessions,
            },
            Line::Drill { .. } => LineKind::OutsideScripts,
        }
    }
}

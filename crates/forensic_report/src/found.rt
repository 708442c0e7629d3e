//! What an analysis finds.

ghost use Rattle.std.specs.Prelude.{◌≡◌};
ghost use Rattle.forensic_report.specs.Analysis.{Extent, bad_tiles, is_some_bad, is_altered, FitsFindings};
ghost use Rattle.forensic_report.specs.Values.{findings_of, analysis_of, FitsAnalysis};

use crate::failing::FailingTiles;
use a3d_forensics::A3dFound;
use policy_eras::Eras;

/// What an algorithm finds.
#[derive(Drop)]
pub(crate) enum Findings {
    /// Where the region begins.
    Region { first: Option<u32> },

    /// The tiles that fail, ascending, and their targets.
    Targets { targets: FailingTiles },

    /// The altered granules, and how many nodes were asked.
    Leaves { found: A3dFound },
}

/// What an analysis finds.
#[derive(Drop)]
pub(crate) enum Analysis {
    /// Nothing was filed; this era was asked for.
    Unsealed { era: Option<u32> },

    /// Of so many sealed tiles the header or an era is another one.
    HeaderAltered { tiles: u32 },

    /// The tiles were examined.
    Found { examined: Examined },
}

/// Where the tiles lie, how many are sealed, those of which era were examined, how many that are, and
/// what was found of them.
#[derive(Drop)]
pub(crate) struct Examined {
    pub eras: Eras,
    pub tiles: u32,
    pub era: Option<u32>,
    pub count: u32,
    pub findings: Findings,
}

impl Findings {
    /// Whether some tile is bad.
    fn is_some_bad(&self) -> bool
        ensures value { (extent : Extent) → FitsFindings extent (findings_of self.now)
            → result ≡ is_some_bad (bad_tiles extent (findings_of self.now)) }
    {
        match self {
            Findings::Region { first } => first.is_some(),
            Findings::Targets { targets } => !targets.as_slice().is_empty(),
            Findings::Leaves { found } => !found.granules.as_slice().is_empty(),
        }
    }
}

impl Analysis {
    /// Whether it tells that something is altered.
    pub(crate) fn is_altered(&self) -> bool
        requires fits { FitsAnalysis self.now }
        ensures value { result ≡ is_altered (analysis_of self.now) }
    {
        match self {
            Analysis::Unsealed { .. } => false,
            Analysis::HeaderAltered { .. } => true,
            Analysis::Found { examined } => examined.findings.is_some_bad(),
        }
    }
}

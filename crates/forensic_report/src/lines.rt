//! The lines of a report, of values that are at hand.

ghost use Rattle.std.specs.Prelude.{◌≡◌, ◌≤◌, ◌<◌, ◌^◌, ◌+◌, ◌++◌, map, OnOk};
ghost use Rattle.digest_model.specs.Layout.{layout_by, exponent, first_granule, max_granules};
ghost use Rattle.forensic_report.specs.Texts.{algorithm_word, era_words, head_words, when_text, region_line_in, bits_text, list_text, candidates_by, target_line_in, granule_line_in, checks_line, first_line_in, every_granule};

use crate::algorithm::Algorithm;
use byte_grammar::put_numbered;
use corruption_diagram::Span;
use policy_eras::Eras;
use std::alloc::{AllocError, Global};
use tiled_forensics::{Candidates, candidates, exactly};

/// The word of an algorithm.
fn put_algorithm(out: &mut Vec<u8>, algorithm: Algorithm) -> Result<(), AllocError>
    ensures ok { OnOk result (out.new.items ≡ out.old.items ++ algorithm_word algorithm) }
{
    match algorithm {
        Algorithm::Mono => out.extend_from_slice(b"mono")?,
        Algorithm::Tiled | Algorithm::TiledExactly { .. } => out.extend_from_slice(b"tiled")?,
        Algorithm::A3d => out.extend_from_slice(b"a3d")?,
    }
    Ok(())
}

/// The era that was named.
fn put_era(alloc: Global, out: &mut Vec<u8>, era: Option<u32>) -> Result<(), AllocError>
    ensures ok { OnOk result (out.new.items ≡ out.old.items ++ era_words era) }
{
    if let Some(era) = era {
        put_numbered(alloc, out, b" era ", u64::from(era))?;
    }
    Ok(())
}

/// The first line.
pub(crate) fn put_head(
    alloc: Global,
    out: &mut Vec<u8>,
    algorithm: Algorithm,
    id: u64,
    era: Option<u32>,
    tiles: u32,
    verdict: &[u8],
) -> Result<(), AllocError>
    ensures ok { OnOk result (out.new.items ≡ out.old.items ++ head_words algorithm id era tiles verdict.now) }
{
    out.extend_from_slice(b"report ")?;
    put_algorithm(out, algorithm)?;
    put_numbered(alloc, out, b" id ", id)?;
    put_era(alloc, out, era)?;
    put_numbered(alloc, out, b" tiles ", u64::from(tiles))?;
    out.push(b' ')?;
    out.extend_from_slice(verdict)?;
    out.push(b'\n')?;
    Ok(())
}

/// The line of a header that is altered.
pub(crate) fn put_every_granule(
    alloc: Global,
    out: &mut Vec<u8>,
    tiles: u32,
) -> Result<(), AllocError>
    ensures ok { OnOk result (out.new.items ≡ out.old.items ++ every_granule tiles) }
{
    if tiles > 0 {
        put_numbered(
            alloc,
            out,
            b"every granule of tiles 0 to ",
            u64::from(tiles - 1),
        )?;
        out.push(b'\n')?;
    }
    Ok(())
}

/// A span.
fn put_when(alloc: Global, out: &mut Vec<u8>, span: Span) -> Result<(), AllocError>
    ensures ok { OnOk result (out.new.items ≡ out.old.items ++ when_text span) }
{
    put_numbered(alloc, out, b" when ", span.from)?;
    put_numbered(alloc, out, b" to ", span.to)
}

/// The line of a region.
pub(crate) fn put_region(
    alloc: Global,
    out: &mut Vec<u8>,
    eras: &Eras,
    tiles: u32,
    first: u32,
    span: Span,
) -> Result<(), AllocError>
    requires some { first < tiles }
    requires within { first_granule (layout_by eras.now) tiles ≤ max_granules }
    ensures ok { OnOk result (out.new.items ≡ out.old.items ++ region_line_in (layout_by eras.now) tiles first span) }
{
    put_numbered(alloc, out, b"tiles ", u64::from(first))?;
    put_numbered(alloc, out, b" to ", u64::from(tiles - 1))?;
    put_numbered(alloc, out, b" granules ", eras.first(first))?;
    put_numbered(alloc, out, b" to ", eras.first(tiles) - 1)?;
    put_when(alloc, out, span)?;
    out.push(b'\n')?;
    Ok(())
}

/// The digits of a number of so many bits, the highest first.
fn put_bits(out: &mut Vec<u8>, count: u8, target: u16) -> Result<(), AllocError>
    requires few { count ≤ 10 }
    ensures ok { OnOk result (out.new.items ≡ out.old.items ++ bits_text count target) }
{
    if count == 0 {
        out.push(b'-')?;
        return Ok(());
    }
    let mut bit = count;
    while bit > 0 {
        bit -= 1;
        out.push(b'0' + ((target >> bit) & 1) as u8)?;
    }
    Ok(())
}

/// Granules from a first one on, each behind a space, or a word where there are none.
fn put_candidates(
    alloc: Global,
    out: &mut Vec<u8>,
    first: u64,
    candidates: Candidates,
) -> Result<(), AllocError>
    requires within { first ≤ max_granules }
    ensures ok { OnOk result (out.new.items ≡ out.old.items ++ list_text (map (λ number. first + number) candidates)) }
{
    let mut none = true;
    for number in candidates {
        put_numbered(alloc, out, b" ", first + u64::from(number))?;
        none = false;
    }
    if none {
        out.extend_from_slice(b" none")?;
    }
    Ok(())
}

/// The candidates by a target.
fn candidates_by(algorithm: Algorithm, target: u16, k: u8) -> Candidates
    requires size { k ≤ 10 }
    requires within { target < 2 ^ k }
    ensures value { result ≡ candidates_by algorithm target k }
{
    match algorithm {
        Algorithm::TiledExactly { kappa } => exactly(target, k, kappa),
        Algorithm::Mono | Algorithm::Tiled | Algorithm::A3d => candidates(target, k),
    }
}

/// The line of a tile that fails.
pub(crate) fn put_target(
    alloc: Global,
    out: &mut Vec<u8>,
    algorithm: Algorithm,
    eras: &Eras,
    tile: u32,
    target: u16,
    span: Span,
) -> Result<(), AllocError>
    requires below { first_granule (layout_by eras.now) tile ≤ max_granules }
    requires within { target < 2 ^ exponent (layout_by eras.now) tile }
    ensures ok { OnOk result (out.new.items ≡ out.old.items ++ target_line_in algorithm (layout_by eras.now) (tile, target) span) }
{
    put_numbered(alloc, out, b"tile ", u64::from(tile))?;
    out.extend_from_slice(b" target ")?;
    let bits = eras.exponent(tile);
    put_bits(out, bits, target)?;
    out.extend_from_slice(b" candidates")?;
    put_candidates(
        alloc,
        out,
        eras.first(tile),
        candidates_by(algorithm, target, bits),
    )?;
    put_when(alloc, out, span)?;
    out.push(b'\n')?;
    Ok(())
}

/// The line of a granule.
pub(crate) fn put_granule(
    alloc: Global,
    out: &mut Vec<u8>,
    granule: u32,
    span: Span,
) -> Result<(), AllocError>
    ensures ok { OnOk result (out.new.items ≡ out.old.items ++ granule_line_in granule span) }
{
    put_numbered(alloc, out, b"granule ", u64::from(granule))?;
    put_when(alloc, out, span)?;
    out.push(b'\n')?;
    Ok(())
}

/// The line of how many nodes were asked.
pub(crate) fn put_checks(alloc: Global, out: &mut Vec<u8>, checks: u32) -> Result<(), AllocError>
    ensures ok { OnOk result (out.new.items ≡ out.old.items ++ checks_line checks) }
{
    put_numbered(alloc, out, b"checks ", u64::from(checks))?;
    out.push(b'\n')?;
    Ok(())
}

/// The line of the first change.
pub(crate) fn put_first(
    alloc: Global,
    out: &mut Vec<u8>,
    tile: u32,
    span: Span,
) -> Result<(), AllocError>
    ensures ok { OnOk result (out.new.items ≡ out.old.items ++ first_line_in tile span) }
{
    put_numbered(alloc, out, b"first change in tile ", u64::from(tile))?;
    put_when(alloc, out, span)?;
    out.push(b'\n')?;
    Ok(())
}

//! The script of a seed, put together.

ghost use Rattle.std.specs.Prelude.{◌≡◌, ◌++◌, ◌<◌, ◌≤◌, OnOk, IfOk};
ghost use Rattle.workload_make.specs.Script.{lines_text, steps, script, max_steps};
ghost use Rattle.workload_make.specs.Progress.{progress_of};

use crate::maker::Maker;
use std::alloc::{AllocError, Global};
use tuple_bytes::Blob;

/// How many steps a script has at most.
pub const MAX_STEPS: u32 = 100_000;

/// Puts the lines of the steps.
fn put_steps(
    alloc: Global,
    out: &mut Vec<u8>,
    width: u32,
    mut maker: Maker,
    count: u32,
) -> Result<(), AllocError>
    requires { 0 < width }
    ensures ok { OnOk result (out.new.items ≡ out.old.items ++ lines_text (steps count width (progress_of maker))) }
{
    for step in 0..count {
        maker.put_step(alloc, out, width)?;
    }
    Ok(())
}

/// The script of a seed, for a store of this granule width and last moment.
pub fn script(
    alloc: Global,
    width: u32,
    last: u64,
    seed: u64,
    count: u32,
) -> Result<Blob, AllocError>
    requires width { 0 < width }
    requires some { 1 ≤ count }
    requires few { count ≤ max_steps }
    ensures value { IfOk result (λ text. text ≡ script width last seed count) }
{
    let mut out = Vec::new(alloc);
    out.extend_from_slice(b"create made id int amount int\n")?;
    put_steps(alloc, &mut out, width, Maker::new(last, seed), count)?;
    out.extend_from_slice(b"notarize\nvalidate\n")?;
    Ok(Blob::from_vec(out))
}

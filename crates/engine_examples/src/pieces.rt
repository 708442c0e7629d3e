//! An audit goes on piece by piece, and ends with the verdict of a validation.

ghost use Rattle.step_count.specs.Blank.{IsBlankOf};

use crate::stores::{FALLING, LATE, holding};
use audit_steps::{Audit, Auditor};
use disk_model::MemDisk;
use notary_link::{Answer, MemNotary, NotaryLimits};
use std::alloc::Global;
use std::marker::Brand;
use std::test::Fail;
use step_count::{Blank, Ledger, Steps};
use store_engine::Store;
use validator::{AuditFail, Turned, Verdict, ask_header, notarize, policy};

/// A Frontier at moment 480, where tile 0 ends, behind its length.
const FRONTIER: &[u8] = b"\0\0\0\x09\x02\0\0\0\0\0\0\x01\xe0";

/// What holds a thousand seals and marks.
fn roomy(alloc: Global) -> MemNotary {
    let limits = NotaryLimits {
        seals: 1_000,
        marks: 1_000,
    };
    MemNotary::new(alloc, limits)
}

/// The first three answers of an auditor.
fn audit_thrice<L: Ledger>(
    alloc: Global,
    disk: &mut MemDisk,
    notary: &mut MemNotary,
    blank: Blank,
) -> Result<[Audit; 3], AuditFail>
    requires blank { IsBlankOf L.name L.parts blank }
{
    let mut steps = Steps::<L>::new(blank);
    let mut auditor = Auditor::new();
    let first = auditor.step(alloc, disk, notary, 7, 1_500, &mut steps)?;
    let second = auditor.step(alloc, disk, notary, 7, 1_500, &mut steps)?;
    let third = auditor.step(alloc, disk, notary, 7, 1_500, &mut steps)?;
    Ok([first, second, third])
}

/// Nothing is filed, and then a tile is.
#[test]
fn an_audit_goes_on_by_256_items(rt: HostRuntime) -> Result<(), Fail> {
    let alloc = rt.alloc();
    let mut disk = holding(alloc, &[FRONTIER; 513])?;
    let mut notary = roomy(alloc);
    let going = [Audit::Going { read: 256 }, Audit::Going { read: 512 }];
    for verdict in [Verdict::Unsealed, Verdict::Clean { tiles: 1 }] {
        let [first, second, third] = audit_thrice::<Brand>(
            alloc,
            &mut disk,
            &mut notary,
            Blank::new(1),
        )?;
        assert_eq!(rt; [first, second], going);
        assert_eq!(rt; third, Audit::Found { verdict });
        let mut store = Store::open_store(alloc, &mut disk, 7)?;
        assert_eq!(rt;
            notarize(alloc, &mut store, &mut disk, &mut notary, 1_500)?,
            1
        );
    }
    Ok(())
}

/// No chains are kept there, and the last piece reads all anew.
#[test]
fn an_audit_ends_where_a_granule_falls(rt: HostRuntime) -> Result<(), Fail> {
    let alloc = rt.alloc();
    let [_, later, earlier, _] = FALLING;
    let mut disk = holding(alloc, &[LATE, later, earlier, FRONTIER])?;
    let mut notary = roomy(alloc);
    let mut store = Store::open_store(alloc, &mut disk, 7)?;
    notarize(alloc, &mut store, &mut disk, &mut notary, 1_500)?;
    let clean = Audit::Found {
        verdict: Verdict::Clean { tiles: 1 },
    };
    let answers = audit_thrice::<Brand>(alloc, &mut disk, &mut notary, Blank::new(1))?;
    assert_eq!(rt; answers, [clean; 3]);
    Ok(())
}

/// From the policy's tile on a tile has one granule. The audit holds what it kept of both eras against what was filed;
/// with fewer tiles the policy would be an era that no file has.
#[test]
fn an_audit_goes_on_over_a_policy(rt: HostRuntime) -> Result<(), Fail> {
    let alloc = rt.alloc();
    let mut disk = holding(alloc, &[FRONTIER])?;
    let mut notary = roomy(alloc);
    let mut store = Store::open_store(alloc, &mut disk, 7)?;
    notarize(alloc, &mut store, &mut disk, &mut notary, 1_500)?;
    let turned = policy(alloc, &mut store, &mut disk, &mut notary, 0, 3)?;
    assert_eq!(rt; turned, Turned { era: 1, tile: 1 });
    assert_eq!(rt;
        notarize(alloc, &mut store, &mut disk, &mut notary, 1_540)?,
        2
    );
    for (tiles, answer) in [(2, Answer::Same), (1, Answer::Differs)] {
        let answered = ask_header(&mut notary, 7, store.header(), store.eras(), tiles)?;
        assert_eq!(rt; answered, answer);
    }
    let clean = Audit::Found {
        verdict: Verdict::Clean { tiles: 2 },
    };
    let answers = audit_thrice::<Brand>(alloc, &mut disk, &mut notary, Blank::new(1))?;
    assert_eq!(rt; answers, [clean; 3]);
    Ok(())
}

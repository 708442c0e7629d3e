//! An audit in pieces, and what it meets on its way.

use crate::story::tell;
use std::test::Fail;

/// The 601st item of the first store is a Frontier. The others begin with 301 items.
const IN_PIECES: &str = "\
an audit reads 256 items a line, and ends as a validation does
$ init 7 60 3 m @ 0 = 0 ready 7
$ run 7 scripted = 0
< create t k int; [1-599*insert t #; ]now 480; notarize; audit; audit; insert t 1000; audit
> ok 1; [2-600*ok #; ]ok; sealed 1; auditing 256; auditing 512; ok 601; clean 1
$ holds 2 1

other lines stand between the pieces, and what they store is read, too
$ sealed 300 37 init 7 60 3 m
$ run 7 scripted = 3
< s0 begin; s0 insert t 300 0; audit; get t 1; insert t 1 1; s0 audit; validate; s0 commit
> ok; ok; auditing 256; row 1 0; refused RowExists; refused Syntax; clean 37; ok 302
< now 18240; notarize; audit
> ok; sealed 38; clean 38

an audit begins anew with each run
$ sealed 300 37 init 7 60 3 m
$ run 7 scripted = 0
< audit
> auditing 256
$ run 7 scripted = 0
< audit; audit; audit
> auditing 256; clean 37; auditing 256

where no more items are left than a piece reads, it is the last
$ sealed 300 37 init 7 60 3 m
# the gate in front of the 258th item is closed, and then that of the 257th: those of granules 256 and 255
$ alter 10846 00
$ run 7 scripted = 0
< audit; audit
> auditing 256; altered 37 from 32
$ alter 10804 00
$ run 7 scripted = 0
< audit; audit
> altered 37 from 31; altered 37 from 31

without a batch there is no verdict and no mark
$ init 7 60 3 m @ 0 = 0 ready 7
$ run 7 scripted = 0
< create t k int; [1-256*insert t #; ]audit; audit; audit
> ok 1; [2-257*ok #; ]auditing 256; unsealed; auditing 256
$ holds 0 0

no question is asked before the last piece
$ sealed 300 37 init 7 60 3 m
$ fails 1 0
$ run 7 scripted = 6
< audit; get t 1; audit
> auditing 256; row 1 0; fault NotaryFault

a mark that is refused ends an audit, too
$ notary 1000 1
$ sealed 300 37 init 7 60 3 m
$ run 7 scripted = 3
< audit; audit; audit; audit; audit
> auditing 256; clean 37; auditing 256; refused Full; auditing 256";

/// The value of insert n ends at place 90 + 33 * n.
const CHANGED: &str = "\
a change in a drill begins the audit anew, wherever that was
$ drill = 3
< init 7 60 3 m; create t k int; [1-300*insert t #; ]now 480; notarize
> ready 7; ok 1; [2-301*ok #; ]ok; sealed 1
# an item that it has read is altered, and one that it hasn't
< audit; alter 420 0b; audit; audit; alter 420 0a; audit; alter 9660 23; audit; audit; alter 9660 22; audit; audit
> auditing 256; ok; auditing 256; altered 1 from 0; ok; auditing 256; ok; auditing 256; altered 1 from 0; ok; auditing 256; clean 1
# the header gets other algorithms, and another id
< audit; alter 30 01; audit; audit; alter 30 00; audit; alter 16 08; audit; alter 16 07
> auditing 256; ok; auditing 256; header altered 1; ok; auditing 256; ok; header altered 1; ok
# it gets the letters of format 1, of which no row is stored
< alter 8 31; insert t 400; audit; audit; alter 8 32; audit; audit
> ok; refused OldFormat; auditing 256; clean 1; ok; auditing 256; clean 1
# a crash comes behind a piece that goes on, before the mark of the last one, and behind that
< crash 0 0; audit; audit; crash 0 0; audit; audit; crash 1 0; audit; audit
> ok; auditing 256; auditing 256; ok; crashed; auditing 256; ok; clean 1; auditing 256
# the end is lost
< cut 9000; audit; audit; cut 8000; audit
> ok; auditing 256; altered 1 from 0; ok; altered 1 from 0";

#[test]
fn an_audit_goes_on_in_pieces(rt: HostRuntime) -> Result<(), Fail> {
    let alloc = rt.alloc();
    tell(&rt, alloc, "", IN_PIECES)?;
    tell(&rt, alloc, "", CHANGED)
}

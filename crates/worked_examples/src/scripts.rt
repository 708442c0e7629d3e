//! Scripts and their replies.

use crate::story::{NEW, tell};
use std::test::Fail;

const SCRIPTS: &str = "\
what was there is told, at each moment
$ run 7 scripted @ 10 20 30 40 39 50 = 0
< create t k int v int; now 10; insert t 5 1; now 20; update t 5 2; now 30; delete t 5; get t 5 as of 9
> ok 1; ok; ok 2; ok; ok 3; ok; ok 4; none
< get t 5 as of 10; get t 5 as of 29; get t 5 as of 30; history t 5; now 40; insert t 1 1; insert t 2 2
> row 5 1; row 5 2; none; version 10 20 row 5 1; version 20 30 row 5 2; versions 2; ok; ok 5; ok 6
< scan t as of 40
> row 1 1; row 2 2; rows 2

each refusal has its name, and the script goes on
$ run 7 scripted @ 10 20 30 40 39 50 = 3
< create t k int v int; insert u 1 1; insert t 1; insert t null 1; insert t 1 'a'; update t 1 1
> ok 1; refused NoTable; refused BadCount; refused NullKey; refused BadType 2; refused NoRow
< create t k int; insert t 1 1; insert t 1 1; insert t 9223372036854775808 1; scan t w = 1; get t 'a'
> refused TableExists; ok 2; refused RowExists; refused NumberTooWide; refused NoColumn; refused BadType 1
< get t null; now 7; now 6; insert t 2 2; select t; s1 commit; s1 begin; s1 begin
> refused NullKey; ok; ok; ok 3; refused Syntax; refused NoSession; ok; refused SessionOpen

blank lines, comments and carriage returns say nothing
$ run 7 scripted @ 10 20 30 40 39 50 = 0
< # a table; ;    ; create  t k text \r; insert t 'it''s'\r; scan t~
> ok 1; ok 2; row 'it''s'; rows 1

the clock says when, once for each line that is not blank
$ run 7 @ 10 20 30 40 39 50 = 3
< create t k int; ; # no second; insert t 1; now 9; insert t 2; insert t 3; history t 1
> ok 1; ok 2; refused NotScripted; ok 3; refused ClockBack 40; version 20 - row 1; versions 1

a later run goes on where the store ends
$ run 7 scripted = 0
< create t k int v int; now 20; insert t 5 1
> ok 1; ok; ok 2
$ run 7 scripted = 3
< update t 5 2; now 19; update t 5 3; get t 5 as of 20
> ok 3; ok; refused ClockBack 20; row 5 2
$ run 8 scripted = 4 fault NotAStore";

const OTHERS: &str = "\
a script has moments of its own
$ init 7 60 3 m @ 5 = 0 ready 7
$ run 7 scripted @ 9 = 0
< create t k int v int; ; insert t 1 5\r; now 60; get t 1~
> ok 1; ok 2; ok; row 1 5

without one, it is not scripted
$ init 7 60 3 m @ 5 = 0 ready 7
$ run 7 @ 9 = 3
< now 60; begin; get t x
> refused NotScripted; refused Syntax; refused Syntax

a run is over the store of its id
$ init 7 60 3 m @ 5 = 0 ready 7
$ run 8 @ 9 = 4 fault NotAStore
< now 60

a run has no other words
$ init 7 60 3 m @ 5 = 0 ready 7
$ run 7 again @ 9 = 2 fault Usage
< now 60

the last granule is before 1,048,576
$ init 7 1 0 m @ 0 = 0 ready 7
$ run 7 scripted = 3
< create t k int; now 1048575; insert t 1; now 1048576; insert t 2
> ok 1; ok; ok 2; ok; refused TooLate";

/// Rows at all moments of a span, and pairs of them.
const SPANS: &str = "\
< create t k int v int; create u k int v int; now 10; insert t 5 1; now 15; update t 5 1; now 20; update t 5 2
> ok 1; ok 2; ok; ok 3; ok; ok 4; ok; ok 5
< now 25; insert u 1 2; now 30; delete t 5; over 0 to 100 select t; over 0 to 40 join t u on v v
> ok; ok 6; ok; ok 7; during 10 20 row 5 1; during 20 30 row 5 2; pieces 2; during 25 30 row 5 2 1 2; pieces 1
< over 20 to 20 select t; over 0 to 9 select x; over 0 to 9 select t
> refused NoSpan; refused NoTable; pieces 0";

#[test]
fn a_span_is_answered_by_what_holds_at_each_moment(rt: HostRuntime) -> Result<(), Fail> {
    let alloc = rt.alloc();
    for call in [
        "init 7 60 3 m @ 0 = 0 ready 7\n$ run 7 scripted = 3",
        "drill = 3\n< init 7 60 3 m\n> ready 7",
    ] {
        let story = format!(in alloc; "a span\n$ {call}\n{SPANS}")?;
        tell(&rt, alloc, "", &story)?;
    }
    Ok(())
}

#[test]
fn scripts_are_answered_line_by_line(rt: HostRuntime) -> Result<(), Fail> {
    tell(&rt, rt.alloc(), NEW, SCRIPTS)?;
    tell(&rt, rt.alloc(), "", OTHERS)
}

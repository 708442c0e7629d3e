//! Sessions: what each is told, and which of those that overlap may commit.

use crate::story::{NEW, tell};
use std::test::Fail;

/// What conflicts: something read was touched since the begin.
const CONFLICTS: &str = "\
of two sessions that read and update one row, the second is refused
$ run 7 scripted = 3
< create t k int v int; insert t 1 10; s1 begin; s2 begin; s1 get t 1; s2 get t 1; s1 update t 1 11
> ok 1; ok 2; ok; ok; row 1 10; row 1 10; ok
< s2 update t 1 12; s1 commit; s2 commit; get t 1
> ok; ok 3; refused Conflict 3; row 1 11

a query over a span sees what is committed alone, and has read the whole table
$ run 7 scripted = 3
< create t k int v int; s1 begin; s1 insert t 1 1; s1 over 0 to 9 select t; insert t 2 2; s1 commit
> ok 1; ok; ok; pieces 0; ok 2; refused Conflict 2

another key is free, a scan is not, and the first transaction that touches is named
$ run 7 scripted = 3
< create t k int v int; s1 begin; s2 begin; s1 get t 1; s2 scan t; insert t 2 2; s1 insert t 1 1; s1 commit
> ok 1; ok; ok; none; rows 0; ok 2; ok; ok 3
< s2 commit
> refused Conflict 2

a read of the past conflicts, though its answer stays the same
$ run 7 scripted = 3
< create t k int v int; now 5; insert t 2 2; now 9; s1 begin; s1 get t 1 as of 3; insert t 1 1
> ok 1; ok; ok 2; ok; ok; none; ok 3
< s1 get t 1 as of 3; s1 commit
> none; refused Conflict 3

a late read conflicts, though it saw the change: what counts is the begin
$ run 7 scripted = 3
< create t k int v int; s1 begin; insert t 1 1; s1 get t 1; s1 commit
> ok 1; ok; ok 2; row 1 1; refused Conflict 2

a row that was deleted and put again was touched by the delete first
$ run 7 scripted = 3
< create t k int v int; insert t 1 1; s1 begin; s1 get t 1; delete t 1; insert t 1 1; s1 get t 1; s1 commit
> ok 1; ok 2; ok; row 1 1; ok 3; ok 4; row 1 1; refused Conflict 3

a statement that is refused has read the row and the table that are not there
$ run 7 scripted = 3
< s1 begin; s1 get t 1; create t k int v int; s2 begin; s2 update t 1 2; insert t 1 1; s1 commit; s2 commit
> ok; refused NoTable; ok 1; ok; refused NoRow; ok 2; refused Conflict 1; refused Conflict 2

a commit without operations stores nothing and asks no clock, and is tested all the same
$ run 7 scripted = 3
< create t k int v int; s1 begin; s1 commit; s1 begin; s1 get t 1; now 10; insert t 2 2; now 9; s1 commit
> ok 1; ok; ok; ok; none; ok; ok 2; ok; ok
< now 10; s1 begin; s1 get t 1; insert t 1 1; s1 commit
> ok; ok; none; ok 3; refused Conflict 3";

/// What a session sees, and when it ends.
const LIVES: &str = "\
reads of now alone see what is pending, and no other session does
$ run 7 scripted = 0
< create t k int v int; insert t 1 10; insert t 3 30; s1 begin; s1 update t 1 11; s1 insert t 2 20
> ok 1; ok 2; ok 3; ok; ok; ok
< s1 delete t 3; s1 get t 1; s1 get t 1 as of 0; s1 history t 1; s1 scan t
> ok; row 1 11; row 1 10; version 0 - row 1 10; versions 1; row 1 11; row 2 20; rows 2
< s1 scan t as of 0; s1 scan t v > 15; scan t; s2 begin; s2 get t 2; s1 abort
> row 1 10; row 3 30; rows 2; row 2 20; rows 1; row 1 10; row 3 30; rows 2; ok; none; ok
< scan t
> row 1 10; row 3 30; rows 2

a table of its own takes rows, and is one transaction with them
$ run 7 scripted = 3
< s1 begin; s1 create u k int; s1 create u k int; s1 insert u 1; s1 insert u 2; scan u; s1 scan u
> ok; ok; refused TableExists; ok; ok; refused NoTable; row 1; row 2; rows 2
< s1 scan u as of 0; s1 commit; scan u
> refused NoTable; ok 1; row 1; row 2; rows 2

a clock that was set back leaves the session, and the next commit may succeed
$ run 7 scripted = 3
< create t k int v int; s1 begin; s1 insert t 1 1; now 10; insert t 2 2; now 9; s1 commit; s1 get t 1; now 10
> ok 1; ok; ok; ok; ok 2; ok; refused ClockBack 10; row 1 1; ok
< s1 commit; s1 commit
> ok 3; refused NoSession

the moment of a transaction is that of its commit
$ run 7 @ 10 20 30 40 = 0
< create t k int; s1 begin; s1 insert t 1; s1 commit; history t 1
> ok 1; ok; ok; ok 2; version 40 - row 1; versions 1

sessions end with their run
$ run 7 scripted = 0
< create t k int; s1 begin; s1 insert t 1
> ok 1; ok; ok
$ run 7 scripted = 3
< s1 commit; scan t
> refused NoSession; rows 0

sixteen numbers, each begun once, and no line but those of sessions
$ run 7 scripted = 3
< s0 get t 1; s15 commit; s15 abort; s15 begin; s15 begin; s0 begin; s16 begin
> refused NoSession; refused NoSession; refused NoSession; ok; refused SessionOpen; ok; refused Syntax
< s01 begin; s1 notarize; s1 validate; s1 analyse mono; s1 now 5; s1 s2 begin
> refused Syntax; refused Syntax; refused Syntax; refused Syntax; refused Syntax; refused Syntax
< s1; begin; s15  abort ; s15 abort; s0 abort
> refused Syntax; refused Syntax; ok; refused NoSession; ok";

const IN_TILES: &str = "\
a tile that is filed meanwhile is no conflict, and can make a later commit too early
$ init 7 60 0 m @ 0 = 0 ready 7
$ run 7 scripted = 3
< create t k int v int; s1 begin; s1 scan t; now 60; notarize; s1 insert t 1 1; now 59; s1 commit; now 60
> ok 1; ok; rows 0; ok; sealed 1; ok; ok; refused ClockBack 60; ok
< s1 commit
> ok 2";

/// A session that is full, and one whose run ends early.
const ENDS: &str = "\
a session has 256 operations, and a statement that has no room has read
$ run 7 scripted = 3
< create t k int v int; insert t 9 9; s1 begin; [256*s1 update t 9 9; ]s1 insert t 1 1; insert t 1 1
> ok 1; ok 2; ok; [256*ok; ]refused TooManyOps; ok 3
< s1 insert t 1 1; s1 commit; s1 begin; [256*s1 update t 9 9; ]s1 update t 9 9; s1 commit
> refused RowExists; refused Conflict 3; ok; [256*ok; ]refused TooManyOps; ok 4

what is pending has 32,768 bytes, and a statement that would make it longer has read
$ run 7 scripted = 3
< create t k int v text; s1 begin; s1 insert t 1 '[32737*a]'; s1 insert t 2 ''; s1 get t 2; s1 commit
> ok 1; ok; ok; refused TooLong; none; ok 2
< s1 begin; s1 insert t 3 '[32738*a]'; insert t 3 ''; s1 insert t 3 ''; s1 commit
> ok; refused TooLong; ok 3; refused RowExists; refused Conflict 3

a fault or a crash drops the sessions
$ crash 0
$ run 7 scripted = 0
< create t k int v int; insert t 1 10
> ok 1; ok 2
$ crash 0
$ breaks 0 1
$ run 7 scripted = 5
< s1 begin; s2 begin; s2 get t 1; s1 update t 1 11; s1 commit; s2 commit
> ok; ok; row 1 10; ok; fault DiskFault
$ crash 0
$ breaks 0 0
$ run 7 scripted = 3
< s1 commit; s2 abort; get t 1
> refused NoSession; refused NoSession; row 1 10";

#[test]
fn sessions_are_answered_line_by_line(rt: HostRuntime) -> Result<(), Fail> {
    for stories in [CONFLICTS, LIVES, ENDS] {
        tell(&rt, rt.alloc(), NEW, stories)?;
    }
    tell(&rt, rt.alloc(), "", IN_TILES)
}

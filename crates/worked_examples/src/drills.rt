//! Drills in which a line is stopped before each of its calls in turn.

use crate::desk::call;
use crate::story::behind;
use disk_model::MemDisk;
use std::test::Fail;

/// Behind `<` and `>` stand the lines before the crash and what they are told; behind `!` and `=` the line, and what it
/// is told where nothing stops it; behind `?` the lines after the crash. Behind `@` stand, where the first 0, 1, 2 ..
/// calls came through, the ends with what was durable, with all that was written, and with other bytes in its place:
/// `010` are those whose lines are told what stands behind `0`, `1` and `0`. At a dot all calls came through.
const STOPPED: &str = "\
a row is stored or isn't
< init 7 60 0 m; create t k int; insert t 1
> ready 7; ok 1; ok 2
! insert t 2
= ok 3
? get t 1; get t 2; insert t 3
@ 000 000 000 010 111.
0 row 1; none; ok 3
1 row 1; row 2; ok 4

a row over bytes of an intruder, an open gate behind the rows, takes two calls more
< init 7 60 0 m; create t k int; insert t 1; alter 124 a7
> ready 7; ok 1; ok 2; ok
! insert t 2
= ok 3
? get t 1; get t 2; insert t 3
@ 000 000 000 000 000 010 111.
0 row 1; none; ok 3
1 row 1; row 2; ok 4

so is all that a session has kept
< init 7 60 0 m; create t k int; insert t 1; s1 begin; s1 insert t 2
> ready 7; ok 1; ok 2; ok; ok
! s1 commit
= ok 3
? get t 1; get t 2; insert t 3
@ 000 000 000 010 111.
0 row 1; none; ok 3
1 row 1; row 2; ok 4

a store is made or isn't
! init 7 60 0 m
= ready 7
? get t 1; init 7 60 0 m
@ 000 000 000 000 000 010 111.
0 refused NotAStore; ready 7
1 refused NoTable; refused AlreadyThere

a batch is filed where its Frontier is durable, which takes four calls, and each batch one
< init 7 60 0 m; create t k int; now 60
> ready 7; ok 1; ok
! notarize
= sealed 1
? validate; now 59; insert t 1
@ 000 000 000 010 111 222 333.
0 unsealed; ok; ok 2
1 unsealed; ok; refused ClockBack 60
2 clean 0; ok; refused ClockBack 60
3 clean 1; ok; refused ClockBack 60

a policy is stored or isn't, and leaves what is filed
< init 7 60 0 m; create t k int; insert t 1; now 60; notarize
> ready 7; ok 1; ok 2; ok; sealed 1
! policy 1 a
= era 1 from tile 1
? validate; policy 0 t
@ 000 000 000 010 111.
0 clean 1; era 1 from tile 1
1 clean 1; era 2 from tile 1

a mark is there or isn't: it takes the one call
< init 7 60 0 m; create t k int; insert t 1; now 60; notarize; now 90
> ready 7; ok 1; ok 2; ok; sealed 1; ok
! validate
= clean 1
? alter 123 02; analyse mono
@ 000 111.
0 ok; report mono id 7 tiles 1 altered; tiles 0 to 0 granules 0 to 0 when 60 to 90
0 first change in tile 0 when 60 to 90; diagram;           60 N;           90 X
1 ok; report mono id 7 tiles 1 altered; tiles 0 to 0 granules 0 to 0 when 90 to 90
1 first change in tile 0 when 90 to 90; diagram;           60 N;           90 v;           90 X

a question is answered, and the crash behind it drops the sessions
< init 7 60 0 m; create t k int; s1 begin; s1 insert t 1
> ready 7; ok 1; ok; ok
! s1 get t 1
= row 1
? s1 commit; get t 1
@ 000.
0 refused NoSession; none

a refusal makes no call
< init 7 60 0 m; create t k int; insert t 1
> ready 7; ok 1; ok 2
! insert t 1
= refused RowExists
? get t 1
@ 000.
0 row 1";

/// The sign of what is told at such an end.
fn sign_of(end: u8) -> &'static str {
    match end {
        b'0' => "0 ",
        b'1' => "1 ",
        b'2' => "2 ",
        _ => "3 ",
    }
}

/// The reply to a line at such ends: its own, where no call of it was stopped.
fn reply_at<'a>(ends: &str, reply: &'a str) -> &'a str {
    if ends.ends_with('.') {
        reply
    } else {
        "crashed\n"
    }
}

#[test]
fn a_crash_at_each_call_leaves_what_was_or_what_the_line_does(rt: HostRuntime) -> Result<(), Fail> {
    let alloc = rt.alloc();
    for story in STOPPED.split("\n\n") {
        let (before, was_told) = (
            behind(alloc, story, "< ", "")?,
            behind(alloc, story, "> ", "")?,
        );
        let (line, reply) = (
            behind(alloc, story, "! ", "")?,
            behind(alloc, story, "= ", "")?,
        );
        let asked = behind(alloc, story, "? ", "")?;
        let all = behind(alloc, story, "@ ", "")?;
        for (calls, ends) in all.trim().split(' ').enumerate() {
            for (choice, end) in [0, 1, 200].iter().zip(ends.as_bytes().iter()) {
                let crash = format!(in alloc; "{before}crash {calls} {choice}\n{line}{asked}")?;
                let reply = reply_at(ends, &reply);
                let text = behind(alloc, story, sign_of(*end), "")?;
                let wanted = format!(in alloc; "{was_told}ok\n{reply}{text}")?;
                let (_, text) = call(alloc, &mut MemDisk::new(alloc), "drill", &crash, &[])?;
                assert_eq!(rt; text.as_slice(), wanted.as_bytes(), "{crash}");
            }
        }
    }
    Ok(())
}

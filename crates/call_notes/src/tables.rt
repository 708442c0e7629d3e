//! What is said of each status that is a fault, and the form of each statement.

/// A line for each fault: the number of its status, what that means, and what to do next.
const FAULTS: &str = "\
4 the store's file holds no store of this id: name the right file and id (`inspect` says which id it has), or `init` one
5 a file failed: repair that and start again, what was answered is kept; docs/RUNBOOK.md
6 the notary failed: its file failed, is no book or is damaged, or too few notaries agree: keep the books; docs/NOTARY.md
7 the input failed: give the lines that have no answer again
8 the output failed: what was stored is kept, so check what that is before you start again
9 no memory was left: what was answered is kept, so start again with more
10 the store isn't what was filed: keep store and book as they are, copy them, and `analyse`; docs/RUNBOOK.md
11 the notary lacks a digest: its book is another store's, or was cut or altered: keep all files; docs/NOTARY.md
12 someone else filed meanwhile: `notarize` again
13 the file that was to be made isn't empty, and stays as it is: name another one
14 the clock is before the store's last moment: set it right, or wait until that moment; docs/RUNBOOK.md
15 the clock is after the last moment that a store can hold: set it right, or go on with another store; docs/RUNBOOK.md
16 no room is left: go on with another store and its own book, and never with another book for this one; docs/RUNBOOK.md
17 the input is too long: give the lines that have no answer in another call
18 a tile lacks the chains that this needs: take another algorithm, or an era that has them; docs/ANALYSIS.md
19 the notary contradicts itself, as no store's digests do: keep its book as it is; docs/NOTARY.md
20 the store is in the first format, to which nothing is added: `target=FILE migrate ID` writes what it holds to a new file
21 the store has 256 eras, which is the most: go on with another store
22 the store has no era of this number: name another one
23 the input is no evidence file, or was cut or changed: get the whole one, as in notary=FILE examine ID <EVIDENCE
24 neither the store nor its copy has the header and the eras that were filed: keep them, and name another copy or book
";

/// What the status of this number means, and what to do next, if it is a fault.
pub(crate) fn fault_of(code: u8) -> Option<&'static str> {
    FAULTS.lines().find_map(|line| {
        let (number, words) = line.split_once(' ')?;
        if number.parse::<u8>() == Ok(code) {
            Some(words)
        } else {
            None
        }
    })
}

/// The form of each statement.
const FORMS: &str = "\
create TABLE KEY KIND [COLUMN KIND ..], KIND being int, text, bytes or bool
insert TABLE VALUE .., VALUE being 1, 'one', x'00ff', true, false or null
update TABLE VALUE .., the key first
delete TABLE KEY
get TABLE KEY [as of M]
scan TABLE [COLUMN = VALUE] [as of M], and so with !=, <, <=, > and >=
history TABLE KEY
over M to M select TABLE [COLUMN = VALUE], or over M to M join TABLE TABLE on COLUMN COLUMN
now M, in `run ID scripted`
notarize
validate
audit
policy K ALGS
analyse mono, or analyse tiled [KAPPA] [era E], or analyse a3d [era E]
begin, after the name of a session, s0 to s15
commit, after the name of a session, s0 to s15
abort, after the name of a session, s0 to s15
init ID W K ALGS, in a drill
crash K C, in a drill
alter PLACE HEX, in a drill
cut LENGTH, in a drill
";

/// The form of the statement that has this word, if one does.
pub(crate) fn form_of(word: &str) -> Option<&'static str> {
    FORMS.lines().find(|form| {
        let of = form.split(' ').next().unwrap_or("");
        of.strip_suffix(",").unwrap_or(of) == word
    })
}

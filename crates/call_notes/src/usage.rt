//! The usage page, which goes to standard error.

pub const USAGE: &str = "\
usage: dragoon [store=FILE] [copy=FILE] [notary=FILE,..] [target=FILE] COMMAND

  store=FILE        the store; one process at a time changes it
  notary=FILE       the notary's book: keep it where no one who writes the store can write
                    (a missing file counts as empty; a device that isn't named is in memory)
  notary=FILE,FILE,..
                    the books of up to nine notaries: what more than half of them answer counts
  copy=FILE         a copy of the store, which `evidence` and `restore` read
  target=FILE       a new file, which `migrate`, `evidence` and `restore` make

Make and fill
  init ID W K ALGS  makes a store that begins now, and prints `ready ID`
                    ID    the number by which a notary knows it
                    W, K  a granule has W seconds, 1 to 86400, and a tile 2^K granules, K being 0 to 10
                    ALGS  the algorithms: `m`, `t`, `a` or `ta`
  run ID            executes standard input, one statement a line, and answers each line in turn:
                    `create t k int v text`, `insert t 1 'one'`, `get t 1`
  run ID scripted   the same at the moments that lines `now M` set; it asks no clock
  make ID SEED N    executes N generated steps, 1 to 100000, the same for each SEED, and prints a summary
  migrate ID        writes what the store holds to the target, in segments, and prints `migrated N`
  drill             executes standard input over a store in memory, with crashes, alterations and cuts

Ask
  run ID            takes `get` and `scan`, of now or `as of` a moment, `history`, and `over` a span
  link              prints `txns N` and `link H`: the number of transactions and the chain over them

File and check
  notarize ID       files the digests of the tiles that have ended, and prints `sealed N`
  policy ID K ALGS  gives the tiles after those that are filed 2^K granules and these algorithms,
                    and prints `era E from tile J`; it needs the book, by notary=FILE
  validate ID       compares the store with what was filed, and prints the verdict:
                    `unsealed`, `clean N`, `header altered N`, or `altered N from J`, J being a tile
  inspect ID        lists what is inconsistent in the store and the book, a finding a line;
                    it changes nothing and takes no lock; `inspect --explain NAME` explains a finding
  analyse ID ALG    reports which granules are altered, and since when, by the algorithm `mono`,
                    `tiled`, `tiled KAPPA` or `a3d`; the last three may be followed by `era E`
  evidence ID       writes to the target what the store holds in each altered granule, and what the copy
                    holds there, if that was filed; prints `evidence N`, or the verdict
  examine ID        reads an evidence file from standard input, and says which granules it shows
                    are not as notarized, by the notary's book alone
  restore ID        makes a new store at the target, of what the notary confirms of the store and of
                    its copy, and prints `restored K lost M` and which granules are lost
  run ID            takes notarize, policy, validate and analyse as lines, without ID, and `audit`,
                    which validates in steps

Exit status
  0  done                          9  out of memory             18  the store lacks the chains
  1  altered: not what was filed   10  nothing filed: altered   19  the notary contradicts itself
  2  no command                    11  a digest is missing      20  the store is in the old format
  3  a line was refused            12  someone else filed       21  the store has 256 eras
  4  no store of this id           13  the file is not empty    22  the store has no such era
  5  the store's file failed       14  the clock is behind      23  the input is no evidence
  6  the notary failed             15  the clock is ahead       24  no header is as filed
  7  the input failed              16  store or notary is full  25  inspect has findings
  8  the output failed             17  the input is too long

docs/LANGUAGE.md  the statements, their replies and refusals
docs/COMMANDS.md  the commands and the statuses
docs/FINDINGS.md  what each finding of `inspect` means
docs/NOTARY.md    where to keep the notary's book
docs/RUNBOOK.md   what to do about an alarm or a fault
";

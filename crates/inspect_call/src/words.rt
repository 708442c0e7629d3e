//! The words of the call.

ghost use Rattle.std.specs.Prelude.{◌≡◌, map};
ghost use Rattle.std.specs.String.{string_bytes};
ghost use Rattle.inspect_call.specs.Words.{rest_of, asked_of};

use file_findings::Kind;
use stmt_text::plain_number_of as number_of;

/// What is asked.
#[derive(Clone, Copy, Debug, PartialEq, Eq)]
pub enum Asked {
    /// A look at the files, as those of a store of this id.
    Look { id: Option<u64> },
    /// What the table says of a kind.
    Explain { kind: Kind },
}

/// By the words after the first one.
fn rest_of(words: &[String]) -> Option<Asked>
    ensures value { result ≡ rest_of (map string_bytes words.now) }
{
    match words {
        [] => Some(Asked::Look { id: None }),
        [id] => {
            let id = number_of(id.as_bytes(), 0, u64::MAX)?;
            Some(Asked::Look { id: Some(id) })
        }
        [word, name] => {
            if word.as_bytes() == b"--explain".as_slice() {
                let kind = Kind::named(name.as_bytes())?;
                Some(Asked::Explain { kind })
            } else {
                None
            }
        }
        _ => None,
    }
}

/// What the words ask, if they ask for a look.
pub fn asked_of(words: &[String]) -> Option<Asked>
    ensures value { result ≡ asked_of (map string_bytes words.now) }
{
    let (word, words) = words.split_first()?;
    if word.as_bytes() == b"inspect".as_slice() {
        rest_of(words)
    } else {
        None
    }
}

//! The words of the command line.

ghost use Rattle.std.specs.Prelude.{◌≡◌, ◌↔◌, IsTrue};
ghost use Rattle.streamd.specs.Words.{AskFor, usage};

use frame_wire::Octets;

/// What the words of the command line ask for.
#[derive(Clone, Copy, Debug, PartialEq, Eq)]
pub enum Words {
    /// To replay a script.
    Replay,
    /// To look into a segment and its index, whose names follow.
    Inspect,
    /// To make the index of a segment anew, whose name follows.
    Reindex,
    /// To be told which words there are.
    Usage,
}

/// Whether two words are the same.
fn is_same(one: &[u8], other: &[u8]) -> bool
    ensures { IsTrue result ↔ (one.now ≡ other.now) }
{
    one == other
}

/// What the words after the program's name ask for: `replay` alone, `inspect` and two names, or `reindex` and a name.
pub fn read_words(words: &[Octets]) -> Words
    ensures { AskFor words.now result }
{
    match words {
        [word] => {
            if is_same(word.as_slice(), b"replay") {
                Words::Replay
            } else {
                Words::Usage
            }
        }
        [word, _segment] => {
            if is_same(word.as_slice(), b"reindex") {
                Words::Reindex
            } else {
                Words::Usage
            }
        }
        [word, _segment, _index] => {
            if is_same(word.as_slice(), b"inspect") {
                Words::Inspect
            } else {
                Words::Usage
            }
        }
        _ => Words::Usage,
    }
}

/// The line that tells which words there are, with its line feed.
pub fn usage_line() -> &'static [u8]
    ensures { result.now ≡ usage }
{
    b"usage: streamd replay [M] | load N | inspect SEGMENT INDEX | serve | reindex SEGMENT\n"
}

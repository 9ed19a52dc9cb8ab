//! The words of the command line.

ghost use Rattle.std.specs.Prelude.{◌∷◌, [], ◌↔◌, IsTrue, codes};
ghost use Rattle.std.specs.Fmt.{decimal};
ghost use Rattle.chunk_format.specs.Tags.{IsName};
ghost use Rattle.client_program.specs.Words.{ReadsDeed, ReadsWords};

use frame_wire::Octets;
use script_text::{is_same, read_number};

/// What is to be done with a stream. A publisher's name has 1 to 255 bytes.
#[derive(Clone, Copy, Debug)]
pub enum Act<'a> {
    /// The stream is made.
    Create,
    /// Each line of the input is published under a name, the first line under the id 1.
    Publish { name: &'a [u8] },
    /// Each line of the input is published under a name, the first line under the id behind this one.
    Resume { name: &'a [u8], from: u64 },
    /// So many entries are read, from an offset on.
    Consume { offset: u64, count: u64 },
    /// The greatest confirmed id of a name is asked for.
    Query { name: &'a [u8] },
}

/// What the words behind the program's name ask for: the server's address, the stream's name of 1 to 255 bytes, and what
/// is to be done with the stream.
#[derive(Clone, Copy, Debug)]
pub struct ClientWords<'a> {
    pub address: &'a [u8],
    pub stream: &'a [u8],
    pub act: Act<'a>,
}

/// Whether a word is a name, of 1 to 255 bytes.
fn is_name(word: &[u8]) -> bool
    ensures { IsTrue result ↔ IsName word.now }
{
    !word.is_empty() && word.len() < 256
}

/// `create`.
fn act_alone(word: &[u8]) -> Option<Act<'static>>
    ensures { ReadsDeed word.now [] result }
{
    if is_same(word, b"create") {
        return Some(Act::Create);
    }
    None
}

/// `publish` or `query`, and a name.
fn act_named<'a>(word: &[u8], name: &'a [u8]) -> Option<Act<'a>>
    ensures { ReadsDeed word.now (name.now ∷ []) result }
{
    if !is_name(name) {
        return None;
    }
    if is_same(word, b"publish") {
        return Some(Act::Publish { name });
    }
    if is_same(word, b"query") {
        return Some(Act::Query { name });
    }
    None
}

/// Lines are published on behind an id.
fn resume_from<'a>(name: &'a [u8], from: u64) -> Option<Act<'a>>
    ensures { ReadsDeed (codes "resume") (name.now ∷ decimal from ∷ []) result }
{
    if !is_name(name) {
        return None;
    }
    Some(Act::Resume { name, from })
}

/// So many entries are read.
fn consume_count(offset: &[u8], count: u64) -> Option<Act<'static>>
    ensures { ReadsDeed (codes "consume") (offset.now ∷ decimal count ∷ []) result }
{
    match read_number(offset) {
        None => None,
        Some(offset) => Some(Act::Consume { offset, count }),
    }
}

/// `resume`, a name and a number, or `consume` and two numbers.
fn act_numbered<'a>(word: &[u8], first: &'a [u8], second: &[u8]) -> Option<Act<'a>>
    ensures { ReadsDeed word.now (first.now ∷ second.now ∷ []) result }
{
    let Some(number) = read_number(second) else {
        return None;
    };
    if is_same(word, b"resume") {
        return resume_from(first, number);
    }
    if is_same(word, b"consume") {
        return consume_count(first, number);
    }
    None
}

/// What the first word and those behind the stream's name ask for.
fn act_of<'a>(word: &[u8], rest: &'a [Octets]) -> Option<Act<'a>>
    ensures { ReadsDeed word.now rest.now result }
{
    match rest {
        [] => act_alone(word),
        [name] => act_named(word, name.as_slice()),
        [first, second] => act_numbered(word, first.as_slice(), second.as_slice()),
        _ => None,
    }
}

/// What the words behind the program's name ask for. `None` comes exactly where they ask for nothing that the program does.
pub fn client_words(words: &[Octets]) -> Option<ClientWords<'_>>
    ensures { ReadsWords words.now result }
{
    let [word, address, stream, rest @ ..] = words else {
        return None;
    };
    if !is_name(stream.as_slice()) {
        return None;
    }
    match act_of(word.as_slice(), rest) {
        None => None,
        Some(act) => Some(ClientWords {
            address: address.as_slice(),
            stream: stream.as_slice(),
            act,
        }),
    }
}

//! Names that tests give.

use frame_wire::Text;
use std::alloc::Global;

/// A name, or a key.
#[derive(Clone, Copy, Debug)]
pub enum Word {
    Null,
    Bytes(&'static [u8]),
    /// So many bytes.
    Long(u16),
}

fn copied(alloc: Global, bytes: &[u8]) -> Option<Text> {
    match Text::copy(alloc, bytes) {
        Ok(text) => Some(text),
        Err(_) => None,
    }
}

fn long(alloc: Global, len: u16) -> Option<Text> {
    match Vec::from_elem(alloc, b'n', len as usize) {
        Ok(bytes) => copied(alloc, &bytes),
        Err(_) => None,
    }
}

/// A text of a word. It takes memory.
pub fn text(alloc: Global, word: Word) -> Option<Text> {
    match word {
        Word::Null => Some(Text::null()),
        Word::Bytes(bytes) => copied(alloc, bytes),
        Word::Long(len) => long(alloc, len),
    }
}

/// A text of each word. It takes memory.
pub(crate) fn texts(alloc: Global, words: &[Word]) -> Option<Vec<Text>> {
    let mut out = Vec::new(alloc);
    for word in words {
        let text = text(alloc, *word)?;
        if out.push(text).is_err() {
            return None;
        }
    }
    Some(out)
}

fn is_same(text: &Text, want: &[u8]) -> bool {
    match text.get() {
        Some(bytes) => bytes == want,
        None => false,
    }
}

/// Whether these are the wanted names, in order.
pub(crate) fn are(found: &[Text], want: &[&[u8]]) -> bool {
    if found.len() != want.len() {
        return false;
    }
    for (text, want) in found.iter().zip(want) {
        if !is_same(text, want) {
            return false;
        }
    }
    true
}

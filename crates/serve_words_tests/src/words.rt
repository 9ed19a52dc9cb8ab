//! Words, and what they ask for.

use frame_wire::{Octets, Row};
use serve_words::{ServeWords, WordsFault, serve_words};
use std::alloc::{AllocError, Global};

/// It is asked for as told.
const DONE: i64 = 0;
/// Something else is asked for.
const OTHER: i64 = -1;
/// The words are wrong.
const USAGE: i64 = -2;
/// There was not enough memory.
const MEMORY: i64 = -3;

/// What is to be asked for: host, folder, user and password; port times 10, and the members, 0 for none.
type Want = (&'static str, &'static str, &'static str, &'static str, u64);

const GOOD: [(&[&str], Want); 5] = [
    (
        &["--listen", "localhost:5552", "--dir", "d"],
        ("localhost", "d", "guest", "guest", 55_520),
    ),
    (
        &[
            "--password",
            "p",
            "--members=7",
            "--dir=",
            "--user",
            "u",
            "--listen=h:0",
        ],
        ("h", "", "u", "p", 7),
    ),
    (
        &["--listen", "h:65535", "--dir", "d", "--members", "1"],
        ("h", "d", "guest", "guest", 655_351),
    ),
    (
        &["--listen", "[1]2:10", "--dir", "a b", "--members", "3"],
        ("[1]2", "a b", "guest", "guest", 103),
    ),
    (
        &["--listen", "h:1", "--dir", "d", "--members", "5"],
        ("h", "d", "guest", "guest", 15),
    ),
];

const WRONG: [&[&str]; 22] = [
    &[],
    &["--listen", "h:1"],
    &["--dir", "d"],
    &["--listen", "h:1", "--dir"],
    &["serve", "--listen", "h:1", "--dir", "d"],
    &["--listen", "h:1", "--dir", "d", "--dir", "d"],
    &[
        "--listen", "h:1", "--dir", "d", "--user", "a", "--user", "b",
    ],
    &["--listen", "h:1", "--dir", "d", "--help"],
    &["--listen", "h:1", "--dir", "d", "--version"],
    &["--listen", "h:1", "--dir", "d", "--port", "1"],
    &["--listen", "h:65536", "--dir", "d"],
    &["--listen", "h:01", "--dir", "d"],
    &["--listen", "h:+1", "--dir", "d"],
    &["--listen", "h:", "--dir", "d"],
    &["--listen", ":1", "--dir", "d"],
    &["--listen", "h", "--dir", "d"],
    &["--listen", "h:1:1", "--dir", "d"],
    &["--listen", "h:18446744073709551617", "--dir", "d"],
    &["--listen", "h:1", "--dir", "d", "--members", "2"],
    &["--listen", "h:1", "--dir", "d", "--members", "9"],
    &["--listen", "h:1", "--dir", "d", "--members", "03"],
    &["--listen", "h:1", "--dir", "d", "--members", ""],
];

// Adds a word.
fn add(alloc: Global, row: &mut Row<Octets>, word: &[u8]) -> Result<(), AllocError> {
    match row.push(Octets::copy(alloc, word)?) {
        Ok(()) => Ok(()),
        Err(_) => Err(AllocError),
    }
}

// What these words ask for.
fn asked(alloc: Global, words: &[&str]) -> Result<ServeWords, WordsFault> {
    let mut row = Row::new(alloc);
    for word in words {
        add(alloc, &mut row, word.as_bytes())?;
    }
    serve_words(alloc, row.as_slice())
}

// Whether a host is this one.
fn is_host(asked: &ServeWords, host: &str) -> bool {
    match asked.host.get() {
        None => false,
        Some(found) => found == host.as_bytes(),
    }
}

// Whether folder, user and password are these.
fn are_texts(asked: &ServeWords, folder: &str, user: &str, password: &str) -> bool {
    if asked.folder.as_slice() != folder.as_bytes() {
        return false;
    }
    if asked.user.as_slice() != user.as_bytes() {
        return false;
    }
    asked.password.as_slice() == password.as_bytes()
}

// The port times 10, and the members.
fn numbers(asked: &ServeWords) -> u64 {
    let members = u64::from(asked.members.unwrap_or(0));
    u64::from(asked.port).wrapping_mul(10).wrapping_add(members)
}

fn is_wanted(asked: &ServeWords, want: Want) -> bool {
    let (host, folder, user, password, number) = want;
    if !is_host(asked, host) {
        return false;
    }
    if !are_texts(asked, folder, user, password) {
        return false;
    }
    numbers(asked) == number
}

// What words tell, of which this is wanted.
fn told(alloc: Global, words: &[&str], want: Want) -> i64 {
    match asked(alloc, words) {
        Ok(asked) => { if is_wanted(&asked, want) { DONE } else { OTHER } }
        Err(WordsFault::Usage) => USAGE,
        Err(WordsFault::Memory) => MEMORY,
    }
}

#[test]
fn words_ask_for_what_they_say(rt: HostRuntime) {
    for at in 0..GOOD.len() {
        let (words, want) = GOOD[at];
        assert_eq!(rt; told(rt.alloc(), words, want), DONE, "words {at}");
    }
}

#[test]
fn other_words_are_wrong(rt: HostRuntime) {
    let (_, none) = GOOD[0];
    for at in 0..WRONG.len() {
        assert_eq!(rt; told(rt.alloc(), WRONG[at], none), USAGE, "words {at}");
    }
}

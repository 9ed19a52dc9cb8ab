//! What the words behind `serve` ask for.

ghost use Rattle.std.specs.Prelude.{◌≡◌, ◌≢◌, ◌↔◌, ◌<◌, ◌≤◌, ℕ, List, length, IsTrue, map, Option, Some, All, IfOk, MatchOption};
ghost use Rattle.std.specs.Option.{option_map};
ghost use Rattle.std.specs.Str.{IsUtf8};
ghost use Rattle.clap.specs.Words.{kind_of};
ghost use Rattle.clap.specs.declared.error.kind.ErrorKind.TheVariants.{OutOfMemory};
ghost use Rattle.serve_words.specs.Told.{values_of};
ghost use Rattle.serve_words.specs.Asked.{Wanted, AreTexts, IsAddress, IsGroupSize, IsCount, IsMembers, Gives, Takes, AskFor, wanted_of, words_of};

use crate::options::{Options, read_options};
use clap::Error as Refusal;
use clap::error::ErrorKind;
use frame_wire::{Octets, Text};
use script_text::{find_byte, read_number};
use std::alloc::{AllocError, Global};
use thiserror::Error;

/// What a server is to serve: the host of 1 to 255 bytes and the port from 0 to 65,535 that it listens at and tells its clients, the folder of its disks, the
/// user and the password that it lets in, and how many members each stream has: 1, 3, 5 or 7, or its usual number.
#[derive(Debug, Drop)]
pub struct ServeWords {
    pub host: Text,
    pub port: u32,
    pub folder: Octets,
    pub user: Octets,
    pub password: Octets,
    pub members: Option<u8>,
}

/// Why words ask for nothing that can be served.
#[derive(Clone, Copy, Debug, PartialEq, Eq, Error)]
pub enum WordsFault {
    /// The words aren't those of `serve`.
    #[error("the words are not those of serve")]
    Usage,
    /// Memory ran out.
    #[error("memory ran out")]
    Memory,
}

impl From<AllocError> for WordsFault {
    ghost use Rattle.std.specs.Prelude.{◌≡◌};
    ghost use Rattle.serve_words.specs.declared.words.WordsFault.TheVariants as told;

    ghost from_gives = { λ _ fault. fault ≡ told.Memory };

    fn from(_: AllocError) -> WordsFault {
        WordsFault::Memory
    }
}

/// The words as texts. `Usage` comes only where one isn't UTF-8.
fn read_texts<'a>(alloc: Global, words: &'a [Octets]) -> Result<Vec<&'a str>, WordsFault>
    ensures ok { IfOk result (λ texts. AreTexts words.now (map (λ t. t.now) texts.items)) }
    ensures usage { result ≡ Err WordsFault.Usage → ¬ (All IsUtf8 words.now) }
{
    let mut texts = Vec::with_capacity(alloc, words.len())?;
    for word in words {
        let Ok(text) = str::from_utf8(word.as_slice()) else {
            return Err(WordsFault::Usage);
        };
        match texts.push(text) {
            Ok(()) => {}
            Err(_) => return Err(WordsFault::Memory),
        }
    }
    Ok(texts)
}

/// What a refusal of the command comes to.
fn refused(refusal: &Refusal) -> WordsFault
    ensures { (result ≡ WordsFault.Usage) ↔ (kind_of refusal.now ≢ OutOfMemory) }
{
    match refusal.kind() {
        ErrorKind::OutOfMemory => WordsFault::Memory,
        _ => WordsFault::Usage,
    }
}

/// Whether a host may have so many bytes.
fn is_length_of_host(len: usize) -> bool
    ensures { IsTrue result ↔ ((1 ≤ len) × (len ≤ 255)) }
{
    0 < len && len < 256
}

/// Whether a number is a port.
fn is_port(number: u64) -> bool
    ensures { IsTrue result ↔ number ≤ 65535 }
{
    number < 65_536
}

/// Host and port of an address: 1 to 255 bytes without a colon, a colon, and a number up to 65,535.
fn read_address(address: &[u8]) -> Option<(&[u8], u32)>
    ensures { MatchOption result ((host : List ℕ) (port : ℕ) → IsAddress address.now host port → ⊥) (λ p. IsAddress address.now p.0.now p.1) }
{
    let Some(colon) = find_byte(address, b':') else {
        return None;
    };
    let Some(port) = read_number(&address[colon + 1..]) else {
        return None;
    };
    if !is_length_of_host(colon) {
        return None;
    }
    if !is_port(port) {
        return None;
    }
    Some((&address[..colon], port as u32))
}

/// Whether a stream may have so many members.
fn is_group_size(number: u64) -> bool
    ensures { IsTrue result ↔ IsGroupSize number }
{
    number == 1 || number == 3 || number == 5 || number == 7
}

/// How many members a stream is to have: 1, 3, 5 or 7.
fn read_count(word: &[u8]) -> Option<u8>
    ensures { MatchOption result ((count : ℕ) → IsCount word.now count → ⊥) (λ count. IsCount word.now count) }
{
    let Some(number) = read_number(word) else {
        return None;
    };
    if !is_group_size(number) {
        return None;
    }
    Some(number as u8)
}

/// The number of members, where there is a word for it.
fn read_members(word: Option<&str>) -> Option<Option<u8>>
    ensures { MatchOption result ((members : Option ℕ) → IsMembers (option_map (λ s. s.now) word.entry) members → ⊥) (λ members. IsMembers (option_map (λ s. s.now) word.entry) members) }
{
    match word {
        None => Some(None),
        Some(word) => match read_count(word.as_bytes()) {
            None => None,
            Some(count) => Some(Some(count)),
        },
    }
}

/// What is asked for, in the words' own bytes.
#[derive(Clone, Copy, Debug)]
pub struct Asked<'a> {
    pub host: &'a [u8],
    pub port: u32,
    pub folder: &'a str,
    pub user: &'a str,
    pub password: &'a str,
    pub members: Option<u8>,
}

/// What the options' values ask for.
fn read_asked<'a>(options: &Options<'a>) -> Option<Asked<'a>>
    ensures { MatchOption result ((w : Wanted) → Gives (values_of options.now) w → ⊥) (λ asked. Gives (values_of options.now) (wanted_of asked)) }
{
    let Some(listen) = options.listen else {
        return None;
    };
    let Some(folder) = options.dir else {
        return None;
    };
    let Some(user) = options.user else {
        return None;
    };
    let Some(password) = options.password else {
        return None;
    };
    let Some((host, port)) = read_address(listen.as_bytes()) else {
        return None;
    };
    let Some(members) = read_members(options.members) else {
        return None;
    };
    Some(Asked {
        host,
        port,
        folder,
        user,
        password,
        members,
    })
}

/// A copy of a host.
fn copy_host(alloc: Global, host: &[u8]) -> Result<Text, AllocError>
    requires { length host.now < 256 }
    ensures { IfOk result (λ text. text ≡ Some host.now) }
{
    match Text::copy(alloc, host) {
        Ok(text) => Ok(text),
        Err(_) => Err(AllocError),
    }
}

/// A copy of what is asked for.
fn copy_asked(alloc: Global, asked: Asked<'_>) -> Result<ServeWords, AllocError>
    requires { length asked.host.now < 256 }
    ensures { IfOk result (λ words. words ≡ words_of (wanted_of asked.entry)) }
{
    Ok(ServeWords {
        host: copy_host(alloc, asked.host)?,
        port: asked.port,
        folder: Octets::copy(alloc, asked.folder.as_bytes())?,
        user: Octets::copy(alloc, asked.user.as_bytes())?,
        password: Octets::copy(alloc, asked.password.as_bytes())?,
        members: asked.members,
    })
}

/// What texts ask for, that are read by the command.
fn read_words(alloc: Global, texts: &[&str]) -> Result<ServeWords, WordsFault>
    ensures ok { IfOk result (λ asked. Takes (map (λ w. w.now) texts.now) asked) }
    ensures usage { result ≡ Err WordsFault.Usage → (asked : ServeWords) → Takes (map (λ w. w.now) texts.now) asked → ⊥ }
{
    let options = match read_options(alloc, texts) {
        Ok(options) => options,
        Err(refusal) => return Err(refused(&refusal)),
    };
    let Some(asked) = read_asked(&options) else {
        return Err(WordsFault::Usage);
    };
    Ok(copy_asked(alloc, asked)?)
}

/// What the words behind `serve` ask for: `--listen HOST:PORT` and `--dir FOLDER`, and where they are wanted `--user NAME`, `--password WORD`
/// and `--members N`, in any order, each once. User and password are `guest` where they aren't told. `Usage` comes only where a word
/// isn't UTF-8, where the command that defines the options refuses the words, where the address isn't a host of 1 to 255 bytes without a colon, a colon, and
/// a number up to 65,535, or where the members aren't 1, 3, 5 or 7; and such words never have another answer, but for want of memory.
pub fn serve_words(alloc: Global, words: &[Octets]) -> Result<ServeWords, WordsFault>
    ensures ok { IfOk result (λ asked. AskFor words.now asked) }
    ensures usage { result ≡ Err WordsFault.Usage → (asked : ServeWords) → AskFor words.now asked → ⊥ }
{
    let texts = read_texts(alloc, words)?;
    read_words(alloc, texts.as_slice())
}

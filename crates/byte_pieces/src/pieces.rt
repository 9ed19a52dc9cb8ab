ghost use Rattle.std.specs.Prelude.{◌≡◌, ◌+◌, ◌-◌, ◌≤◌, ◌<◌, ◌^◌, ◌*◌, ◌++◌, [], List, ℕ, length, take, drop, min, IfOk, OnOk, OnErr};
ghost use Rattle.byte_pieces.specs.Over.{over};
ghost use Rattle.byte_pieces.specs.Joined.{joined, all_bytes, AllFull, InPieces};
ghost use Rattle.byte_pieces.specs.Laid.{lay};

use std::alloc::{AllocError, Global};
use std::marker::Model;
use std::mem;

/// The bytes of a piece, 1 MiB.
const PIECE: usize = 1_048_576;

// Puts bytes over those of a piece from a place on, as far as it goes, and says how many.
fn lay_part(piece: &mut [u8], skip: usize, bytes: &[u8]) -> usize
    ensures count { result ≡ min (length bytes.now) (length piece.old - skip) }
    ensures laid { piece.new ≡ lay piece.old skip bytes.now }
{
    if skip >= piece.len() {
        return 0;
    }
    let count = bytes.len().min(piece.len() - skip);
    piece[skip..skip + count].copy_from_slice(&bytes[..count]);
    count
}

// Puts bytes over those that are there, and says how many.
fn lay_pieces(pieces: &mut [Vec<u8>], place: usize, bytes: &[u8]) -> usize
    ensures count { result ≡ min (length bytes.now) (length (joined pieces.old) - place) }
    ensures laid { joined pieces.new ≡ lay (joined pieces.old) place bytes.now }
    ensures full { AllFull pieces.old → AllFull pieces.new }
{
    let mut skip = place;
    let mut done = 0;
    for piece in pieces.iter_mut() {
        done += lay_part(piece, skip, &bytes[done..]);
        skip = skip.saturating_sub(piece.len());
    }
    done
}

// Fills a buffer from a piece's place on, as far as the piece goes, and says how many bytes.
fn read_part(piece: &[u8], skip: usize, buf: &mut [u8]) -> usize
    ensures count { result ≡ min (length buf.old) (length piece.now - skip) }
    ensures read { buf.new ≡ take result (drop skip piece.now) ++ drop result buf.old }
{
    if skip >= piece.len() {
        return 0;
    }
    let count = buf.len().min(piece.len() - skip);
    buf[..count].copy_from_slice(&piece[skip..skip + count]);
    count
}

// Adds a new piece where the last one is full.
fn make_room(alloc: Global, full: &mut Vec<Vec<u8>>, last: &mut Vec<u8>) -> Result<(), AllocError>
    ensures room { OnOk result (length last.new.items < 1048576) }
    ensures same { all_bytes full.new.items last.new.items ≡ all_bytes full.old.items last.old.items }
    ensures pieces { InPieces full.old.items last.old.items → InPieces full.new.items last.new.items }
{
    if last.len() < PIECE {
        return Ok(());
    }
    let piece = mem::replace(last, Vec::new(alloc));
    if let Err(failed) = full.push(piece) {
        *last = failed.value;
        return Err(AllocError);
    }
    Ok(())
}

// Adds some bytes at the end, and says how many.
fn append_some(
    alloc: Global,
    full: &mut Vec<Vec<u8>>,
    last: &mut Vec<u8>,
    bytes: &[u8],
) -> Result<usize, AllocError>
    requires { 0 < length bytes.now }
    ensures ok { IfOk result (λ n. (0 < n) × (n ≤ length bytes.now) × (all_bytes full.new.items last.new.items ≡ all_bytes full.old.items last.old.items ++ take n bytes.now)) }
    ensures err { OnErr result (all_bytes full.new.items last.new.items ≡ all_bytes full.old.items last.old.items) }
    ensures pieces { InPieces full.old.items last.old.items → InPieces full.new.items last.new.items }
{
    make_room(alloc, full, last)?;
    let count = bytes.len().min(PIECE - last.len());
    last.extend_from_slice(&bytes[..count])?;
    Ok(count)
}

// Adds bytes at the end; where memory runs out, the first of them.
fn append_bytes(
    alloc: Global,
    full: &mut Vec<Vec<u8>>,
    last: &mut Vec<u8>,
    bytes: &[u8],
) -> Result<(), AllocError>
    ensures ok { OnOk result (all_bytes full.new.items last.new.items ≡ all_bytes full.old.items last.old.items ++ bytes.now) }
    ensures err { OnErr result ((n : ℕ) × (n ≤ length bytes.now) × (all_bytes full.new.items last.new.items ≡ all_bytes full.old.items last.old.items ++ take n bytes.now)) }
    ensures pieces { InPieces full.old.items last.old.items → InPieces full.new.items last.new.items }
{
    let mut done = 0;
    while done < bytes.len() {
        let count = append_some(alloc, full, last, &bytes[done..])?;
        done += count;
    }
    Ok(())
}

// How many bytes the whole pieces have.
fn bytes_before(full: &[Vec<u8>]) -> usize
    requires { length (joined full.now) < 2 ^ 64 }
    ensures { result ≡ length (joined full.now) }
{
    let mut before = 0;
    for piece in full {
        before += piece.len();
    }
    before
}

// Keeps the first bytes alone.
fn cut_bytes(full: &mut Vec<Vec<u8>>, last: &mut Vec<u8>, size: usize)
    requires { length (all_bytes full.old.items last.old.items) < 2 ^ 64 }
    ensures cut { all_bytes full.new.items last.new.items ≡ take size (all_bytes full.old.items last.old.items) }
    ensures pieces { InPieces full.old.items last.old.items → InPieces full.new.items last.new.items }
{
    let mut before = bytes_before(full);
    while size < before {
        let Some(piece) = full.pop() else {
            break;
        };
        before -= piece.len();
        *last = piece;
    }
    last.truncate(size - before);
}

// Fills a buffer from a place on, as far as the pieces go, and says how many bytes.
fn read_pieces(pieces: &[Vec<u8>], place: usize, buf: &mut [u8]) -> usize
    ensures count { result ≡ min (length buf.old) (length (joined pieces.now) - place) }
    ensures read { take result buf.new ≡ take result (drop place (joined pieces.now)) }
{
    let mut skip = place;
    let mut done = 0;
    for piece in pieces {
        done += read_part(piece, skip, &mut buf[done..]);
        skip = skip.saturating_sub(piece.len());
    }
    done
}

// Fills a buffer from a place on.
fn read_bytes(full: &[Vec<u8>], last: &[u8], place: usize, buf: &mut [u8])
    requires small { length (all_bytes full.now last.now) < 2 ^ 64 }
    requires within { place + length buf.old ≤ length (all_bytes full.now last.now) }
    ensures { buf.new ≡ take (length buf.old) (drop place (all_bytes full.now last.now)) }
{
    let done = read_pieces(full, place, buf);
    let skip = place.saturating_sub(bytes_before(full));
    read_part(last, skip, &mut buf[done..]);
}

// Puts bytes over those that are there.
fn lay_bytes(full: &mut Vec<Vec<u8>>, last: &mut Vec<u8>, place: usize, bytes: &[u8])
    requires small { length (all_bytes full.old.items last.old.items) < 2 ^ 64 }
    requires within { place + length bytes.now ≤ length (all_bytes full.old.items last.old.items) }
    ensures laid { all_bytes full.new.items last.new.items ≡ over (all_bytes full.old.items last.old.items) place bytes.now }
    ensures pieces { InPieces full.old.items last.old.items → InPieces full.new.items last.new.items }
{
    let done = lay_pieces(full, place, bytes);
    let skip = place.saturating_sub(bytes_before(full));
    lay_part(last, skip, &bytes[done..]);
}

// Writes over what is there, and past the end, or does nothing.
fn put_bytes(
    alloc: Global,
    full: &mut Vec<Vec<u8>>,
    last: &mut Vec<u8>,
    len: usize,
    place: usize,
    bytes: &[u8],
) -> Result<(), AllocError>
    requires len { len ≡ length (all_bytes full.old.items last.old.items) }
    requires within { place ≤ len }
    requires small { place + length bytes.now < 2 ^ 63 }
    requires now_small { len < 2 ^ 63 }
    ensures ok { OnOk result (all_bytes full.new.items last.new.items ≡ over (all_bytes full.old.items last.old.items) place bytes.now) }
    ensures err { OnErr result (all_bytes full.new.items last.new.items ≡ all_bytes full.old.items last.old.items) }
    ensures pieces { InPieces full.old.items last.old.items → InPieces full.new.items last.new.items }
{
    let inside = (len - place).min(bytes.len());
    if let Err(fault) = append_bytes(alloc, full, last, &bytes[inside..]) {
        cut_bytes(full, last, len);
        return Err(fault);
    }
    lay_bytes(full, last, place, &bytes[..inside]);
    Ok(())
}

/// A list of bytes, kept in pieces of 1 MiB, so that none moves when it grows.
#[derive(Debug, Drop)]
pub struct Pieces {
    alloc: Global,
    full: Vec<Vec<u8>>,
    last: Vec<u8>,
    len: usize,
}

impl Model for Pieces {
    ghost use Rattle.std.specs.Prelude.{◌≡◌, ◌<◌, ◌^◌, List, ℕ, length};
    ghost use Rattle.byte_pieces.specs.Joined.{all_bytes, InPieces};

    ghost Value = { List ℕ };

    ghost view = { λ p. all_bytes p.full.items p.last.items };

    ghost invariant = { λ p. (p.len ≡ length (all_bytes p.full.items p.last.items)) × (p.len < 2 ^ 63) × InPieces p.full.items p.last.items };
}

impl Pieces {
    /// No bytes. It takes no memory.
    pub fn new(alloc: Global) -> Pieces
        ensures { result ≡ [] }
    {
        Pieces {
            alloc,
            full: Vec::new(alloc),
            last: Vec::new(alloc),
            len: 0,
        }
    }

    pub fn len(&self) -> usize
        ensures len { result ≡ length self.now }
        ensures small { result < 2 ^ 63 }
    {
        self.len
    }

    /// The number of pieces. Each but the last one has 1 MiB, and that one has no more.
    pub fn pieces(&self) -> usize
        ensures full { (result - 1) * 1048576 ≤ length self.now }
        ensures enough { length self.now ≤ result * 1048576 }
    {
        self.full.len() + 1
    }

    /// Fills `buf` with the bytes from a place on.
    pub fn read(&self, place: usize, buf: &mut [u8])
        requires { place + length buf.old ≤ length self.now }
        ensures { buf.new ≡ take (length buf.old) (drop place self.now) }
    {
        read_bytes(&self.full, &self.last, place, buf);
    }

    /// Writes over what is there, and past the end. A place past the end is taken for the end.
    /// Where memory runs out, or the bytes would be more than 9,223,372,036,854,775,807, nothing changes.
    pub fn put(&mut self, place: usize, bytes: &[u8]) -> Result<(), AllocError>
        ensures ok { OnOk result (self.new ≡ over self.old place bytes.now) }
        ensures err { OnErr result (self.new ≡ self.old) }
    {
        let place = place.min(self.len);
        let end = match place.checked_add(bytes.len()) {
            Some(end) if end < 1 << 63 => end,
            _ => return Err(AllocError),
        };
        put_bytes(
            self.alloc,
            &mut self.full,
            &mut self.last,
            self.len,
            place,
            bytes,
        )?;
        self.len = self.len.max(end);
        Ok(())
    }

    /// Keeps the first bytes alone.
    pub fn cut(&mut self, size: usize)
        ensures { self.new ≡ take size self.old }
    {
        if size < self.len {
            cut_bytes(&mut self.full, &mut self.last, size);
            self.len = size;
        }
    }

    /// The same bytes once more.
    pub fn copy(&self) -> Result<Pieces, AllocError>
        ensures { IfOk result (λ p. p ≡ self.now) }
    {
        let mut copied = copy_pieces(self.alloc, &self.full)?;
        let end = copied.len();
        copied.put(end, &self.last)?;
        Ok(copied)
    }
}

fn copy_pieces(alloc: Global, pieces: &[Vec<u8>]) -> Result<Pieces, AllocError>
    ensures { IfOk result (λ p. p ≡ joined pieces.now) }
{
    let mut copied = Pieces::new(alloc);
    for piece in pieces {
        let end = copied.len();
        copied.put(end, piece)?;
    }
    Ok(copied)
}

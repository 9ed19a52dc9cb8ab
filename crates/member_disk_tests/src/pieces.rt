use byte_pieces::Pieces;
use std::alloc::{AllocError, Global};
use std::test::Fail;

// The bytes of a piece.
const PIECE: usize = 1_048_576;

// So many bytes, the one at place n is n modulo 251.
fn counted(alloc: Global, len: usize) -> Result<Vec<u8>, AllocError> {
    let mut bytes = Vec::new(alloc);
    for n in 0..len {
        bytes.push((n % 251) as u8)?;
    }
    Ok(bytes)
}

fn read(pieces: &Pieces, place: usize, buf: &mut [u8]) -> bool {
    let Some(end) = place.checked_add(buf.len()) else {
        return false;
    };
    if pieces.len() < end {
        return false;
    }
    pieces.read(place, buf);
    true
}

// Whether the bytes around each border are those that were put.
fn has_borders(pieces: &Pieces, places: &[usize]) -> bool {
    for place in places {
        let mut buf = [0u8; 4];
        if !read(pieces, *place, &mut buf) {
            return false;
        }
        for (i, byte) in buf.iter().enumerate() {
            if *byte as usize != place.wrapping_add(i) % 251 {
                return false;
            }
        }
    }
    true
}

#[test]
fn bytes_cross_the_borders_of_pieces(rt: HostRuntime) -> Result<(), Fail> {
    let bytes = counted(rt.alloc(), 2 * PIECE + 3)?;
    for step in [PIECE - 1, PIECE, PIECE + 1, 2 * PIECE + 3] {
        let mut pieces = Pieces::new(rt.alloc());
        for part in bytes.chunks(step) {
            let end = pieces.len();
            pieces.put(end, part)?;
        }
        assert_eq!(rt; pieces.len(), 2_097_155);
        let places = [0, 1_048_572, 1_048_574, 1_048_576, 2_097_150, 2_097_151];
        assert!(rt; has_borders(&pieces, &places), "in steps of {step}");
    }
    Ok(())
}

#[test]
fn bytes_are_cut_at_the_borders_of_pieces(rt: HostRuntime) -> Result<(), Fail> {
    let bytes = counted(rt.alloc(), 2 * PIECE)?;
    for size in [0, 1, PIECE - 1, PIECE, PIECE + 1, 2 * PIECE] {
        let mut pieces = Pieces::new(rt.alloc());
        pieces.put(0, &bytes)?;
        pieces.cut(size);
        assert_eq!(rt; pieces.len(), size);
        pieces.put(size, b"end")?;
        let copied = pieces.copy()?;
        let mut buf = [0u8; 3];
        assert!(rt; read(&copied, size, &mut buf));
        assert_eq!(rt; &buf, b"end", "behind {size}");
    }
    Ok(())
}

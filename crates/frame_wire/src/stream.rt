//! All frames of a stream, however it comes in pieces.

ghost use Rattle.std.specs.Prelude.{◌≡◌, ◌++◌, List, ℕ, IfOk};
ghost use Rattle.std.specs.List.{flat_map};
ghost use Rattle.frame_wire.specs.declared.stream.StreamEnd.{StreamEnd};
ghost use Rattle.frame_wire.specs.Cutting.{CutsStream};

use crate::cutter::{Cut, Cutter};
use crate::octets::Octets;
use crate::row::Row;
use std::alloc::{AllocError, Global};

/// What stands in a stream behind its frames.
#[derive(Clone, Copy, Debug, PartialEq, Eq)]
pub enum StreamEnd {
    /// Less than a whole frame, and no size above the greatest.
    Open,
    /// A size above the greatest.
    TooLarge { size: u32 },
}

/// The frames of a stream, and what stands behind them.
#[derive(Debug, Drop)]
pub struct CutStream {
    /// The bodies of the frames, in order.
    pub bodies: Row<Octets>,
    /// What stands behind the last of them.
    pub end: StreamEnd,
}

/// Cuts off all the whole frames at hand.
fn cut_frames(
    alloc: Global,
    cutter: &mut Cutter,
    out: &mut Row<Octets>,
) -> Result<StreamEnd, AllocError>
    ensures frames { IfOk result (λ end. (bodies : List (List ℕ)) × (out.new ≡ out.old ++ bodies) × CutsStream cutter.old.max cutter.old.rest bodies cutter.new.rest end) }
    ensures max { cutter.new.max ≡ cutter.old.max }
{
    'frames: loop {
        match cutter.next() {
            Cut::Frame => {
                let body = Octets::copy(alloc, cutter.body())?;
                let Ok(()) = out.push(body) else {
                    return Err(AllocError);
                };
            }
            Cut::More => return Ok(StreamEnd::Open),
            Cut::TooLarge { size } => return Ok(StreamEnd::TooLarge { size }),
        }
    }
}

/// The frames of a stream that comes in these pieces, each of at most `max` bytes. It takes memory for them.
pub fn frames_of(alloc: Global, max: u32, pieces: &[Octets]) -> Result<CutStream, AllocError>
    // The pieces joined are these frames, and a rest that ends so.
    ensures frames { IfOk result (λ cut. (rest : List ℕ) × CutsStream max (flat_map (λ piece. piece) pieces.now) cut.bodies rest cut.end) }
    // No other frames and no other end are, so the way of cutting it into pieces does not count.
    ensures only { IfOk result (λ cut. (bodies : List (List ℕ)) (rest : List ℕ) (end : StreamEnd) → CutsStream max (flat_map (λ piece. piece) pieces.now) bodies rest end → (bodies ≡ cut.bodies) × (end ≡ cut.end)) }
{
    let mut cutter = Cutter::new(alloc, max);
    let mut bodies = Row::new(alloc);
    for piece in pieces {
        cutter.feed(piece.as_slice())?;
        let end = cut_frames(alloc, &mut cutter, &mut bodies)?;
        if let StreamEnd::TooLarge { .. } = end {
            return Ok(CutStream { bodies, end });
        }
    }
    Ok(CutStream {
        bodies,
        end: StreamEnd::Open,
    })
}

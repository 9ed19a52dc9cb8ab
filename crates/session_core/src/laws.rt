//! What holds of what a session answers.

ghost use Rattle.session_core.specs.Joins.{PiecesJoin, FeedsJoin};

use hub_terms::Hub;

/// In whatever pieces the bytes come at one moment, the commands of the joined pieces are answered one after another, and
/// what is said is the same. It does nothing.
pub fn pieces_join<H: Hub>()
    ensures { PiecesJoin H.meaning }
{}

/// In whatever pieces the bytes come, each at its moment, feeds give the frames of one run: each command of the joined pieces
/// is answered with the moment of the piece that completed it. Between two feeds the hub may go on. It does nothing.
pub fn feeds_join<H: Hub>()
    ensures { FeedsJoin H.meaning }
{}

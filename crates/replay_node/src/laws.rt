//! What holds of the rules of a node, named by contracts.

ghost use Rattle.replay_node.specs.Rows.{PublishRow, ConfirmRow};
ghost use Rattle.replay_node.specs.Laws.{GivesJoin, GivesOnce, PiecesCut};

/// Bytes that are given in two lines, one directly after the other, may be given in one, with the same outputs and the
/// same node behind it; and given bytes give one thing only. It does nothing.
pub fn given_bytes_join()
    ensures join { GivesJoin }
    ensures once { GivesOnce }
{}

/// The pieces of an offer's entries are its entries, each piece of 4,096 but the last. It does nothing.
pub fn pieces_are_cut()
    ensures { PiecesCut }
{}

/// The rows of Publish and PublishConfirm among the data commands are the bytes that are written out here: key, version,
/// publisher, and a count with so many items. It does nothing.
pub fn rows_are_written_out()
    ensures publish { PublishRow }
    ensures confirm { ConfirmRow }
{}

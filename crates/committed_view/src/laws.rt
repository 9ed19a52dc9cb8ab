//! What follows from the clauses of a pass's calls, whatever their order.
ghost use Rattle.std.specs.Prelude.{List, [], ◌∷◌, ◌++◌};
ghost use Rattle.committed_view.specs.Published.{Chunks, Known, Act, Polled, Run, GoesOnFromAll};

/// Whatever a pass did before, in any order: the list that it polls begins with each list that it polled, and with each
/// list that it learnt by a note. It does nothing.
pub fn polls_go_on()
    ensures { (old new : Known) (acts : List Act) (list : Chunks) → Run old (acts ++ Polled list ∷ []) new → GoesOnFromAll acts list }
{}

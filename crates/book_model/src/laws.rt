//! What holds of a keeper.
ghost use Rattle.book_model.specs.Laws.{Keeping};

/// What always holds of a keeper, whatever it is told: a theorem.
#[tactic(auto, using(crate::proofs::Orders::keeps))]
pub fn keeping()
    ensures { Keeping }
{}

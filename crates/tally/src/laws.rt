//! What holds of a tally's step. It stands apart from the struct, whose invariant could not be stated beside laws that name it.
ghost use Rattle.tally.specs.Laws.{KeepsOrder, AddsToOne, CapsWorked};

/// What holds of every step: a tally stays in order, an addition changes the volume of its index alone or counts a miss, and sums stop at their tops. A theorem.
pub fn ordered()
    ensures order { KeepsOrder }
    ensures adds { AddsToOne }
    ensures worked { CapsWorked }
{}

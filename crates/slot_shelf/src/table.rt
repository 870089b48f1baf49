//! Sixteen items, of which one is lent at a time.
ghost use Rattle.std.specs.Prelude.{◌≡◌, ◌<◌, slice_index_or, slice_set};
ghost use Rattle.std.specs.Borrow.{sem, follows};
ghost use Rattle.slot_shelf.specs.contracts.table.Table.{the_row};
ghost use Rattle.slot_shelf.specs.declared.table.TheConstants.{SLOTS};

/// How many items a table has.
pub const SLOTS: usize = 16;

/// The place of one item of a table.
#[derive(Clone, Copy)]
pub struct Place {
    pub index: usize,
    ghost within: { index < SLOTS },
}

/// Sixteen items.
#[derive(Drop)]
pub struct Table<T> {
    pub items: [T; SLOTS],
}

impl<T> Table<T> {
    /// Lends one item. The table ends with what the borrower leaves in its place, and is else as it was.
    // Kept as an index, not a `Place`: the proof is by hand and follows each step of the code, which the field would add to.
    pub(crate) fn lend(&mut self, i: usize) -> &mut T
        requires { i < SLOTS }
        ensures* follows { sem 𝓛 (follows (the_row T.row) T.row self.entry.ghost_name result.ghost_name (λ w. record { items = slice_set self.old.items i w })) }
        ensures value { result.now ≡ slice_index_or self.old.items i result.now }
    {
        &mut self.items[i]
    }
}

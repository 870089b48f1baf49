//! How much memory a setup takes.
ghost use Rattle.std.specs.Prelude.{◌≡◌, is_ok, IfOk};
ghost use Rattle.any_shelf.specs.Either.{any_store};
ghost use Rattle.session.specs.Sizes.{region_bytes, shelf_fits, shelf_store, sizes_of};

use any_shelf::AnyShelf;
use books::{MOST_BOOKS, MOST_DEPTH};
use chain_shelf::{MOST_RECORDS, RECORD, RegionFault};
use script::{Setup, ShelfKind};
use std::alloc::{AllocError, Global};

/// The counts of books, of levels of a side of them all, and of rows.
#[derive(Clone, Copy, PartialEq, Eq, Debug)]
pub struct Sizes {
    pub books: usize,
    pub levels: usize,
    pub depth: usize,
    pub rows: usize,
}

// The bytes of a region of so many records. More records than a region may have come to one more than that, so that no more memory is asked for.
fn region_bytes(records: u32) -> usize
    ensures { result ≡ region_bytes records }
{
    (records as usize).min(MOST_RECORDS + 1) * RECORD
}

/// The shelf of a setup, or the refusal of a region that is too small or too large.
// Kept as a result in a result: a refusal is answered, and where memory runs out the program ends.
pub fn open_shelf(
    alloc: Global,
    kind: ShelfKind,
) -> Result<Result<AnyShelf, RegionFault>, AllocError>
    ensures when { IfOk result (λ s. is_ok s ≡ shelf_fits kind) }
    ensures means { IfOk result (λ s. IfOk s (λ shelf. any_store shelf ≡ shelf_store kind)) }
{
    match kind {
        ShelfKind::Slots => Ok(Ok(AnyShelf::slots())),
        ShelfKind::Chain { records } => {
            let bytes = vec![in alloc; 0; region_bytes(records)]?;
            Ok(AnyShelf::chain(bytes))
        }
    }
}

// Kept with sizes of 0 for what no keeper has, not a `Result`: a public function that can't fail may not begin to, and the keeper's own test refuses such tables.
/// The sizes of the tables of a setup. Where no keeper has such tables, all sizes are 0, which no keeper has either.
pub fn table_sizes(setup: Setup) -> Sizes
    ensures { result ≡ sizes_of setup }
{
    let books = setup.books as usize;
    let depth = setup.depth as usize;
    if books <= MOST_BOOKS && depth <= MOST_DEPTH {
        Sizes {
            books,
            levels: books * depth,
            depth,
            rows: setup.rows.min(65_536) as usize,
        }
    } else {
        Sizes {
            books: 0,
            levels: 0,
            depth: 0,
            rows: 0,
        }
    }
}

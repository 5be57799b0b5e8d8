//! How workers share folds, and whether they share the items of one.
ghost use Rattle.std.specs.Prelude.{◌≡◌, ◌*◌, ◌<◌, ◌≤◌, true};
ghost use Rattle.apl_array.specs.declared.function.ScalarFunction.TheVariants.{Plus};
ghost use Rattle.apl_pool.specs.declared.kernel.TheConstants.{MOST_PLACES};
ghost use Rattle.apl_summary.specs.Functions.{has_summary};

use crate::layouts::Layout;
use crate::sums::TURN;
use apl_array::ScalarFunction;
use apl_pool::{Crew, MOST_PLACES, USUAL_PIECE};
use apl_summary::has_summary;

/// The most places whose items are shared by workers.
const FEW_PLACES: usize = 64;

/// Folds of so many items, and of fewer, have pieces of the usual length.
const LIGHT: usize = 8;

/// The fewest places of a piece of folds, unless fewer have items enough.
const FEWEST_PLACES: usize = 128;

/// So many items are enough for a piece, however few places have them.
const ENOUGH_ITEMS: usize = 1 << 18;

/// The fewest places of a piece where the items are no neighbours. In shorter pieces too little of each row would be read at a time.
pub(crate) const FEWEST_COLUMNS: usize = 512;

/// How many places are to be a piece of folds of some items, as `Kernel::piece` has it.
pub(crate) fn piece_of(items: usize) -> usize {
    let items = items.max(LIGHT);
    let fewest = (ENOUGH_ITEMS / items).max(1).min(FEWEST_PLACES);
    (USUAL_PIECE * LIGHT / items).max(fewest)
}

/// About how much work the folds of so many items at each of some places are, as `Kernel::work` has it: two items are folded in the time
/// of a function of two numbers.
pub(crate) fn work_of(places: usize, items: usize) -> usize {
    places.saturating_mul(items) / 2
}

impl Layout {
    /// How many places are to be a piece of an inner product, as `Kernel::piece` has it. Some sums of products are made several at once.
    pub(crate) fn piece(&self) -> usize {
        piece_of(self.items).max(TURN)
    }

    /// About how much work all its places are, as `Kernel::work` has it.
    pub(crate) fn work(&self) -> usize {
        work_of(self.count, self.items)
    }
}

/// How many times as much work is asked for where items are summarized, since a summary takes several times as long as a fold.
fn summary_factor(f: ScalarFunction) -> usize
    ensures { 0 < result }
{
    match f {
        ScalarFunction::Floor | ScalarFunction::Ceiling => 2,
        ScalarFunction::Times => 8,
        _ => 4,
    }
}

/// Whether workers share the items at some places, if all that is so much work. They do if there are few places, and all items but the last
/// are more than one worker's.
fn shares_work<W: Crew>(workers: &W, places: usize, items: usize, work: usize) -> bool
    requires most { items ≤ MOST_PLACES }
    ensures two { result ≡ true → 2 ≤ items }
    ensures all { result ≡ true → places * items ≤ MOST_PLACES }
{
    let few = places <= FEW_PLACES && places * items <= MOST_PLACES;
    few && items > 1 && workers.pool().is_shared(items - 1, work)
}

/// Whether there are so many workers that they are quicker by summaries of numbers than one of them by folds.
pub(crate) fn repays_summaries<W: Crew>(workers: &W, f: ScalarFunction) -> bool {
    workers.pool().workers() as usize >= summary_factor(f)
}

/// Whether there are fewer places than workers. Otherwise workers share the places.
fn are_fewer_than_workers<W: Crew>(workers: &W, places: usize) -> bool {
    places < workers.pool().workers() as usize
}

/// Whether workers share the items of folds at some places, by summaries of them.
pub(crate) fn shares_items<W: Crew>(
    workers: &W,
    f: ScalarFunction,
    places: usize,
    items: usize,
) -> bool
    requires most { items ≤ MOST_PLACES }
    ensures summary { result ≡ true → has_summary f ≡ true }
    ensures two { result ≡ true → 2 ≤ items }
    ensures all { result ≡ true → places * items ≤ MOST_PLACES }
{
    let work = work_of(places, items) / summary_factor(f);
    has_summary(f)
        && are_fewer_than_workers(workers, places)
        && shares_work(workers, places, items, work)
}

/// Whether workers share the items of folds at some places, by sums of them. These take no longer than the folds.
pub(crate) fn shares_sums<W: Crew>(
    workers: &W,
    f: ScalarFunction,
    places: usize,
    items: usize,
) -> bool
    requires most { items ≤ MOST_PLACES }
    ensures plus { result ≡ true → f ≡ Plus }
    ensures all { result ≡ true → places * items ≤ MOST_PLACES }
{
    matches!(f, ScalarFunction::Plus) && shares_work(workers, places, items, work_of(places, items))
}

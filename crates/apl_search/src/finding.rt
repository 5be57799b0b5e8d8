//! Where a number first is in a list, whose elements are found by numbers.
ghost use Rattle.std.specs.Prelude.{◌≡◌, ℤ, pos, ◌+◌, ◌<◌, ◌≤◌, ◌^◌, List, Ok, length, map, slice_index_or, IfOk};
ghost use Rattle.apl_pool.specs.declared.kernel.TheConstants.{MOST_PLACES};
ghost use Rattle.apl_pool.specs.Runs.{AreWritten};
ghost use Rattle.apl_search.specs.Finding.{ArePlaces};
ghost use Rattle.apl_search.specs.Keys.{keys_in};
ghost use Rattle.apl_search.specs.Ordering.{upwards};
ghost use Rattle.apl_search.specs.Sorting.{AreInOrder};
ghost use Rattle.apl_search.specs.Tables.{place_of};

use crate::keys::count_in;
use crate::replies::{Reply, write_run_replies};
use crate::sorting::{Keyed, Placed, in_order};
use crate::table::Table;
use apl_array::{Elements, with_elements};
use apl_pool::Crew;
use std::alloc::AllocError;

/// The first places of a list's numbers.
#[derive(Drop)]
pub(crate) enum Places {
    /// In a table, where the numbers span little.
    InTable(Table),
    /// Beside the numbers in their order.
    InOrder(Vec<Placed>),
}

/// The first place of a number, by halving.
fn place_in_order(placed: &[Placed], number: i64) -> usize
    ensures { (numbers : List ℤ) → AreInOrder upwards numbers placed.now → result ≡ place_of numbers number }
{
    let first = placed.partition_point(|p| p.value < number);
    let Some(found) = placed.get(first) else {
        return placed.len();
    };
    if found.value == number {
        found.place
    } else {
        placed.len()
    }
}

impl Places {
    /// The places of a list's numbers: in a table if these span less than `most`.
    fn new<T: Keyed, W: Crew>(workers: &W, elements: &[T], most: u64) -> Result<Places, AllocError>
        requires count { length elements.now ≤ MOST_PLACES }
        requires most { most < 2 ^ 34 }
        ensures { IfOk result (ArePlaces (map T.key elements.now)) }
    {
        if let Some(table) = Table::new(workers.alloc(), elements, most)? {
            return Ok(Places::InTable(table));
        }
        let placed = in_order(workers, elements)?;
        Ok(Places::InOrder(placed))
    }

    /// The places of elements' numbers, however the elements are held.
    fn of_elements<W: Crew>(
        workers: &W,
        elements: Elements<'_>,
        most: u64,
    ) -> Result<Places, AllocError>
        requires count { length (keys_in elements) ≤ MOST_PLACES }
        requires most { most < 2 ^ 34 }
        ensures { IfOk result (ArePlaces (keys_in elements.entry)) }
    {
        with_elements!(elements, list => Places::new(workers, list, most))
    }

    /// The first place of a number.
    #[inline(always)]
    fn first(&self, number: i64) -> usize
        ensures { (numbers : List ℤ) → ArePlaces numbers self.now → result ≡ place_of numbers number }
    {
        match self {
            Places::InTable(table) => table.entries().place(number),
            Places::InOrder(placed) => place_in_order(placed, number),
        }
    }
}

/// The most places of a table that is small, which is made sooner than its list is sorted.
const SMALL_TABLE: u64 = 1 << 22;

/// How many times as long as a look into a table halving takes, since each step of it reads another place of memory.
const HALVING: usize = 16;

/// A list whose elements are found by their numbers.
#[derive(Drop)]
pub(crate) struct Finder<'a> {
    elements: Elements<'a>,
    places: Places,
    ghost most: { length (keys_in elements) ≤ MOST_PLACES },
    ghost places_of: { ∥ ArePlaces (keys_in elements) places ∥₁ },
}

impl<'a> Finder<'a> {
    /// The list, in which so many elements are looked for. It gets a table if its numbers span less than four for each of its elements and
    /// one for each of those. For a small table they may span 64 for each of its elements.
    pub(crate) fn new<W: Crew>(
        workers: &W,
        elements: Elements<'a>,
        searched: usize,
    ) -> Result<Self, AllocError>
        requires count { length (keys_in elements) ≤ MOST_PLACES }
        requires searched { searched ≤ MOST_PLACES }
        ensures { IfOk result (λ s. s.elements ≡ elements.entry) }
    {
        let count = count_in(elements) as u64;
        let most = (4 * count + searched as u64).max((64 * count).min(SMALL_TABLE));
        let places = Places::of_elements(workers, elements, most)?;
        Ok(Finder { elements, places })
    }

    /// How many elements there are.
    pub(crate) fn count(&self) -> usize
        ensures count { result ≡ length (keys_in self.now.elements) }
        ensures most { result ≤ MOST_PLACES }
    {
        count_in(self.elements)
    }

    /// The first place of a number, or the count where there is none.
    #[inline(always)]
    pub(crate) fn place(&self, number: i64) -> usize
        ensures place { result ≡ place_of (keys_in self.now.elements) number }
        ensures most { result ≤ length (keys_in self.now.elements) }
    {
        self.places.first(number)
    }

    /// About how much work so many searches are, as `Kernel::work` has it.
    pub(crate) fn work(&self, searches: usize) -> usize {
        match self.places {
            Places::InTable(_) => searches,
            Places::InOrder(_) => searches.saturating_mul(HALVING),
        }
    }

    /// Writes what is answered of the elements from one place up to before another into the room for it. It answers the place at which it
    /// stopped: the last one if the places are in a table, else the first.
    #[inline(always)]
    pub(crate) fn write_replies<R: Reply>(
        &self,
        elements: Elements<'_>,
        from: usize,
        to: usize,
        reply: R,
        room: &mut [R::Value],
    ) -> usize
        requires order { from ≤ to }
        requires places { to ≤ length (keys_in elements) }
        requires room { from + length room.old ≡ to }
        ensures order { from ≤ result }
        ensures within { result ≤ to }
        ensures values { let numbers = keys_in self.now.elements in
            AreWritten (λ k. Ok (R.value reply (length numbers) (place_of numbers (slice_index_or (keys_in elements.entry) k (pos 0))))) from result room.new }
        ensures len { length room.new ≡ length room.old }
    {
        let Places::InTable(table) = &self.places else {
            return from;
        };
        write_run_replies(
            table.entries(),
            self.count(),
            elements,
            from,
            to,
            reply,
            room,
        );
        to
    }
}

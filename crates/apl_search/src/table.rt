//! The first places of a list's numbers in a table, where the numbers span little.
ghost use Rattle.std.specs.Prelude.{◌≡◌, ℕ, ℤ, pos, ◌+◌, ◌-◌, ◌<◌, ◌≤◌, ◌^◌, ◌+ℤ◌, ◌-ℤ◌, ◌≤ℤ◌, ◌<ℤ◌, List, All, length, map, IfOk, IfSome, slice_index_or};
ghost use Rattle.apl_pool.specs.declared.kernel.TheConstants.{MOST_PLACES};
ghost use Rattle.apl_search.specs.Tables.{place_of, IsNumberWithin, IsTable, ArePlacesFrom};

use crate::sorting::{Keyed, Upwards, ends};
use apl_pool::MOST_PLACES;
use std::alloc::{AllocError, Global};

/// The first place of each number from the least on. The last entry is of a number above all.
#[derive(Drop)]
pub(crate) struct Table {
    pub least: i64,
    pub places: Vec<u32>,
    ghost some: { 0 < length places.items },
    ghost most: { All (λ p. p ≤ MOST_PLACES) places.items },
}

/// How far a number is above a least one. It is past all numbers from there on if it is below.
#[inline(always)]
fn distance(least: i64, number: i64) -> u64
    ensures above { least ≤ℤ number → least +ℤ pos result ≡ number }
    ensures below { number <ℤ least → pos (2 ^ 63) ≤ℤ (least +ℤ pos result) }
{
    number.cast_unsigned().wrapping_sub(least.cast_unsigned())
}

/// How many places are written in a turn.
const TURN: usize = 4;

/// Writes the places of the `count` numbers before `end` at their entries, the last one first.
#[inline(always)]
fn write_places_before<T: Keyed>(
    least: i64,
    values: &[T],
    end: usize,
    count: usize,
    places: &mut [u32],
)
    requires most { length values.now ≤ MOST_PLACES }
    requires end { end ≤ length values.now }
    requires count { count ≤ end }
    requires within { All (IsNumberWithin least (length places.old)) (map T.key values.now) }
    requires later { ArePlacesFrom (map T.key values.now) least end places.old }
    ensures from { ArePlacesFrom (map T.key values.now) least (end - count) places.new }
    ensures len { length places.new ≡ length places.old }
{
    for k in 0..count {
        let place = end - 1 - k;
        let entry = distance(least, values[place].key()) as usize;
        places[entry] = place as u32;
    }
}

/// Writes the place of each number at its entry, from the last place to the first. So the first place of equal ones remains.
fn write_places<T: Keyed>(least: i64, values: &[T], places: &mut [u32])
    requires count { length values.now ≤ MOST_PLACES }
    requires within { All (IsNumberWithin least (length places.old)) (map T.key values.now) }
    requires none { All (λ p. p ≡ length values.now) places.old }
    ensures each { (k d : ℕ) → k < length places.new → slice_index_or places.new k d ≡ place_of (map T.key values.now) (least +ℤ pos k) }
    ensures len { length places.new ≡ length places.old }
{
    write_places_before(least, values, values.len(), values.len() % TURN, places);
    for turn in (0..values.len() / TURN).rev() {
        write_places_before(least, values, turn * TURN + TURN, TURN, places);
    }
}

impl Table {
    /// The table of a list's numbers, if these span less than `most`.
    pub(crate) fn new<T: Keyed>(
        alloc: Global,
        values: &[T],
        most: u64,
    ) -> Result<Option<Table>, AllocError>
        requires count { length values.now ≤ MOST_PLACES }
        requires most { most < 2 ^ 34 }
        ensures { IfOk result (λ found. IfSome found (λ t. IsTable (map T.key values.now) t.least t.places.items)) }
    {
        let (least, greatest) = ends::<Upwards, T>(values);
        let span = distance(least, greatest);
        if least > greatest || span >= most {
            return Ok(None);
        }
        let count = span as usize + 2;
        let mut places = vec![in alloc; values.len() as u32; count]?;
        write_places(least, values, places.as_mut_slice());
        Ok(Some(Table { least, places }))
    }

    /// The entries.
    #[inline(always)]
    pub(crate) fn entries(&self) -> Entries<'_>
        ensures least { result.least ≡ self.now.least }
        ensures places { result.places.now ≡ self.now.places.items }
    {
        Entries {
            least: self.least,
            places: self.places.as_slice(),
        }
    }
}

/// The entries of a table. A loop that writes has them by value, so that it reads no pointer anew.
#[derive(Clone, Copy)]
pub(crate) struct Entries<'a> {
    least: i64,
    places: &'a [u32],
    ghost some: { 0 < length places.now },
    ghost most: { All (λ p. p ≤ MOST_PLACES) places.now },
}

impl Entries<'_> {
    /// The first place of a number.
    #[inline(always)]
    pub(crate) fn place(&self, number: i64) -> usize
        ensures place { (numbers : List ℤ) → IsTable numbers self.now.least self.now.places.now → result ≡ place_of numbers number }
        ensures most { result ≤ MOST_PLACES }
    {
        let last = self.places.len() - 1;
        let entry = distance(self.least, number).min(last as u64);
        let place = self.places[entry as usize];
        place as usize
    }
}

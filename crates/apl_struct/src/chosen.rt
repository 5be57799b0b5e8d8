//! The elements of a vector at the indexes of one slot. One pass judges each index and takes its element.
ghost use Rattle.std.specs.Prelude.{◌≡◌, ℕ, ◌+◌, ◌<◌, ◌≤◌, ◌-ℤ◌, ◌∷◌, [], pos, Some, length, map, nat_lt};
ghost use Rattle.apl_array.specs.Axes.{is_below, origin_number};
ghost use Rattle.apl_array.specs.Shape.{count_of};
ghost use Rattle.apl_answer.specs.Arguments.{rank_of};
ghost use Rattle.apl_answer.specs.Pointwise.{IsAnswerAt};
ghost use Rattle.apl_answer.specs.Rows.{Answers};
ghost use Rattle.apl_pool.specs.declared.kernel.TheConstants.{MOST_PLACES};
ghost use Rattle.apl_pool.specs.Runs.{AreWritten};
ghost use Rattle.apl_struct.specs.Chosen.{chosen_at};
ghost use Rattle.apl_struct.specs.Indexing.{select_row};

use crate::arguments::{TURN, numbers_among};
use crate::building::lawful_shape;
use apl_answer::{ElementType, Numeric, OpFault, fill_array};
use apl_array::{Array, Elements, Origin, Shape, with_elements};
use apl_pool::{Crew, Fault, Kernel};
use std::alloc::AllocError;

/// How far a number is above that of the first index, modulo 2^64. So a number below the first is farther than each index.
#[inline(always)]
fn above_first(number: i64, first: usize) -> u64
    requires { first ≤ 1 }
    ensures index { result ≤ MOST_PLACES → number -ℤ pos first ≡ pos result }
    ensures test { (n : ℕ) → n ≤ MOST_PLACES → nat_lt result n ≡ is_below n (number -ℤ pos first) }
{
    number.cast_unsigned().wrapping_sub(first as u64)
}

/// The numbers of a slot, which are indexes counted from that of the first. They are passed by value, so that a loop that writes reads no
/// pointer anew.
struct Indexes<'a, N> {
    numbers: &'a [N],
    /// The number of the first index.
    first: usize,
    ghost low: { first ≤ 1 },
}

impl<N> Clone for Indexes<'_, N> {
    fn clone(&self) -> Result<Self, AllocError> {
        Ok(*self)
    }
}

impl<N> Copy for Indexes<'_, N> {}

impl<N: Numeric> Indexes<'_, N> {
    /// The element at the index that a place has, or the fault of a number that is no index.
    #[inline(always)]
    fn element<T: Copy>(self, elements: &[T], place: usize) -> Result<T, Fault>
        requires place { place < length self.numbers.now }
        requires most { length elements.now ≤ MOST_PLACES }
        ensures { result ≡ chosen_at elements.now (map N.number_in self.entry.numbers.now) self.entry.first place }
    {
        let index = above_first(self.numbers[place].number(), self.first);
        if index < elements.len() as u64 {
            Ok(elements[index as usize])
        } else {
            Err(Fault::Index)
        }
    }

    /// Writes the next `count` elements into the room for the places from `from` on, of which it has `done`. It answers the place of the
    /// first number that is no index, or where these end.
    #[inline(always)]
    fn write_some<T: Copy>(
        self,
        elements: &[T],
        from: usize,
        done: usize,
        count: usize,
        room: &mut [T],
    ) -> usize
        requires places { from + done + count ≤ length self.numbers.now }
        requires few { length self.numbers.now ≤ MOST_PLACES }
        requires most { length elements.now ≤ MOST_PLACES }
        requires room { done + count ≤ length room.old }
        requires before { AreWritten (chosen_at elements.now (map N.number_in self.numbers.now) self.first) from (from + done) room.old }
        ensures order { from ≤ result }
        ensures within { result ≤ from + done + count }
        ensures values { AreWritten (chosen_at elements.now (map N.number_in self.entry.numbers.now) self.entry.first) from result room.new }
        ensures len { length room.new ≡ length room.old }
    {
        for offset in 0..count {
            let k = done + offset;
            match self.element(elements, from + k) {
                Ok(element) => room[k] = element,
                Err(_) => return from + k,
            }
        }
        from + done + count
    }

    /// Writes elements into the room for the places from `from` on, several in a turn. It answers the place of the first number that is no
    /// index, or where the places end.
    #[inline(always)]
    fn write_before_fault<T: Copy>(
        self,
        elements: &[T],
        from: usize,
        count: usize,
        room: &mut [T],
    ) -> usize
        requires places { from + count ≤ length self.numbers.now }
        requires few { length self.numbers.now ≤ MOST_PLACES }
        requires most { length elements.now ≤ MOST_PLACES }
        requires room { count ≤ length room.old }
        ensures order { from ≤ result }
        ensures within { result ≤ from + count }
        ensures values { AreWritten (chosen_at elements.now (map N.number_in self.entry.numbers.now) self.entry.first) from result room.new }
        ensures len { length room.new ≡ length room.old }
    {
        for turn in 0..count / TURN {
            let stopped = self.write_some(elements, from, turn * TURN, TURN, room);
            if stopped < from + turn * TURN + TURN {
                return stopped;
            }
        }
        let rest = count % TURN;
        self.write_some(elements, from, count - rest, rest, room)
    }
}

/// The elements of a vector at indexes, and the fault at each number that is no index.
#[derive(Drop)]
struct ElementsAt<'a, T, N> {
    elements: &'a [T],
    indexes: Indexes<'a, N>,
    ghost most: { length elements.now ≤ MOST_PLACES },
    ghost few: { length indexes.numbers.now ≤ MOST_PLACES },
}

impl<T: ElementType, N: Numeric> Kernel for ElementsAt<'_, T, N> {
    ghost use Rattle.std.specs.Prelude.{length, map};
    ghost use Rattle.apl_struct.specs.Chosen.{chosen_at};

    type Out = T;

    ghost place_count = { λ k. length k.indexes.numbers.now };

    ghost outcome = { λ k. chosen_at k.elements.now (map N.number_in k.indexes.numbers.now) k.indexes.first };

    fn count(&self) -> usize {
        self.indexes.numbers.len()
    }

    #[inline(always)]
    fn at(&self, place: usize) -> Result<T, Fault> {
        self.indexes.element(self.elements, place)
    }

    #[inline(always)]
    fn write_run(&self, from: usize, to: usize, room: &mut [T]) -> usize {
        let indexes = self.indexes;
        indexes.write_before_fault(self.elements, from, to - from, room)
    }
}

/// The array of this shape with a vector's elements at the indexes that numbers are, less the origin.
fn gather_chosen<'a, T: ElementType + Send + Sync, N: Numeric + Sync, W: Crew>(
    workers: &W,
    shape: Shape,
    a: &Array,
    elements: &'a [T],
    numbers: &'a [N],
    origin: Origin,
) -> Result<Array, OpFault>
    requires kind { a.now.kind ≡ T.kind }
    requires ravel { a.now.ravel ≡ map T.elem_of elements.now }
    requires count { length numbers.now ≡ count_of shape }
    ensures { IsAnswerAt shape a.now.kind (chosen_at a.now.ravel (map N.number_in numbers.now) (origin_number origin)) result }
{
    // An array or a shape that was asked something is known to be lawful.
    let _sizes = (a.shape().count(), shape.count());
    let first = origin.number() as usize;
    let indexes = Indexes { numbers, first };
    let kernel = ElementsAt { elements, indexes };
    fill_array(workers, shape, &kernel)
}

/// The same, whatever the elements are.
fn chosen_elements<N: Numeric + Sync, W: Crew>(
    workers: &W,
    shape: Shape,
    a: &Array,
    numbers: &[N],
    origin: Origin,
) -> Result<Array, OpFault>
    requires { length numbers.now ≡ count_of shape }
    ensures { IsAnswerAt shape a.now.kind (chosen_at a.now.ravel (map N.number_in numbers.now) (origin_number origin)) result }
{
    with_elements!(a.elements(), elements => gather_chosen(workers, shape, a, elements, numbers, origin))
}

/// The elements that a slot that is not empty chooses of a vector. It is of numbers (`Domain`), each of them an index (`Index`).
pub(crate) fn select_of_vector<W: Crew>(
    workers: &W,
    a: &Array,
    slot: &Array,
    origin: Origin,
) -> Result<Array, OpFault>
    requires { rank_of a.now ≡ 1 }
    ensures { Answers (select_row a.now (Some slot.now ∷ []) origin) result }
{
    // An array that was asked something is known to be lawful.
    let _kind = a.kind();
    let shape = lawful_shape(workers.alloc(), slot.shape().lengths())?;
    if let Elements::Narrow(numbers) = slot.elements() {
        return chosen_elements(workers, shape, a, numbers, origin);
    }
    let numbers = numbers_among(workers, slot)?;
    chosen_elements(workers, shape, a, numbers.as_slice(), origin)
}

//! The elements of one argument found in the other.
ghost use Rattle.std.specs.Prelude.{◌≡◌, pos, ◌+◌, ◌≤◌, Ok, length};
ghost use Rattle.apl_array.specs.declared.array.Kind.TheVariants.{Number};
ghost use Rattle.apl_array.specs.declared.array.Elem.TheVariants.{Int};
ghost use Rattle.apl_pool.specs.declared.kernel.Fault.{Fault};
ghost use Rattle.apl_pool.specs.declared.kernel.TheConstants.{MOST_PLACES};
ghost use Rattle.apl_answer.specs.Pointwise.{answer_of, IsAnswerOf, IsAnswerAt};
ghost use Rattle.apl_answer.specs.Rows.{Answers};
ghost use Rattle.apl_search.specs.Finding.{found_outcome, member_outcome};
ghost use Rattle.apl_search.specs.Keys.{keys_in};
ghost use Rattle.apl_search.specs.Searching.{index_of_row, member_row};

use crate::finding::Finder;
use crate::keys::{count_in, key_at};
use crate::replies::Reply;
use apl_answer::{OpFault, constant_array, fill_array};
use apl_array::{Array, Elements, Origin, places_match_index_lists};
use apl_pool::{Crew, Cut, Fault, Gate, Kernel, Pool, Workers};
use std::alloc::Global;
use std::thread::Threads;

/// The first place, counted from `first`.
#[derive(Clone, Copy, Drop)]
struct PlaceFrom {
    first: usize,
    ghost origin: { first ≤ 1 },
}

impl Reply for PlaceFrom {
    ghost use Rattle.std.specs.Prelude.{◌+◌, pos};

    type Value = i32;

    ghost value = { λ r count place. pos (r.first + place) };

    #[inline(always)]
    fn value(self, _count: usize, place: usize) -> i32 {
        (self.first + place) as i32
    }
}

/// Whether an element has a place.
#[derive(Clone, Copy, Drop)]
struct IsFound;

impl Reply for IsFound {
    ghost use Rattle.std.specs.Prelude.{nat_lt};

    type Value = bool;

    ghost value = { λ r count place. nat_lt place count };

    #[inline(always)]
    fn value(self, count: usize, place: usize) -> bool {
        place < count
    }
}

/// What is answered of each element by its first place in a list.
#[derive(Drop)]
struct Searched<'a, R: Reply> {
    elements: Elements<'a>,
    list: Finder<'a>,
    reply: R,
    ghost most: { length (keys_in elements) ≤ MOST_PLACES },
}

impl<R: Reply> Kernel for Searched<'_, R> {
    ghost use Rattle.std.specs.Prelude.{Ok, length, pos, slice_index_or};
    ghost use Rattle.apl_search.specs.Keys.{keys_in};
    ghost use Rattle.apl_search.specs.Tables.{place_of};

    type Out = R::Value;

    ghost place_count = { λ k. length (keys_in k.elements) };

    ghost outcome = { λ k place. Ok (R.value k.reply (length (keys_in k.list.elements)) (place_of (keys_in k.list.elements) (slice_index_or (keys_in k.elements) place (pos 0)))) };

    fn count(&self) -> usize {
        count_in(self.elements)
    }

    fn work(&self) -> usize {
        self.list.work(count_in(self.elements))
    }

    #[inline(always)]
    fn at(&self, place: usize) -> Result<R::Value, Fault> {
        let found = self.list.place(key_at(self.elements, place));
        Ok(self.reply.value(self.list.count(), found))
    }

    #[inline(always)]
    fn write_run(&self, from: usize, to: usize, room: &mut [R::Value]) -> usize {
        self.list
            .write_replies(self.elements, from, to, self.reply, room)
    }
}

/// The first place in a list of each of an array's elements, counted from the origin. Both are of one kind.
fn first_places<W: Crew>(
    workers: &W,
    a: &Array,
    b: &Array,
    origin: Origin,
) -> Result<Array, OpFault>
    requires { a.now.kind ≡ b.now.kind }
    ensures { IsAnswerOf (answer_of b.now.shape (found_outcome a.now.ravel b.now origin) Number) result }
{
    places_match_index_lists();
    let shape = b.shape().copy(workers.alloc())?;
    let elements = b.elements();
    let list = Finder::new(workers, a.elements(), count_in(elements))?;
    let first = origin.number() as usize;
    let kernel = Searched {
        elements,
        list,
        reply: PlaceFrom { first },
    };
    fill_array(workers, shape, &kernel)
}

/// 1 for each of an array's elements that is in a list, else 0. Both are of one kind.
fn membership<W: Crew>(workers: &W, a: &Array, b: &Array) -> Result<Array, OpFault>
    requires { a.now.kind ≡ b.now.kind }
    ensures { IsAnswerOf (answer_of a.now.shape (member_outcome a.now b.now.ravel) Number) result }
{
    places_match_index_lists();
    let shape = a.shape().copy(workers.alloc())?;
    let elements = a.elements();
    let list = Finder::new(workers, b.elements(), count_in(elements))?;
    let kernel = Searched {
        elements,
        list,
        reply: IsFound,
    };
    fill_array(workers, shape, &kernel)
}

/// One number at all places of an array's shape.
fn same_everywhere<W: Crew>(workers: &W, b: &Array, number: usize) -> Result<Array, OpFault>
    requires fits { number ≤ MOST_PLACES + 1 }
    ensures { IsAnswerAt b.now.shape Number (λ place. Ok (Int (pos number))) result }
{
    let shape = b.shape().copy(workers.alloc())?;
    constant_array(workers, shape, Ok(number as i64))
}

/// `A⍳B`, index of: for each element of `B` the index of the first one in `A` that is equal, or one past the last index.
/// Shape: that of `B`, of numbers from the origin on. Errors: RANK where `A` is no vector.
/// Source: APL\360 User's Manual, index of.
pub fn index_of<R: Threads + Sync, C: Cut + Sync, G: Gate + Sync>(
    rt: &R,
    alloc: Global,
    pool: &Pool<C, G>,
    a: &Array,
    b: &Array,
    origin: Origin,
) -> Result<Array, OpFault>
    ensures { Answers (index_of_row a.now b.now origin) result }
{
    let workers = Workers { rt, alloc, pool };
    if a.shape().rank() != 1 {
        return Err(OpFault::Rank);
    }
    places_match_index_lists();
    if a.kind() != b.kind() {
        let past = origin.number() as usize + a.shape().count();
        return same_everywhere(&workers, b, past);
    }
    first_places(&workers, a, b, origin)
}

/// `A∊B`, membership: 1 for each element of `A` that is in `B`, else 0.
/// Shape: that of `A`, of numbers. Errors: none.
/// Source: APL\360 User's Manual, membership.
pub fn member<R: Threads + Sync, C: Cut + Sync, G: Gate + Sync>(
    rt: &R,
    alloc: Global,
    pool: &Pool<C, G>,
    a: &Array,
    b: &Array,
) -> Result<Array, OpFault>
    ensures { Answers (member_row a.now b.now) result }
{
    let workers = Workers { rt, alloc, pool };
    places_match_index_lists();
    if a.kind() != b.kind() {
        return same_everywhere(&workers, a, 0);
    }
    membership(&workers, a, b)
}

//! The numbers of an array in 64 bits, also of one that holds them in 32, or as truth values.
ghost use Rattle.std.specs.Prelude.{◌≡◌, ◌↔◌, ◌≤◌, IfOk, IfSome, IsSome, length, map};
ghost use Rattle.apl_array.specs.declared.array.Elem.TheVariants.{Int};
ghost use Rattle.apl_array.specs.declared.array.Kind.{Kind};
ghost use Rattle.apl_array.specs.Array.{IsArray, number_array};
ghost use Rattle.apl_answer.specs.Numbers.{number_list};
ghost use Rattle.apl_pool.specs.declared.kernel.TheConstants.{MOST_PLACES};

use crate::element::{Numeric, elements_are_numbers, number_at};
use apl_array::{Array, Elements};
use apl_pool::{Crew, Fault, Kernel, fill};
use std::alloc::AllocError;

/// Numbers in row order: those that an array holds, or those that are made of what it holds.
#[derive(Drop)]
pub enum Numbers<'a> {
    Held(&'a [i64]),
    Made(Vec<i64>),
}

impl Numbers<'_> {
    ghost use Rattle.apl_answer.specs.Numbers.{number_list};

    /// The numbers in row order. It takes no memory.
    pub fn as_slice(&self) -> &[i64]
        ensures { result.now ≡ number_list self.now }
    {
        match self {
            Numbers::Held(numbers) => numbers,
            Numbers::Made(numbers) => numbers.as_slice(),
        }
    }
}

/// The numbers that elements are, in 64 bits.
#[derive(Drop)]
struct Widened<'a, T> {
    elements: &'a [T],
    ghost most: { length elements.now ≤ MOST_PLACES },
}

impl<T: Numeric> Kernel for Widened<'_, T> {
    ghost use Rattle.std.specs.Prelude.{Ok, length, map, pos, slice_index_or};

    type Out = i64;

    ghost place_count = { λ k. length k.elements.now };

    ghost outcome = { λ k place. Ok (slice_index_or (map T.number_in k.elements.now) place (pos 0)) };

    fn count(&self) -> usize {
        self.elements.len()
    }

    #[inline(always)]
    fn at(&self, place: usize) -> Result<i64, Fault> {
        Ok(number_at(self.elements, place))
    }

    #[inline(always)]
    fn write_run(&self, from: usize, to: usize, room: &mut [i64]) -> usize {
        for k in 0..to - from {
            room[k] = number_at(self.elements, from + k);
        }
        to
    }
}

/// The numbers that elements are, made by the workers.
fn made_numbers<T: Numeric + Sync, W: Crew>(
    workers: &W,
    elements: &[T],
) -> Result<Vec<i64>, AllocError>
    requires { length elements.now ≤ MOST_PLACES }
    ensures { IfOk result (λ numbers. map T.elem_of elements.now ≡ map Int numbers.items) }
{
    elements_are_numbers(elements);
    match fill(workers, &Widened { elements }) {
        Ok(numbers) => Ok(numbers),
        Err(_) => Err(AllocError),
    }
}

/// The numbers of an array in row order, if it is of numbers. Those that are held in 32 bits, or as truth values, are made by the workers,
/// and this alone takes memory.
pub fn numbers_of<'a, W: Crew>(workers: &W, a: &'a Array) -> Result<Option<Numbers<'a>>, AllocError>
    ensures numbers { IfOk result (λ found. IfSome found (λ ns. a.now ≡ number_array a.now.shape (number_list ns))) }
    ensures kind { IfOk result (λ found. IsSome found ↔ (a.now.kind ≡ Kind.Number)) }
    ensures lawful { IsArray a.now }
{
    match a.elements() {
        Elements::Numbers(numbers) => Ok(Some(Numbers::Held(numbers))),
        Elements::Narrow(numbers) => Ok(Some(Numbers::Made(made_numbers(workers, numbers)?))),
        Elements::Truths(truths) => Ok(Some(Numbers::Made(made_numbers(workers, truths)?))),
        Elements::Characters(_) => Ok(None),
    }
}

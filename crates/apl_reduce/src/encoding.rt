//! Numbers taken apart into digits in a list of radices.
ghost use Rattle.std.specs.Prelude.{◌≡◌, ℕ, ◌+◌, ◌*◌, ◌<◌, ◌≤◌, ◌<ℤ◌, ℤ, pos, List, Ok, Result, drop, length, slice_index_or};
ghost use Rattle.apl_array.specs.declared.array.Kind.TheVariants.{Number};
ghost use Rattle.apl_array.specs.Shape.{count_of};
ghost use Rattle.apl_pool.specs.declared.kernel.Fault.{Fault};
ghost use Rattle.apl_pool.specs.declared.kernel.TheConstants.{MOST_PLACES};
ghost use Rattle.apl_pool.specs.Runs.{AreWritten};
ghost use Rattle.apl_answer.specs.Pointwise.{IsAnswerAt};
ghost use Rattle.apl_answer.specs.Rows.{Answers};
ghost use Rattle.apl_scalar.specs.Arithmetic.{residue};
ghost use Rattle.apl_scalar.specs.Scalar.{exact};
ghost use Rattle.apl_reduce.specs.declared.carry_divisor.CarryDivisor.TheVariants.{Nothing, Product};
ghost use Rattle.apl_reduce.specs.Encoding.{carry_past, encode_row};
ghost use Rattle.apl_reduce.specs.Carrying.{digit_in, digit_number, StandsFor};

use crate::carry_divisor::{CarryDivisor, carry_divisors};
use crate::carrying::digit_left;
use crate::shapes::joined_shape;
use apl_answer::{OpFault, constant_array, fill_array, numbers_of};
use apl_array::{Array, Shape, joined_index_has_place, places_match_index_lists, range_is_decided};
use apl_divisor::Divisor;
use apl_pool::{Crew, Cut, Fault, Gate, Kernel, Pool, Workers, write_each};
use apl_scalar::function_types::{Function, Stile};
use std::alloc::Global;
use std::thread::Threads;

/// The digit that a radix leaves of a number, if the radices after it carry the quotient by a product.
#[inline(always)]
fn digit_of_quotient(radix: i64, product: i64, number: i64) -> i64
    requires { pos 0 <ℤ product }
    ensures { (after : List ℤ) → StandsFor (Product product) after → exact (residue radix (carry_past after number)) ≡ Ok result }
{
    range_is_decided();
    match Stile::apply(radix, number.div_euclid(product)) {
        Ok(digit) => digit,
        Err(_) => unreachable!(),
    }
}

/// Writes the digit that a radix leaves of each number, if the radices after it carry the quotients by a product. It answers how many they
/// are.
#[inline(always)]
fn write_digits(radix: i64, product: i64, numbers: &[i64], room: &mut [i64]) -> usize
    requires product { pos 0 <ℤ product }
    requires room { length numbers.now ≤ length room.old }
    ensures count { result ≡ length numbers.now }
    ensures values { (after : List ℤ) → StandsFor (Product product) after
        → AreWritten (λ j. exact (residue radix (carry_past after (slice_index_or numbers.now j (pos 0))))) 0 result room.new }
    ensures len { length room.new ≡ length room.old }
{
    let digit = |j: usize| -> i64
        requires product { pos 0 <ℤ product }
        requires within { j < length numbers.now }
        ensures { (after : List ℤ) → StandsFor (Product product) after
            → exact (residue radix (carry_past after (slice_index_or numbers.entry.now j (pos 0)))) ≡ Ok result }
    { digit_of_quotient(radix, product, numbers[j]) };
    write_each(numbers.len(), digit, room);
    numbers.len()
}

/// How many times as long as a sum of two numbers a digit takes.
const DIVIDING: usize = 4;

/// The digit at each radix of each number, the numbers varying fastest.
#[derive(Drop)]
struct Encoding<'a> {
    radices: &'a [i64],
    behind: &'a [CarryDivisor],
    numbers: &'a [i64],
    /// How many numbers there are, if there is a place.
    width: Divisor,
    count: usize,
    ghost most: { count ≤ MOST_PLACES },
    ghost each: { count ≡ length radices.now * length numbers.now },
    ghost apart: { 0 < count → width ≡ length numbers.now },
    ghost behind_each: { length behind.now ≡ length radices.now },
    ghost stand: { (k : ℕ) → k < length radices.now → StandsFor (slice_index_or behind.now k Nothing) (drop (k + 1) radices.now) },
}

impl Encoding<'_> {
    /// The digit at radix `k`.
    #[inline(always)]
    fn digit(&self, k: usize, number: i64) -> Result<i64, Fault>
        requires { k < length self.now.radices.now }
        ensures { result ≡ digit_number self.now.radices.now k number }
    {
        digit_left(self.radices[k], self.behind[k].carry(number))
    }
}

impl Kernel for Encoding<'_> {
    ghost use Rattle.std.specs.Prelude.{pos, ◌/◌, ◌%◌, length, slice_index_or};
    ghost use Rattle.apl_reduce.specs.Carrying.{digit_number};

    type Out = i64;

    ghost place_count = { λ e. e.count };

    ghost outcome = { λ e place. digit_number e.radices.now (place / length e.numbers.now) (slice_index_or e.numbers.now (place % length e.numbers.now) (pos 0)) };

    fn count(&self) -> usize {
        self.count
    }

    fn work(&self) -> usize {
        self.count.saturating_mul(DIVIDING)
    }

    #[inline(always)]
    fn at(&self, place: usize) -> Result<i64, Fault> {
        let k = self.width.quotient(place);
        let j = self.width.remainder(place);
        self.digit(k, self.numbers[j])
    }

    #[inline(always)]
    fn write_run(&self, from: usize, to: usize, room: &mut [i64]) -> usize {
        if from == to {
            return from;
        }
        let k = self.width.quotient(from);
        let CarryDivisor::Product(product) = self.behind[k] else {
            return from;
        };
        let first = self.width.remainder(from);
        let end = self.numbers.len().min(first + (to - from));
        from + write_digits(self.radices[k], product, &self.numbers[first..end], room)
    }
}

/// The array of this shape of the digit at each radix of each number.
fn encode_numbers<W: Crew>(
    workers: &W,
    shape: Shape,
    radices: &[i64],
    numbers: &[i64],
) -> Result<Array, OpFault>
    requires places { count_of shape ≡ length radices.now * length numbers.now }
    requires most { length numbers.now ≤ MOST_PLACES }
    ensures { IsAnswerAt shape Number (digit_in radices.now numbers.now) result }
{
    let behind = carry_divisors(workers.alloc(), radices)?;
    let kernel = Encoding {
        radices,
        behind: behind.as_slice(),
        numbers,
        width: Divisor::new(numbers.len().max(1)),
        count: shape.count(),
    };
    fill_array(workers, shape, &kernel)
}

/// `Domain`, or the array of this shape if it has no elements.
fn refuse<W: Crew>(workers: &W, shape: Shape) -> Result<Array, OpFault>
    ensures { IsAnswerAt shape Number (λ place. Result.Err Fault.Domain) result }
{
    constant_array(workers, shape, Err(Fault::Domain))
}

/// `A⊤B`, encode: the digits of each element of `B` in the radices `A`.
/// Shape: that of `A`, then that of `B`; of numbers. A scalar `A` is the only radix.
/// Errors in order: RANK of `A`, LIMIT of the shape, DOMAIN of the kinds if there is an element, LIMIT of a digit.
/// Source: APL\360 User's Manual, representation; radices of 0 and below, and the order of errors, are this calculator's own.
pub fn encode<R: Threads + Sync, C: Cut + Sync, G: Gate + Sync>(
    rt: &R,
    alloc: Global,
    pool: &Pool<C, G>,
    a: &Array,
    b: &Array,
) -> Result<Array, OpFault>
    ensures { Answers (encode_row a.now b.now) result }
{
    let workers = Workers { rt, alloc, pool };
    if a.shape().rank() > 1 {
        return Err(OpFault::Rank);
    }
    places_match_index_lists();
    joined_index_has_place();
    let shape = joined_shape(alloc, a.shape().lengths(), b.shape().lengths())?;
    let Some(radices) = numbers_of(&workers, a)? else {
        return refuse(&workers, shape);
    };
    let Some(numbers) = numbers_of(&workers, b)? else {
        return refuse(&workers, shape);
    };
    encode_numbers(&workers, shape, radices.as_slice(), numbers.as_slice())
}

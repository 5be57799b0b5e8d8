//! The number that digits make in a list of radices.
ghost use Rattle.std.specs.Prelude.{◌≡◌, ℕ, pos, ◌+ℤ◌, ◌*ℤ◌, ◌<◌, ◌==◌, ◌||◌, ◌↔◌, true, false, [], length, IfSome, IsSome, MatchOption, slice_index_or};
ghost use Rattle.apl_array.specs.declared.array.Kind.TheVariants.{Number};
ghost use Rattle.apl_array.specs.Array.{number_array};
ghost use Rattle.apl_answer.specs.Arguments.{has_one_element, is_number_kind, numbers_of};
ghost use Rattle.apl_answer.specs.Numbers.{number_list};
ghost use Rattle.apl_answer.specs.Pointwise.{answer_of, IsAnswerOf};
ghost use Rattle.apl_answer.specs.Rows.{Answers};
ghost use Rattle.apl_scalar.specs.Scalar.{exact};
ghost use Rattle.apl_reduce.specs.Decoding.{have_digits_alike, decode_length, decode_row};
ghost use Rattle.apl_reduce.specs.Fronts.{served, served_value};

use crate::range::limited;
use apl_answer::{Numbers, OpFault, fill_array, numbers_of};
use apl_array::{Array, Shape};
use apl_pool::{Crew, Cut, Fault, Gate, Kernel, Pool, Workers};
use std::alloc::Global;
use std::thread::Threads;

/// The numbers that serve the digits in order. A single one serves all of them.
#[derive(Clone, Copy)]
struct Served<'a> {
    numbers: &'a [i64],
    is_single: bool,
}

impl Served<'_> {
    /// The number that serves a digit.
    #[inline(always)]
    fn at(&self, digit: usize) -> i64
        requires single { self.now.is_single ≡ true → length self.now.numbers.now ≡ 1 }
        requires each { self.now.is_single ≡ false → digit < length self.now.numbers.now }
        ensures { (n : ℕ) → digit < n → result ≡ slice_index_or (served n self.now.is_single self.now.numbers.now) digit (pos 0) }
    {
        if self.is_single {
            self.numbers[0]
        } else {
            self.numbers[digit]
        }
    }
}

/// The value with one digit more, exactly, and `Limit` if it leaves the range.
#[inline(always)]
#[tactic(auto, using(crate::proofs::Casts::sum_fits_cast, crate::proofs::Casts::longer_value))]
fn with_digit(value: i64, radix: i64, digit: i64) -> Result<i64, Fault>
    ensures { result ≡ exact ((value *ℤ radix) +ℤ digit) }
{
    limited(value as i128 * radix as i128 + digit as i128)
}

/// The value of the first `count` digits.
#[derive(Drop)]
struct Decoding<'a> {
    radices: Served<'a>,
    digits: Served<'a>,
    count: usize,
    ghost radices_single: { radices.is_single ≡ true → length radices.numbers.now ≡ 1 },
    ghost radices_each: { radices.is_single ≡ false → length radices.numbers.now ≡ count },
    ghost digits_single: { digits.is_single ≡ true → length digits.numbers.now ≡ 1 },
    ghost digits_each: { digits.is_single ≡ false → length digits.numbers.now ≡ count },
}

impl Kernel for Decoding<'_> {
    ghost use Rattle.apl_reduce.specs.Fronts.{served, decoded_number};

    type Out = i64;

    ghost place_count = { λ k. 1 };

    ghost outcome = { λ k place. decoded_number k.count (served k.count k.radices.is_single k.radices.numbers.now) (served k.count k.digits.is_single k.digits.numbers.now) };

    fn count(&self) -> usize {
        1
    }

    fn at(&self, _place: usize) -> Result<i64, Fault> {
        let mut value = 0;
        for k in 0..self.count {
            value = with_digit(value, self.radices.at(k), self.digits.at(k))?;
        }
        Ok(value)
    }
}

/// The numbers of an argument, of which a single one serves all digits, and none of characters.
fn served_by<'a>(a: &Array, numbers: &'a Option<Numbers>) -> Option<Served<'a>>
    requires numbers { IfSome numbers.now (λ ns. a.now ≡ number_array a.now.shape (number_list ns)) }
    requires kind { IsSome numbers.now ↔ (a.now.kind ≡ Number) }
    ensures { MatchOption result
        (is_number_kind a.now.kind ≡ false)
        (λ s. (is_number_kind a.now.kind ≡ true) × (s.numbers.now ≡ numbers_of a.now) × (s.is_single ≡ has_one_element a.now.shape)) }
{
    let numbers = numbers.as_ref()?;
    Some(Served {
        numbers: numbers.as_slice(),
        is_single: a.shape().count() == 1,
    })
}

/// How many digits two lists make, if they agree: one for each element, and an argument of one
/// element serves all of the other's.
fn digit_count(a: &Array, b: &Array) -> Option<usize>
    ensures { MatchOption result
        (have_digits_alike a.now b.now ≡ false)
        (λ n. (have_digits_alike a.now b.now ≡ true) × (n ≡ decode_length a.now b.now)) }
{
    let (left, right) = (a.shape().count(), b.shape().count());
    if left == 1 {
        Some(right)
    } else if right == 1 || left == right {
        Some(left)
    } else {
        None
    }
}

/// The scalar that a decode gives.
fn decoded<W: Crew>(workers: &W, decoding: &Decoding) -> Result<Array, OpFault>
    ensures { let d = decoding.now in
        IsAnswerOf (answer_of [] (λ index. served_value d.count d.radices.is_single d.radices.numbers.now d.digits.is_single d.digits.numbers.now) Number) result }
{
    let Ok(shape) = Shape::new(workers.alloc(), &[]) else {
        unreachable!()
    };
    fill_array(workers, shape, decoding)
}

/// `A⊥B`, decode: the value that the digits `B` have in the radices `A`.
/// Shape: a scalar number. An argument of one element serves all digits of the other.
/// Errors in order: RANK, LENGTH, DOMAIN of the kinds if there is a digit, LIMIT if some first digits have a value out of range.
/// Source: APL\360 User's Manual, base value; the order of errors is this calculator's own.
pub fn decode<R: Threads + Sync, C: Cut + Sync, G: Gate + Sync>(
    rt: &R,
    alloc: Global,
    pool: &Pool<C, G>,
    a: &Array,
    b: &Array,
) -> Result<Array, OpFault>
    ensures { Answers (decode_row a.now b.now) result }
{
    let workers = Workers { rt, alloc, pool };
    if a.shape().rank() > 1 || b.shape().rank() > 1 {
        return Err(OpFault::Rank);
    }
    let Some(count) = digit_count(a, b) else {
        return Err(OpFault::Length);
    };
    if count == 0 {
        let none = Served {
            numbers: &[],
            is_single: false,
        };
        return decoded(
            &workers,
            &Decoding {
                radices: none,
                digits: none,
                count,
            },
        );
    }
    let (left, right) = (numbers_of(&workers, a)?, numbers_of(&workers, b)?);
    let (Some(radices), Some(digits)) = (served_by(a, &left), served_by(b, &right)) else {
        return Err(OpFault::Domain);
    };
    decoded(
        &workers,
        &Decoding {
            radices,
            digits,
            count,
        },
    )
}

//! The numbers along an axis, folded up to each place.
ghost use Rattle.std.specs.Prelude.{◌≡◌, true, ◌+◌, ◌-◌, ◌*◌, ◌/◌, ◌%◌, ◌<◌, ◌≤◌, IfOk, IfErr, IfSome, length, map};
ghost use Rattle.apl_pool.specs.declared.kernel.TheConstants.{MOST_PLACES};
ghost use Rattle.apl_pool.specs.Pool.{AreValues, IsStopOf};
ghost use Rattle.apl_scalar.specs.Scalar.{dyadic_numbers};
ghost use Rattle.apl_summary.specs.Functions.{has_summary};
ghost use Rattle.apl_scan.specs.Lines.{folded, number_along, numbers_before, scan_at};

use crate::columns::fold_columns;
use crate::summarized::{fill_by_summary, put_scans};
use apl_answer::Numeric;
use apl_array::ScalarFunction;
use apl_divisor::Divisor;
use apl_pool::{Crew, Fault, Kernel, Stop, fill};
use apl_scalar::function_types::Function;
use apl_scalar::with_type;
use apl_summary::has_summary;
use std::alloc::AllocError;

/// The numbers of an array, in lines along an axis.
#[derive(Drop)]
pub(crate) struct AxisLines<'a> {
    numbers: &'a [i64],
    /// How many numbers a line has.
    items: Divisor,
    /// How far apart neighbours in a line are.
    inner: Divisor,
    ghost some: { 0 < length numbers.now },
    ghost most: { length numbers.now ≤ MOST_PLACES },
    ghost whole: { length numbers.now / (items * inner) * (items * inner) ≡ length numbers.now },
}

impl<'a> AxisLines<'a> {
    /// Lines of `items` numbers, which are `inner` apart.
    pub(crate) fn new(numbers: &'a [i64], items: usize, inner: usize) -> AxisLines<'a>
        requires some { 0 < length numbers.now }
        requires most { length numbers.now ≤ MOST_PLACES }
        requires items { (0 < items) × (items ≤ MOST_PLACES) }
        requires inner { (0 < inner) × (inner ≤ MOST_PLACES) }
        requires whole { length numbers.now / (items * inner) * (items * inner) ≡ length numbers.now }
        ensures numbers { result.numbers.now ≡ numbers.now }
        ensures items { result.items ≡ items }
        ensures inner { result.inner ≡ inner }
    {
        AxisLines {
            numbers,
            items: Divisor::new(items),
            inner: Divisor::new(inner),
        }
    }

    /// How many numbers of its line are before a place.
    #[inline(always)]
    fn before(&self, place: usize) -> usize
        requires { place < length self.now.numbers.now }
        ensures count { result ≡ numbers_before self.now.items self.now.inner place }
        ensures within { result * self.now.inner ≤ place }
    {
        self.items.remainder(self.inner.quotient(place))
    }
}

/// The fold of a number and `before` others on its left, which are `stride` apart.
fn fold_up_to<F: Function>(
    numbers: &[i64],
    place: usize,
    stride: usize,
    before: usize,
) -> Result<i64, Fault>
    requires place { place < length numbers.now }
    requires within { before * stride ≤ place }
    ensures { result ≡ folded (dyadic_numbers F.FUNCTION) (number_along numbers.now (place - before * stride) stride) 0 before }
{
    let mut left = place;
    let mut total = numbers[place];
    for _done in 0..before {
        left -= stride;
        total = F::apply(numbers[left], total)?;
    }
    Ok(total)
}

/// The fold up to a place.
fn fold_at<F: Function>(lines: &AxisLines, place: usize) -> Result<i64, Fault>
    requires { place < length lines.now.numbers.now }
    ensures { result ≡ scan_at (dyadic_numbers F.FUNCTION) lines.now.numbers.now lines.now.items lines.now.inner place }
{
    let before = lines.before(place);
    fold_up_to::<F>(lines.numbers, place, lines.inner.number(), before)
}

/// The fold up to a place by a scalar function.
fn fold_by(f: ScalarFunction, lines: &AxisLines, place: usize) -> Result<i64, Fault>
    requires { place < length lines.now.numbers.now }
    ensures { result ≡ scan_at (dyadic_numbers f) lines.now.numbers.now lines.now.items lines.now.inner place }
{
    with_type!(f, fold_at::<F>(lines, place))
}

/// The folds up to each place.
#[derive(Drop)]
struct PrefixFolds<'a> {
    f: ScalarFunction,
    lines: &'a AxisLines<'a>,
}

impl Kernel for PrefixFolds<'_> {
    ghost use Rattle.std.specs.Prelude.{length};
    ghost use Rattle.apl_scalar.specs.Scalar.{dyadic_numbers};
    ghost use Rattle.apl_scan.specs.Lines.{scan_at};

    type Out = i64;

    ghost place_count = { λ k. length k.lines.now.numbers.now };

    ghost outcome = { λ k place. scan_at (dyadic_numbers k.f) k.lines.now.numbers.now k.lines.now.items k.lines.now.inner place };

    fn count(&self) -> usize {
        self.lines.numbers.len()
    }

    /// Each place folds half of a line's items.
    fn work(&self) -> usize {
        self.count().saturating_mul(self.lines.items.number())
    }

    fn at(&self, place: usize) -> Result<i64, Fault> {
        fold_by(self.f, self.lines, place)
    }
}

/// The folds of numbers along their lines up to each place, each from the place on.
fn fill_by_places<W: Crew>(
    workers: &W,
    f: ScalarFunction,
    lines: &AxisLines,
) -> Result<Vec<i64>, Stop>
    ensures values { IfOk result (λ v. AreValues (scan_at (dyadic_numbers f) lines.now.numbers.now lines.now.items lines.now.inner) (length lines.now.numbers.now) v.items) }
    ensures stop { IfErr result (IsStopOf (scan_at (dyadic_numbers f) lines.now.numbers.now lines.now.items lines.now.inner) (length lines.now.numbers.now)) }
{
    fill(workers, &PrefixFolds { f, lines })
}

/// The folds of numbers along their lines up to each place, by a function whose folds have summaries.
fn fill_by_columns<W: Crew>(
    workers: &W,
    f: ScalarFunction,
    lines: &AxisLines,
) -> Result<Vec<i64>, Stop>
    requires summary { has_summary f ≡ true }
    ensures values { IfOk result (λ v. AreValues (scan_at (dyadic_numbers f) lines.now.numbers.now lines.now.items lines.now.inner) (length lines.now.numbers.now) v.items) }
    ensures stop { IfErr result (IsStopOf (scan_at (dyadic_numbers f) lines.now.numbers.now lines.now.items lines.now.inner) (length lines.now.numbers.now)) }
{
    let numbers = lines.numbers;
    let values = fold_columns(
        workers,
        f,
        numbers,
        lines.items.number(),
        lines.inner.number(),
    )?;
    let place = values.len();
    if place == numbers.len() {
        return Ok(values);
    }
    match fold_by(f, lines, place) {
        Err(fault) => {
            let place = place as u32;
            Err(Stop::Fault { place, fault })
        }
        Ok(_) => fill_by_places(workers, f, lines),
    }
}

/// The folds of numbers along their lines up to each place.
pub(crate) fn fill_scans<W: Crew>(
    workers: &W,
    f: ScalarFunction,
    lines: &AxisLines,
) -> Result<Vec<i64>, Stop>
    ensures values { IfOk result (λ v. AreValues (scan_at (dyadic_numbers f) lines.now.numbers.now lines.now.items lines.now.inner) (length lines.now.numbers.now) v.items) }
    ensures stop { IfErr result (IsStopOf (scan_at (dyadic_numbers f) lines.now.numbers.now lines.now.items lines.now.inner) (length lines.now.numbers.now)) }
{
    if !has_summary(f) {
        return fill_by_places(workers, f, lines);
    }
    if lines.inner.number() == 1 {
        return fill_by_summary(workers, f, lines.numbers, lines.items.number());
    }
    fill_by_columns(workers, f, lines)
}

/// The folds of numbers up to each place of lines, in one pass over the numbers as they are held, by a function whose folds have summaries.
/// There are none where the workers are to share them, or where one may have a fault.
pub(crate) fn scans_in_one_pass<T: Numeric, W: Crew>(
    workers: &W,
    f: ScalarFunction,
    numbers: &[T],
    items: usize,
    inner: usize,
) -> Result<Option<Vec<i64>>, AllocError>
    requires summary { has_summary f ≡ true }
    requires most { length numbers.now ≤ MOST_PLACES }
    requires items { 0 < items }
    requires inner { 0 < inner }
    requires lines { length numbers.now / (items * inner) * (items * inner) ≡ length numbers.now }
    ensures { IfOk result (λ scans. IfSome scans (λ v. AreValues (scan_at (dyadic_numbers f) (map T.number_in numbers.now) items inner) (length numbers.now) v.items)) }
{
    if inner == 1 {
        return put_scans(workers, f, numbers, items);
    }
    if T::PER_NUMBER == 1 {
        return Ok(None);
    }
    let values = fold_columns(workers, f, numbers, items, inner)?;
    if values.len() < numbers.len() {
        return Ok(None);
    }
    Ok(Some(values))
}

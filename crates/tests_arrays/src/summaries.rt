//! Summaries of a few items in each nesting, and folds of random numbers in each cutting.
ghost use Rattle.std.specs.Prelude.{◌≡◌, ◌≤◌, true, IsTrue, length};
ghost use Rattle.apl_array.specs.Valences.{has_dyadic};
ghost use Rattle.apl_pool.specs.declared.kernel.TheConstants.{MOST_PLACES};
ghost use Rattle.apl_summary.specs.Functions.{has_summary};

use apl_array::Elem;
use apl_pool::{Cut, Fault, MOST_PLACES, Open, Pool, Rows, Schedule, Stop, Summary, Workers};
use apl_scalar::function_types::{And, Less};
use apl_scalar::{Prim, apply2};
use apl_summary::{
    Consecutive, Extreme, FoldedRows, Scaled, SignedSum, TwoValued, fold_rows, has_summary,
};
use std::alloc::Global;
use std::test::Fail;
use std::thread::Threads;

const LEAST: i64 = i64::MIN;

const MOST: i64 = i64::MAX;

/// What one item does to the number that comes in.
fn one<S: Summary<Item = i64> + Drop>(item: i64, right: i64) -> Result<i64, Fault> {
    S::one(item).apply(right)
}

/// What two items do to the number that comes in.
fn two<S: Summary<Item = i64> + Drop>(items: [i64; 2], right: i64) -> Result<i64, Fault> {
    let [first, second] = items;
    S::join(&S::one(first), &S::one(second)).apply(right)
}

/// What three items do to the number that comes in, for both nestings.
fn three<S: Summary<Item = i64> + Drop>(items: [i64; 3], right: i64) -> [Result<i64, Fault>; 2] {
    let [first, second, third] = items;
    let front = S::join(&S::one(first), &S::one(second));
    let back = S::join(&S::one(second), &S::one(third));
    [
        S::join(&front, &S::one(third)).apply(right),
        S::join(&S::one(first), &back).apply(right),
    ]
}

#[test]
fn summaries(rt: HostRuntime) {
    let half = 4_611_686_018_427_387_904;
    for (answer, wanted) in [
        (two::<SignedSum<0>>([-1, 1], MOST), Err(Fault::Limit)),
        (two::<SignedSum<0>>([-1, 1], MOST - 1), Ok(MOST - 1)),
        (one::<SignedSum<1>>(0, LEAST), Err(Fault::Limit)),
        (one::<SignedSum<1>>(-1, LEAST), Ok(MOST)),
        (two::<Scaled>([-1, half], 2), Err(Fault::Limit)),
        (one::<Scaled>(half, -2), Ok(LEAST)),
        (two::<Scaled>([0, half], 2), Err(Fault::Limit)),
        (two::<Scaled>([0, half], 1), Ok(0)),
        (two::<Scaled>([0, half], 0), Ok(0)),
        (two::<Extreme<1>>([3, 9], 5), Ok(9)),
        (two::<TwoValued<Less>>([1, 5], 3), Ok(0)),
        (two::<TwoValued<And>>([0, 2], 1), Err(Fault::Domain)),
    ] {
        assert!(rt; answer == wanted);
    }
    assert!(rt; three::<SignedSum<1>>([10, 4, 3], 2) == [Ok(7), Ok(7)]);
}

/// The summary of the items of both, of at most a million each.
fn both(left: &Consecutive, right: &Consecutive) -> Option<Consecutive> {
    if left.items() > 1_000_000 || right.items() > 1_000_000 {
        return None;
    }
    Some(Consecutive::join(left, right))
}

/// The summary of items that are joined from the first to the last, or from the last to the first.
fn consecutive(items: &[i64], is_from_last: bool) -> Option<Consecutive> {
    let mut all = None;
    for k in 0..items.len() {
        let at = if is_from_last { items.len() - 1 - k } else { k };
        let item = Consecutive::one(items[at]);
        all = Some(match all {
            None => item,
            Some(others) if is_from_last => both(&item, &others)?,
            Some(others) => both(&others, &item)?,
        });
    }
    all
}

/// Whether there are `count` items, and each sum of consecutive ones is in the range or not, in both nestings.
fn tells(items: &[i64], count: u32, is_lawful: bool) -> bool {
    let told = |all: Option<Consecutive>| match all {
        None => false,
        Some(all) => all.items() == count && all.lawful() == is_lawful,
    };
    told(consecutive(items, false)) && told(consecutive(items, true))
}

#[test]
fn consecutive_sums(rt: HostRuntime) -> Result<(), Fail> {
    for (items, count, is_lawful) in [
        ([5, LEAST, -1].as_slice(), 3, false),
        ([5, LEAST].as_slice(), 2, true),
        ([MOST, 0, 1].as_slice(), 3, false),
        ([MOST, -1, 1].as_slice(), 3, true),
        ([LEAST].as_slice(), 1, true),
    ] {
        assert!(rt; tells(items, count, is_lawful));
    }
    let mut ones = Vec::new(rt.alloc());
    for _ in 0..3000 {
        ones.push(1)?;
    }
    assert!(rt; tells(ones.as_slice(), 3000, true));
    if ones.len() > 1500 {
        ones.as_mut_slice()[1500] = MOST;
    }
    assert!(rt; tells(ones.as_slice(), 3000, false));
    Ok(())
}

/// Numbers near the ends of the range, near the ends of its half, and near 0.
#[derive(Drop)]
struct Random {
    state: u64,
}

impl Random {
    fn next(&mut self) -> u64 {
        self.state = self
            .state
            .wrapping_mul(6_364_136_223_846_793_005)
            .wrapping_add(1_442_695_040_888_963_407);
        self.state >> 33
    }

    fn number(&mut self) -> i64 {
        let near = (self.next() % 3) as i64;
        match self.next() % 9 {
            0 => MOST - near,
            1 => LEAST + near,
            2 => (1 << 62) - near,
            3 => near - (1 << 62),
            4 => 3_037_000_500 - near,
            5 => -1,
            _ => near,
        }
    }

    /// At most eight numbers. Of two lists one has the numbers 0 and 1 alone.
    fn numbers(&mut self, alloc: Global) -> Result<Vec<i64>, Fail> {
        let count = self.next() % 8 + 1;
        let bits = self.next() % 2 == 0;
        let mut items = Vec::new(alloc);
        for _ in 0..count {
            let number = self.number();
            items.push(if bits { i64::from(number > 1) } else { number })?;
        }
        Ok(items)
    }
}

/// What one pass from the right answers.
fn one_pass(f: Prim, items: &[i64]) -> Result<Elem, Fault>
    requires { IsTrue (has_dyadic f) }
{
    let Some((last, others)) = items.split_last() else {
        return Err(Fault::Index);
    };
    let mut right = Elem::Int(*last);
    for item in others.iter().rev() {
        right = apply2(f, Elem::Int(*item), right)?;
    }
    Ok(right)
}

/// The functions whose folds are cut.
const FUNCTIONS: [Prim; 15] = [
    Prim::Plus,
    Prim::Minus,
    Prim::Times,
    Prim::Floor,
    Prim::Ceiling,
    Prim::And,
    Prim::Or,
    Prim::Nand,
    Prim::Nor,
    Prim::Less,
    Prim::LessOrEqual,
    Prim::Equal,
    Prim::GreaterOrEqual,
    Prim::Greater,
    Prim::NotEqual,
];

/// All items but the last, to which the last one comes in.
#[derive(Drop)]
struct AllButLast<'a> {
    items: &'a [i64],
    ghost two: { 2 ≤ length items.now },
    ghost most: { length items.now ≤ MOST_PLACES },
}

impl Rows for AllButLast<'_> {
    ghost use Rattle.std.specs.Prelude.{◌-◌, pos, Ok, length, slice_index_or};

    type Out = i64;

    ghost row_count = { λ r. 1 };

    ghost place_count = { λ r. length r.items.now - 1 };

    ghost outcome = { λ r row place. Ok (slice_index_or r.items.now place (pos 0)) };

    fn rows(&self) -> usize {
        1
    }

    fn count(&self) -> usize {
        self.items.len() - 1
    }

    fn at(&self, _row: usize, place: usize) -> Result<i64, Fault> {
        Ok(self.items[place])
    }
}

impl FoldedRows for AllButLast<'_> {
    ghost use Rattle.std.specs.Prelude.{◌-◌, pos, Ok, length, slice_index_or};

    ghost incoming = { λ r row. Ok (slice_index_or r.items.now (length r.items.now - 1) (pos 0)) };

    fn incoming(&self, _row: usize) -> Result<i64, Fault> {
        Ok(self.items[self.items.len() - 1])
    }
}

/// Whether the fold of all items by their summaries is what one pass from the right answers.
fn is_folded(answer: Result<Vec<i64>, Stop>, wanted: Result<Elem, Fault>) -> bool {
    match (answer, wanted) {
        (Ok(folds), Ok(Elem::Int(wanted))) => folds.as_slice() == [wanted].as_slice(),
        (Err(Stop::Fault { place, fault }), Err(wanted)) => place == 0 && fault == wanted,
        _ => false,
    }
}

/// A piece ends after each place whose bit is set.
#[derive(Clone, Copy, Drop)]
struct Masked(u64);

impl Cut for Masked {
    fn first(&self, start: usize, rest: usize) -> usize {
        let passed = u32::try_from(start).unwrap_or(u64::BITS);
        let ends = self.0.checked_shr(passed).unwrap_or(0);
        rest.min(ends.trailing_zeros() as usize + 1)
    }
}

/// Whether one worker, or three who share the items by a schedule, have what is wanted of each cutting of the items.
fn every_nesting_agrees<R: Threads + Sync>(
    rt: &R,
    alloc: Global,
    shared: Option<Schedule>,
    f: Prim,
    items: &[i64],
    wanted: Result<Elem, Fault>,
) -> bool
    requires summary { has_summary f ≡ true }
    requires few { length items.now ≤ 8 }
{
    if items.len() < 2 {
        return true;
    }
    let mut agree = true;
    for mask in 0..1u64 << (items.len() - 2) {
        let pool = match shared {
            None => Pool::new(1, Masked(mask), Open),
            Some(schedule) => Pool::with(3, schedule, Masked(mask), Open),
        };
        let workers = Workers {
            rt,
            alloc,
            pool: &pool,
        };
        agree &= is_folded(fold_rows(&workers, f, &AllButLast { items }), wanted);
    }
    agree
}

/// Whether each cutting of the items gives what one pass from the right gives: by one worker, and by three where they share them.
fn every_cutting_agrees<R: Threads + Sync>(
    rt: &R,
    alloc: Global,
    f: Prim,
    items: &[i64],
    is_shared: bool,
) -> bool {
    if !f.is_dyadic() || !has_summary(f) || items.len() > 8 {
        return false;
    }
    let wanted = one_pass(f, items);
    let alone = every_nesting_agrees(rt, alloc, None, f, items, wanted);
    if !is_shared {
        return alone;
    }
    let claimed = every_nesting_agrees(rt, alloc, Some(Schedule::Claims), f, items, wanted);
    let taken = every_nesting_agrees(rt, alloc, Some(Schedule::Deques), f, items, wanted);
    alone && claimed && taken
}

/// A thousand lists by one worker, and some by three.
#[test]
fn random_folds(rt: HostRuntime) -> Result<(), Fail> {
    let alloc = rt.alloc();
    let mut random = Random { state: 1968 };
    for round in 0..1000u32 {
        let items = random.numbers(alloc)?;
        for f in FUNCTIONS {
            assert!(rt; every_cutting_agrees(&rt, alloc, f, items.as_slice(), round % 20 == 0));
        }
    }
    Ok(())
}

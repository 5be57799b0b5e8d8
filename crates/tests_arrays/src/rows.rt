//! Folds of several rows at once.
ghost use Rattle.std.specs.Prelude.{◌*◌, ◌≤◌, length};
ghost use Rattle.apl_pool.specs.declared.kernel.TheConstants.{MOST_PLACES};

use apl_pool::{
    Every, Fault, MOST_PLACES, Open, Pool, RowSummaries, Rows, Schedule, Stop, Summary, Workers,
};
use apl_scalar::Prim;
use apl_summary::{FoldedRows, SignedSum, fold_rows};
use std::test::Fail;

/// The number 1 at each place of each row, but a fault at one place, and what comes in to each row.
#[derive(Drop)]
struct Ones<'a> {
    rows: usize,
    count: usize,
    /// The row and the place that have a fault.
    faulty: (usize, usize),
    incoming: &'a [Result<i64, Fault>],
    ghost all: { rows * count ≤ MOST_PLACES },
    ghost most: { count ≤ MOST_PLACES },
    ghost each: { rows ≤ length incoming.now },
}

impl Rows for Ones<'_> {
    ghost use Rattle.std.specs.Prelude.{nat_eq, pos, Ok, Err, if◌then◌else◌};
    ghost use Rattle.apl_pool.specs.declared.kernel.Fault.TheVariants.{Domain};

    type Out = i64;

    ghost row_count = { λ r. r.rows };

    ghost place_count = { λ r. r.count };

    ghost outcome = { λ r row place. if nat_eq row r.faulty.0 then (if nat_eq place r.faulty.1 then Err Domain else Ok (pos 1)) else Ok (pos 1) };

    fn rows(&self) -> usize {
        self.rows
    }

    fn count(&self) -> usize {
        self.count
    }

    fn at(&self, row: usize, place: usize) -> Result<i64, Fault> {
        if row == self.faulty.0 {
            if place == self.faulty.1 {
                return Err(Fault::Domain);
            }
        }
        Ok(1)
    }
}

impl FoldedRows for Ones<'_> {
    ghost use Rattle.std.specs.Prelude.{Err, slice_index_or};
    ghost use Rattle.apl_pool.specs.declared.kernel.Fault.TheVariants.{Domain};

    ghost incoming = { λ r row. slice_index_or r.incoming.now row (Err Domain) };

    fn incoming(&self, row: usize) -> Result<i64, Fault> {
        self.incoming[row]
    }
}

/// A row or a place that no rows have.
const NOWHERE: usize = MOST_PLACES;

/// Rows of a function: how many places each has, the place of a fault, and what comes in to each row. Then the folds, or why there are
/// none.
type Case = (
    Prim,
    usize,
    (usize, usize),
    [Result<i64, Fault>; 3],
    Result<[i64; 3], Stop>,
);

#[test]
fn folds_of_rows(rt: HostRuntime) -> Result<(), Fail> {
    let alloc = rt.alloc();
    let (plus, minus) = (Prim::Plus, Prim::Minus);
    let none = (NOWHERE, NOWHERE);
    let some = [Ok(0), Ok(10), Ok(20)];
    let limit = Err(Fault::Limit);
    let stop = |place, fault| Err(Stop::Fault { place, fault });
    let cases: [Case; 9] = [
        (plus, 4, none, some, Ok([4, 14, 24])),
        (minus, 4, none, some, Ok([0, 10, 20])),
        (minus, 5, none, some, Ok([1, -9, -19])),
        (plus, 10_000, none, some, Ok([10_000, 10_010, 10_020])),
        (plus, 4, (1, 2), some, stop(1, Fault::Domain)),
        (
            plus,
            4,
            (1, 2),
            [Ok(0), limit, limit],
            stop(1, Fault::Domain),
        ),
        (
            plus,
            4,
            (2, 3),
            [Ok(0), limit, Ok(0)],
            stop(1, Fault::Limit),
        ),
        (
            plus,
            4,
            (1, 0),
            [Ok(i64::MAX - 3), Ok(0), Ok(0)],
            stop(0, Fault::Limit),
        ),
        (
            plus,
            4,
            none,
            [Ok(i64::MAX - 4), Ok(0), Ok(i64::MIN)],
            Ok([i64::MAX, 4, i64::MIN + 4]),
        ),
    ];
    for schedule in [Schedule::Claims, Schedule::Deques] {
        for (workers, piece) in [(1u8, 4096), (2, 1), (3, 3), (4, 4096), (64, 100)] {
            let pool = Pool::with(workers, schedule, Every(piece), Open);
            let workers = Workers {
                rt: &rt,
                alloc,
                pool: &pool,
            };
            for (function, count, faulty, incoming, wanted) in cases {
                let rows = Ones {
                    rows: 3,
                    count,
                    faulty,
                    incoming: incoming.as_slice(),
                };
                let folds = fold_rows(&workers, function, &rows);
                let is_wanted = match (folds, wanted) {
                    (Ok(folds), Ok(numbers)) => folds.as_slice() == numbers.as_slice(),
                    (Err(stop), Err(wanted)) => stop == wanted,
                    _ => false,
                };
                assert!(rt; is_wanted);
            }
        }
    }
    Ok(())
}

//! Arrays that a pool fills from small kernels, by several workers.
ghost use Rattle.std.specs.Prelude.{◌≤◌};
ghost use Rattle.apl_pool.specs.declared.kernel.TheConstants.{MOST_PLACES};

use crate::notation::{array_of, held_characters, held_numbers, held_truths};
use apl_answer::{
    OpFault, answer_is_each_outcome, answer_is_in_range, answer_is_within_limits, fill_array,
    numbers_of,
};
use apl_array::{Array, Shape};
use apl_pool::{Every, Fault, Kernel, MOST_PLACES, Open, Pool, Workers};
use std::alloc::Global;
use std::test::Fail;

/// At each place below the count its number, but a fault from `limit` on.
#[derive(Drop)]
struct PlaceNumbers {
    count: usize,
    limit: usize,
    ghost few: { count ≤ MOST_PLACES },
}

impl Kernel for PlaceNumbers {
    ghost use Rattle.std.specs.Prelude.{pos, nat_lt, Ok, Err, if◌then◌else◌};
    ghost use Rattle.apl_pool.specs.declared.kernel.Fault.TheVariants.{Limit};

    type Out = i64;

    ghost place_count = { λ k. k.count };

    ghost outcome = { λ k place. if nat_lt place k.limit then Ok (pos place) else Err Limit };

    fn count(&self) -> usize {
        self.count
    }

    fn at(&self, place: usize) -> Result<i64, Fault> {
        if place < self.limit {
            Ok(place as i64)
        } else {
            Err(Fault::Limit)
        }
    }
}

/// True at every third place, from the first on.
#[derive(Drop)]
struct Thirds {
    count: usize,
    ghost few: { count ≤ MOST_PLACES },
}

impl Kernel for Thirds {
    ghost use Rattle.std.specs.Prelude.{◌%◌, nat_eq, Ok};

    type Out = bool;

    ghost place_count = { λ k. k.count };

    ghost outcome = { λ k place. Ok (nat_eq (place % 3) 0) };

    fn count(&self) -> usize {
        self.count
    }

    fn at(&self, place: usize) -> Result<bool, Fault> {
        Ok(place % 3 == 0)
    }
}

/// At each place the letter A, but B at the last place of four.
#[derive(Drop)]
struct Letters;

impl Kernel for Letters {
    ghost use Rattle.std.specs.Prelude.{nat_lt, Ok, if◌then◌else◌};

    type Out = char;

    ghost place_count = { λ k. 4 };

    ghost outcome = { λ k place. if nat_lt place 3 then Ok 65 else Ok 66 };

    fn count(&self) -> usize {
        4
    }

    fn at(&self, place: usize) -> Result<char, Fault> {
        if place < 3 { Ok('A') } else { Ok('B') }
    }
}

/// Whether an answer is what is wanted: the shape and the numbers of an array as text, or the fault.
fn is_answer(alloc: Global, answer: Result<Array, OpFault>, wanted: Result<&str, OpFault>) -> bool {
    match (answer, wanted) {
        (Ok(array), Ok(text)) => array_of(alloc, text).is_some_and(|wanted| {
            array.shape().lengths() == wanted.shape().lengths()
                && held_numbers(&array) == held_numbers(&wanted)
        }),
        (Err(fault), Err(wanted)) => fault == wanted,
        _ => false,
    }
}

#[test]
fn numbers(rt: HostRuntime) -> Result<(), Fail> {
    let rows: [(&[usize], usize, Result<&str, OpFault>); 5] = [
        (&[2, 3], 6, Ok("2 3: 0 1 2 3 4 5")),
        (&[], 1, Ok(": 0")),
        (&[3, 0], 0, Ok("3 0:")),
        (&[2, 3], 5, Err(OpFault::Limit)),
        (&[6], 0, Err(OpFault::Limit)),
    ];
    for workers in [1, 3, 64u8] {
        let pool = Pool::new(workers, Every(2), Open);
        let workers = Workers {
            rt: &rt,
            alloc: rt.alloc(),
            pool: &pool,
        };
        for (lengths, limit, wanted) in rows {
            let shape = Shape::new(rt.alloc(), lengths)?;
            let count = shape.count();
            let answer = fill_array(&workers, shape, &PlaceNumbers { count, limit });
            assert!(rt;
                is_answer(rt.alloc(), answer, wanted),
                "{lengths:?} {limit}"
            );
        }
    }
    answer_is_each_outcome();
    answer_is_in_range();
    answer_is_within_limits();
    Ok(())
}

#[test]
fn characters(rt: HostRuntime) -> Result<(), Fail> {
    let shape = Shape::new(rt.alloc(), &[2, 2])?;
    if shape.count() != 4 {
        return Err(Fail::new("two rows of two are four"));
    }
    let pool = Pool::new(2, Every(1), Open);
    let workers = Workers {
        rt: &rt,
        alloc: rt.alloc(),
        pool: &pool,
    };
    let text = fill_array(&workers, shape, &Letters)?;
    assert!(rt; held_characters(&text) == Some(['A', 'A', 'A', 'B'].as_slice()));
    Ok(())
}

/// Whether these are truth values of which every third is true, from the first on, and as many as these are.
fn are_thirds(truths: &[bool], count: usize, thirds: usize) -> bool {
    let each = truths
        .iter()
        .enumerate()
        .all(|(place, truth)| *truth == (place % 3 == 0));
    each && truths.len() == count && truths.iter().filter(|truth| **truth).count() == thirds
}

/// An array of truth values, and the numbers that are made of it.
#[test]
fn truth_values(rt: HostRuntime) -> Result<(), Fail> {
    let rows: [(&[usize], usize); 4] = [(&[2, 4], 3), (&[], 1), (&[0], 0), (&[100_000], 33_334)];
    for (lengths, thirds) in rows {
        let shape = Shape::new(rt.alloc(), lengths)?;
        let count = shape.count();
        let pool = Pool::new(3, Every(1024), Open);
        let workers = Workers {
            rt: &rt,
            alloc: rt.alloc(),
            pool: &pool,
        };
        let array = fill_array(&workers, shape, &Thirds { count })?;
        let truths = held_truths(&array).ok_or("no truth values")?;
        assert!(rt; are_thirds(truths, count, thirds), "{lengths:?}");
        let numbers = numbers_of(&workers, &array)?.ok_or("no numbers")?;
        let each = numbers
            .as_slice()
            .iter()
            .enumerate()
            .all(|(place, number)| *number == i64::from(place % 3 == 0));
        assert!(rt; each && numbers.as_slice().len() == count, "{lengths:?}");
    }
    Ok(())
}

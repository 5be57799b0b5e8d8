//! How often each piece passes the gate, and the answers of small kernels.
ghost use Rattle.std.specs.Prelude.{◌≤◌};
ghost use Rattle.apl_pool.specs.declared.kernel.TheConstants.{MOST_PLACES};

use apl_pool::{
    Cut, Every, Fault, Gate, Kernel, MOST_PLACES, Open, Pool, Schedule, Stop, Thrifty, Workers,
    fill, write_values,
};
use std::sync::atomic::{AtomicU64, Ordering};
use std::test::Fail;

/// At each place below the count its number, but a fault from `limit` on.
#[derive(Drop)]
pub(super) struct Numbers {
    pub(super) count: usize,
    pub(super) limit: usize,
    ghost few: { count ≤ MOST_PLACES },
}

impl Kernel for Numbers {
    ghost use Rattle.std.specs.Prelude.{pos, nat_lt, Ok, Err, if◌then◌else◌};
    ghost use Rattle.apl_pool.specs.declared.kernel.Fault.{Fault};
    ghost use Rattle.apl_pool.specs.declared.kernel.Fault.TheVariants.{Limit};

    type Out = i64;

    ghost place_count = { λ k. k.count };

    ghost outcome = { λ k place. if nat_lt place k.limit then Ok (pos place) else Err Limit };

    fn count(&self) -> usize {
        self.count
    }

    fn at(&self, place: usize) -> Result<i64, Fault> {
        if place < self.limit {
            Ok(place as i64)
        } else {
            Err(Fault::Limit)
        }
    }
}

/// The same, with runs of one place up to `runs`.
#[derive(Drop)]
struct Singles {
    numbers: Numbers,
    runs: usize,
}

impl Kernel for Singles {
    ghost use Rattle.std.specs.Prelude.{pos, nat_lt, Ok, Err, if◌then◌else◌};
    ghost use Rattle.apl_pool.specs.declared.kernel.Fault.TheVariants.{Limit};

    type Out = i64;

    ghost place_count = { λ k. k.numbers.count };

    ghost outcome = { λ k place. if nat_lt place k.numbers.limit then Ok (pos place) else Err Limit };

    fn count(&self) -> usize {
        self.numbers.count
    }

    fn at(&self, place: usize) -> Result<i64, Fault> {
        self.numbers.at(place)
    }

    fn write_run(&self, from: usize, to: usize, room: &mut [i64]) -> usize {
        if from == to || from >= self.runs || from >= self.numbers.limit {
            return from;
        }
        room[0] = from as i64;
        from + 1
    }
}

/// A fault at every place of the most places that there are. Room for all values would be 8 TiB.
#[derive(Drop)]
struct Refusing;

impl Kernel for Refusing {
    ghost use Rattle.std.specs.Prelude.{Err};
    ghost use Rattle.apl_pool.specs.declared.kernel.Fault.TheVariants.{Domain};
    ghost use Rattle.apl_pool.specs.declared.kernel.TheConstants.{MOST_PLACES};

    type Out = [u64; 1024];

    ghost place_count = { λ k. MOST_PLACES };

    ghost outcome = { λ k place. Err Domain };

    fn count(&self) -> usize {
        MOST_PLACES
    }

    fn at(&self, _place: usize) -> Result<[u64; 1024], Fault> {
        Err(Fault::Domain)
    }
}

/// Whether each place has its number.
pub(super) fn are_places(values: &[i64]) -> bool {
    values
        .iter()
        .enumerate()
        .all(|(place, value)| place as i64 == *value)
}

#[test]
fn all_places_have_values(rt: HostRuntime) -> Result<(), Fail> {
    for workers in [1, 2, 3, 64u8] {
        for piece in [0, 1, 2, 3, 4096, usize::MAX] {
            let kernel = Numbers { count: 7, limit: 7 };
            let values = Pool::new(workers, Every(piece), Open).fill(&rt, rt.alloc(), &kernel)?;
            assert!(rt; values.as_slice() == [0, 1, 2, 3, 4, 5, 6].as_slice());
        }
    }
    let none = Numbers { count: 0, limit: 0 };
    let values = Pool::new(4, Every(1), Open).fill(&rt, rt.alloc(), &none)?;
    assert!(rt; values.is_empty());
    Ok(())
}

#[test]
fn the_least_fault_is_the_answer(rt: HostRuntime) -> Result<(), Fail> {
    for workers in [1, 2, 3, 64u8] {
        for piece in [0, 1, 2, 3, 4096, usize::MAX] {
            let kernel = Numbers { count: 7, limit: 3 };
            let answer = Pool::new(workers, Every(piece), Open).fill(&rt, rt.alloc(), &kernel);
            let stop = Stop::Fault {
                place: 3,
                fault: Fault::Limit,
            };
            assert!(rt; answer.err() == Some(stop));
        }
    }
    Ok(())
}

/// The values from a place on are written up to the first fault or the last place, wherever the runs end.
#[test]
fn values_are_written_up_to_a_fault(rt: HostRuntime) -> Result<(), Fail> {
    for (from, count, limit, runs, written) in [
        (0usize, 0, 9, 9, 0),
        (0, 7, 9, 0, 7),
        (0, 9, 9, 4, 9),
        (2, 11, 5, 9, 3),
        (3, 12, 3, 9, 0),
        (4, 13, 3, 0, 0),
        (0, 100_000, 100_000, 50_000, 100_000),
        (5, 100_005, 100_004, 0, 99_999),
        (1, 100_001, 50_001, 70_000, 50_000),
        (1, 100_001, 70_002, 50_000, 70_001),
    ] {
        let count = count.min(MOST_PLACES);
        let from = from.min(count);
        let kernel = Singles {
            numbers: Numbers { count, limit },
            runs,
        };
        let mut room = vec![in rt.alloc(); -1; count - from]?;
        let end = match write_values(&kernel, from, count, room.as_mut_slice()) {
            Ok(()) => count,
            Err(first) if first.fault == Fault::Limit => first.place,
            Err(_) => count + 1,
        };
        let mut values = room.iter().take(written).enumerate();
        assert!(rt;
            end - from == written && values.all(|(k, value)| from.wrapping_add(k) as i64 == *value)
        );
    }
    Ok(())
}

/// Whatever the numbers of a kept list were, they are those of the kernel then, or the least fault is the answer.
#[test]
fn a_kept_list_is_written_over(rt: HostRuntime) -> Result<(), Fail> {
    let alloc = rt.alloc();
    for workers in [1, 2, 3, 64u8] {
        for (count, piece) in [
            (0, 1),
            (7, 2),
            (5000, 4096),
            (100_000, 4096),
            (100_000, 33_000),
        ] {
            let pool = Pool::new(workers, Every(piece), Open);
            let workers = Workers {
                rt: &rt,
                alloc,
                pool: &pool,
            };
            let whole = Numbers {
                count,
                limit: count,
            };
            pool.kept().keep(vec![in alloc; 9i64; count + count / 10]?);
            let values = fill(&workers, &whole)?;
            let is_used = !pool.kept().give_back();
            assert!(rt; is_used && values.len() == count && are_places(values.as_slice()));
            let faulty = Numbers {
                count,
                limit: count / 2,
            };
            pool.kept().keep(values);
            let fault = match fill(&workers, &faulty) {
                Err(Stop::Fault { place, .. }) => Some(place as usize),
                _ => None,
            };
            let wanted = if count == 0 { None } else { Some(count / 2) };
            assert!(rt; fault == wanted);
        }
    }
    Ok(())
}

#[test]
fn several_workers_share_several_pieces(rt: HostRuntime) {
    for (workers, piece, count, wanted) in [
        (1u8, 1, 5, false),
        (2, 5, 5, false),
        (2, 4, 5, true),
        (64, 1, 2, true),
        (64, 1, 1, false),
        (3, 1, 0, false),
        (4, 4096, 1 << 30, true),
    ] {
        let pool = Pool::new(workers, Every(piece), Open);
        assert!(rt; pool.workers() == workers && pool.is_shared(count, count) == wanted);
    }
    for (workers, piece, work, wanted) in [
        (4u8, 4096, 0, false),
        (4, 4096, 393_215, false),
        (4, 4096, 393_216, true),
        (2, 4096, 393_216, true),
        (1, 4096, 393_216, false),
        (4, 4095, 2, true),
    ] {
        let pool = Pool::new(workers, Thrifty(piece), Open);
        assert!(rt; pool.is_shared(5000, work) == wanted);
    }
}

/// No room is taken for the values where the first place has a fault.
#[test]
fn a_refusal_takes_no_room(rt: HostRuntime) -> Result<(), Fail> {
    for workers in [1, 64u8] {
        let answer = Pool::new(workers, Every(1), Open).fill(&rt, rt.alloc(), &Refusing);
        let stop = Stop::Fault {
            place: 0,
            fault: Fault::Domain,
        };
        assert!(rt; answer.err() == Some(stop));
    }
    Ok(())
}

/// Pieces of 3, 1, 2 and what is left.
#[derive(Drop)]
struct Uneven;

impl Cut for Uneven {
    fn first(&self, start: usize, rest: usize) -> usize {
        match start {
            0 => 3,
            3 => 1,
            4 => 2,
            _ => rest,
        }
    }
}

/// How often each of four pieces passed.
#[derive(Drop)]
struct Noting {
    passed: [AtomicU64; 4],
}

impl Noting {
    fn new() -> Noting {
        Noting {
            passed: [
                AtomicU64::new(0),
                AtomicU64::new(0),
                AtomicU64::new(0),
                AtomicU64::new(0),
            ],
        }
    }

    /// How often each piece passed.
    fn times(&self) -> [u64; 4] {
        [
            self.passed[0].load(Ordering::SeqCst),
            self.passed[1].load(Ordering::SeqCst),
            self.passed[2].load(Ordering::SeqCst),
            self.passed[3].load(Ordering::SeqCst),
        ]
    }
}

impl Gate for Noting {
    fn pass(&self, _worker: u8, piece: u32) {
        if let Some(note) = self.passed.get(piece as usize) {
            note.fetch_add(1, Ordering::SeqCst);
        }
    }
}

/// Each of 3 pieces passes once, whoever takes it. One piece is the last worker's, by the caller's own thread, and so is each of
/// one worker.
#[test]
fn each_piece_passes_once(rt: HostRuntime) -> Result<(), Fail> {
    for schedule in [Schedule::Claims, Schedule::Deques] {
        for (workers, piece, wanted) in [
            (1u8, 2, [1, 1, 1, 0]),
            (2, 2, [1, 1, 1, 0]),
            (3, 2, [1, 1, 1, 0]),
            (5, 2, [1, 1, 1, 0]),
            (64, 2, [1, 1, 1, 0]),
            (4, usize::MAX, [1, 0, 0, 0]),
        ] {
            let noting = Noting::new();
            let kernel = Numbers { count: 5, limit: 5 };
            let pool = Pool::with(workers, schedule, Every(piece), &noting);
            let values = pool.fill(&rt, rt.alloc(), &kernel)?;
            assert!(rt;
                values.as_slice() == [0, 1, 2, 3, 4].as_slice() && noting.times() == wanted
            );
        }
    }
    Ok(())
}

/// Of 3 pieces the second has a fault. Several workers begin it once, and the caller begins it once more at the end; the third one may
/// be left out. One worker passes all three before it writes their places in one stretch.
#[test]
fn a_faulty_piece_passes_twice(rt: HostRuntime) {
    let stop = Stop::Fault {
        place: 3,
        fault: Fault::Limit,
    };
    for schedule in [Schedule::Claims, Schedule::Deques] {
        for (workers, second) in [(1u8, 1), (2, 2), (3, 2), (64, 2)] {
            let noting = Noting::new();
            let kernel = Numbers { count: 5, limit: 3 };
            let pool = Pool::with(workers, schedule, Every(2), &noting);
            let answer = pool.fill(&rt, rt.alloc(), &kernel);
            let [before, faulty, behind, none] = noting.times();
            assert!(rt;
                answer.err() == Some(stop)
                    && (before, faulty, none) == (1, second, 0)
                    && behind <= 1,
                "{workers} workers"
            );
        }
    }
}

#[test]
fn pieces_may_be_uneven(rt: HostRuntime) -> Result<(), Fail> {
    let noting = Noting::new();
    let kernel = Numbers { count: 9, limit: 9 };
    let values = Pool::new(3, Uneven, &noting).fill(&rt, rt.alloc(), &kernel)?;
    assert!(rt;
        values.as_slice() == [0, 1, 2, 3, 4, 5, 6, 7, 8].as_slice()
            && noting.times() == [1, 1, 1, 1]
    );
    Ok(())
}

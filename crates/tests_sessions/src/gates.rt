//! Work is done by two workers at once: of places, of functions of arrays, and of lines.
ghost use Rattle.std.specs.Prelude.{◌<◌, ◌≤◌};
ghost use Rattle.apl_pool.specs.declared.kernel.TheConstants.{MOST_PLACES};
ghost use Rattle.apl_pool.specs.declared.pool.TheConstants.{MOST_WORKERS};
ghost use Rattle.tests_sessions.specs.declared.gates.TheConstants.{LONGEST};

use crate::doors::{Door, Meeting};
use crate::pools::{Numbers, are_places};
use crate::transcripts::{Table, lines_of};
use apl_pool::{Every, Fault, Gate, Kernel, MOST_PLACES, Pool, Schedule, Summary};
use apl_print::MemorySink;
use apl_session::{BLOCK, Next, Session};
use apl_summary::SignedSum;
use std::alloc::{AllocError, Global};
use std::sync::atomic::{AtomicU64, Ordering};
use std::test::Fail;
use std::thread::Threads;

/// The number 1 at each place.
#[derive(Drop)]
pub(super) struct AllOnes {
    pub(super) count: usize,
    ghost few: { count ≤ MOST_PLACES },
}

impl Kernel for AllOnes {
    ghost use Rattle.std.specs.Prelude.{pos, Ok};

    type Out = i64;

    ghost place_count = { λ k. k.count };

    ghost outcome = { λ k place. Ok (pos 1) };

    fn count(&self) -> usize {
        self.count
    }

    fn at(&self, _place: usize) -> Result<i64, Fault> {
        Ok(1)
    }
}

/// Half as many places as the largest arrays of the sessions here have.
const HALF: usize = 1 << 19;

/// As many places as the longest pieces here have.
const LONGEST: usize = 1 << 21;

/// Two of at most four pieces are each held at the gate until the other one has come there. It notes who came with each piece.
#[derive(Drop)]
struct Holding {
    pair: [usize; 2],
    come: [AtomicU64; 4],
    met: AtomicU64,
}

impl Holding {
    fn new(pair: [usize; 2]) -> Holding {
        Holding {
            pair,
            come: [
                AtomicU64::new(0),
                AtomicU64::new(0),
                AtomicU64::new(0),
                AtomicU64::new(0),
            ],
            met: AtomicU64::new(0),
        }
    }

    /// The number of the worker who came with a piece last, and 1 more. It is 0 where none came.
    fn comer(&self, piece: usize) -> u64 {
        match self.come.get(piece) {
            Some(here) => here.load(Ordering::SeqCst),
            None => 0,
        }
    }

    /// Whether both held pieces went on, with different workers, and with these where they are known. A worker's number is 1 more here too.
    fn met(&self, workers: Option<(u64, u64)>) -> bool {
        let [first, second] = self.pair;
        let one = self.comer(first);
        let other = self.comer(second);
        let are_known = match workers {
            Some(known) => (one, other) == known,
            None => one != other,
        };
        are_known && self.met.load(Ordering::SeqCst) == 2
    }
}

impl Gate for Holding {
    fn pass(&self, worker: u8, piece: u32) {
        let piece = piece as usize;
        if let Some(here) = self.come.get(piece) {
            here.store(u64::from(worker) + 1, Ordering::SeqCst);
        }
        let [first, second] = self.pair;
        if piece != first && piece != second {
            return;
        }
        let awaited = if piece == first { second } else { first };
        for _ in 0..2_000_000_000u64 {
            if self.comer(awaited) > 0 {
                self.met.fetch_add(1, Ordering::SeqCst);
                return;
            }
        }
    }
}

/// A pass over some pieces of one length, two of which are held. It says who has these, where that is known.
#[derive(Clone, Copy)]
struct Held {
    workers: u8,
    schedule: Schedule,
    pieces: usize,
    length: usize,
    pair: [usize; 2],
    known: Option<(u64, u64)>,
    ghost some_worker: { 0 < workers },
    ghost few_workers: { workers ≤ MOST_WORKERS },
    ghost some_pieces: { 0 < pieces },
    ghost few_pieces: { pieces ≤ 4 },
    ghost some: { 0 < length },
    ghost short: { length ≤ LONGEST },
}

impl Held {
    /// Fills the places, and says whether each has its value, and both held pieces went on.
    fn fills<R: Threads + Sync>(&self, rt: &R, alloc: Global) -> Result<bool, Fail> {
        let holding = Holding::new(self.pair);
        let count = self.pieces * self.length;
        let kernel = Numbers {
            count,
            limit: count,
        };
        let pool = Pool::with(self.workers, self.schedule, Every(self.length), &holding);
        let values = pool.fill(rt, alloc, &kernel)?;
        let has_values = values.len() == count && are_places(values.as_slice());
        Ok(has_values && holding.met(self.known))
    }

    /// Sums the places, and says whether each was summed, and both held pieces went on.
    fn folds<R: Threads + Sync>(&self, rt: &R, alloc: Global) -> Result<bool, Fail> {
        let holding = Holding::new(self.pair);
        let ones = AllOnes {
            count: self.pieces * self.length,
        };
        let pool = Pool::with(self.workers, self.schedule, Every(self.length), &holding);
        let sum: SignedSum<0> = pool.fold(rt, alloc, &ones)?;
        let is_whole = sum.apply(0) == Ok((self.pieces * self.length) as i64);
        Ok(is_whole && holding.met(self.known))
    }
}

/// Each of two pieces waits for the other one, so they come to two workers, also of the first two of four.
#[test]
fn gate_two(rt: HostRuntime) -> Result<(), Fail> {
    for schedule in [Schedule::Claims, Schedule::Deques] {
        for (workers, pieces, length) in [
            (2, 2, 1),
            (2, 2, LONGEST),
            (2, 4, 1000),
            (3, 2, 1),
            (64, 2, 1000),
            (64, 4, 1),
        ] {
            let held = Held {
                workers,
                schedule,
                pieces,
                length,
                pair: [0, 1],
                known: None,
            };
            assert!(rt; held.fills(&rt, rt.alloc())? && held.folds(&rt, rt.alloc())?);
        }
    }
    Ok(())
}

/// Worker w of m begins with the pieces from w × p / m on, rounded down. So the first and the last of four pieces are those of two
/// workers. Where there are more workers than pieces, it is known which have one.
#[test]
fn gate_deal(rt: HostRuntime) -> Result<(), Fail> {
    for (workers, pieces, pair, known) in [
        (2, 4, [0, 3], (1, 2)),
        (3, 2, [0, 1], (2, 3)),
        (64, 2, [0, 1], (32, 64)),
    ] {
        for length in [1, 1000] {
            let held = Held {
                workers,
                schedule: Schedule::Deques,
                pieces,
                length,
                pair,
                known: Some(known),
            };
            assert!(rt; held.fills(&rt, rt.alloc())? && held.folds(&rt, rt.alloc())?);
        }
    }
    Ok(())
}

/// Functions of the elements of `A`, which are all 1, and what they are for two of them.
const FUNCTIONS: &str = r"
    +A → 1 1⏎
    -A → ¯1 ¯1⏎
    ×A → 1 1⏎
    ÷A → 1 1⏎
    |A → 1 1⏎
    !A → 1 1⏎
    ⌊A → 1 1⏎
    ⌈A → 1 1⏎
    ~A → 0 0⏎
    A+A → 2 2⏎
    A-A → 0 0⏎
    A×A → 1 1⏎
    A÷A → 1 1⏎
    A|A → 0 0⏎
    A*A → 1 1⏎
    A!A → 1 1⏎
    A⌊A → 1 1⏎
    A⌈A → 1 1⏎
    A∧A → 1 1⏎
    A∨A → 1 1⏎
    A⍲A → 0 0⏎
    A⍱A → 0 0⏎
    A<A → 0 0⏎
    A≤A → 1 1⏎
    A=A → 1 1⏎
    A≥A → 1 1⏎
    A>A → 0 0⏎
    A≠A → 0 0⏎
    ";

/// What the structural functions get: numbers of axis lengths, no elements, and one row of all elements of `A`.
const ARGUMENTS: &str = "Z←T⍴''\nM←S⍴A\n";

/// Structural functions of `A`, whose elements are all 1, and of its count `N`. `M` is its elements as a row, of shape `S`, and `Z` has no
/// row. Each result has as many elements as `A`; here is what it is for two of them.
const STRUCTURES: &str = r"
    S⍴A → 1 1⏎
    N⍴3 → 3 3⏎
    ,M → 1 1⏎
    ⍳N → 1 2⏎
    ⌽A → 1 1⏎
    ⌽M → 1 1⏎
    ⌽[1]M → 1 1⏎
    ⊖A → 1 1⏎
    ⊖M → 1 1⏎
    ⊖[2]M → 1 1⏎
    ⍉A → 1 1⏎
    ⍉M → 1⏎1⏎
    ⍋A → 1 2⏎
    ⍒A → 1 2⏎
    A,'' → 1 1⏎
    '',A → 1 1⏎
    M,[1]Z → 1 1⏎
    Z,[1]A → 1 1⏎
    A⍳A → 1 1⏎
    A⍳M → 1 1⏎
    A∊A → 1 1⏎
    M∊3 → 0 0⏎
    N↑A → 1 1⏎
    N↑'' →   ⏎
    S↑M → 1 1⏎
    0↓A → 1 1⏎
    0 0↓M → 1 1⏎
    1⌽A → 1 1⏎
    1⌽[1]M → 1 1⏎
    A⊖M → 1 1⏎
    1⊖[2]M → 1 1⏎
    1⍉A → 1 1⏎
    2 1⍉M → 1⏎1⏎
    A/A → 1 1⏎
    A/3 → 3 3⏎
    1/[1]M → 1 1⏎
    1⌿M → 1 1⏎
    A⌿[2]M → 1 1⏎
    A\A → 1 1⏎
    1\[1]M → 1 1⏎
    1⍀M → 1 1⏎
    A⍀[2]M → 1 1⏎
    A[A] → 1 1⏎
    A[] → 1 1⏎
    M[1;] → 1 1⏎
    M[;A] → 1 1⏎
    M[;] → 1 1⏎
    (M)[A;1] → 1 1⏎
    A[A]←A →
    ";

/// What the reductions get: some items for each element of `A`, as rows and as columns.
const ITEMS: &str = "C←V⍴A\nD←W⍴A\n";

/// Reductions and products of `A`, whose elements are all 1, by each function. Each has as many elements as `A`; here is what it
/// is for two of them and three items, as many as `R` has.
const REDUCTIONS: &str = r"
    +/D → 3 3⏎
    +⌿C → 3 3⏎
    +/[1]C → 3 3⏎
    +⌿[2]D → 3 3⏎
    A∘.+1 → 2 2⏎
    D+.×R → 3 3⏎
    -/D → 1 1⏎
    -⌿C → 1 1⏎
    -/[1]C → 1 1⏎
    -⌿[2]D → 1 1⏎
    A∘.-1 → 0 0⏎
    D-.×R → 1 1⏎
    ×/D → 1 1⏎
    ×⌿C → 1 1⏎
    ×/[1]C → 1 1⏎
    ×⌿[2]D → 1 1⏎
    A∘.×1 → 1 1⏎
    D×.×R → 1 1⏎
    ÷/D → 1 1⏎
    ÷⌿C → 1 1⏎
    ÷/[1]C → 1 1⏎
    ÷⌿[2]D → 1 1⏎
    A∘.÷1 → 1 1⏎
    D÷.×R → 1 1⏎
    |/D → 0 0⏎
    |⌿C → 0 0⏎
    |/[1]C → 0 0⏎
    |⌿[2]D → 0 0⏎
    A∘.|1 → 0 0⏎
    D|.×R → 0 0⏎
    */D → 1 1⏎
    *⌿C → 1 1⏎
    */[1]C → 1 1⏎
    *⌿[2]D → 1 1⏎
    A∘.*1 → 1 1⏎
    D*.×R → 1 1⏎
    !/D → 1 1⏎
    !⌿C → 1 1⏎
    !/[1]C → 1 1⏎
    !⌿[2]D → 1 1⏎
    A∘.!1 → 1 1⏎
    D!.×R → 1 1⏎
    ⌊/D → 1 1⏎
    ⌊⌿C → 1 1⏎
    ⌊/[1]C → 1 1⏎
    ⌊⌿[2]D → 1 1⏎
    A∘.⌊1 → 1 1⏎
    D⌊.×R → 1 1⏎
    ⌈/D → 1 1⏎
    ⌈⌿C → 1 1⏎
    ⌈/[1]C → 1 1⏎
    ⌈⌿[2]D → 1 1⏎
    A∘.⌈1 → 1 1⏎
    D⌈.×R → 1 1⏎
    ∧/D → 1 1⏎
    ∧⌿C → 1 1⏎
    ∧/[1]C → 1 1⏎
    ∧⌿[2]D → 1 1⏎
    A∘.∧1 → 1 1⏎
    D∧.×R → 1 1⏎
    ∨/D → 1 1⏎
    ∨⌿C → 1 1⏎
    ∨/[1]C → 1 1⏎
    ∨⌿[2]D → 1 1⏎
    A∘.∨1 → 1 1⏎
    D∨.×R → 1 1⏎
    ⍲/D → 1 1⏎
    ⍲⌿C → 1 1⏎
    ⍲/[1]C → 1 1⏎
    ⍲⌿[2]D → 1 1⏎
    A∘.⍲1 → 0 0⏎
    D⍲.×R → 1 1⏎
    ⍱/D → 0 0⏎
    ⍱⌿C → 0 0⏎
    ⍱/[1]C → 0 0⏎
    ⍱⌿[2]D → 0 0⏎
    A∘.⍱1 → 0 0⏎
    D⍱.×R → 0 0⏎
    </D → 0 0⏎
    <⌿C → 0 0⏎
    </[1]C → 0 0⏎
    <⌿[2]D → 0 0⏎
    A∘.<1 → 0 0⏎
    D<.×R → 0 0⏎
    ≤/D → 1 1⏎
    ≤⌿C → 1 1⏎
    ≤/[1]C → 1 1⏎
    ≤⌿[2]D → 1 1⏎
    A∘.≤1 → 1 1⏎
    D≤.×R → 1 1⏎
    =/D → 1 1⏎
    =⌿C → 1 1⏎
    =/[1]C → 1 1⏎
    =⌿[2]D → 1 1⏎
    A∘.=1 → 1 1⏎
    D=.×R → 1 1⏎
    ≥/D → 1 1⏎
    ≥⌿C → 1 1⏎
    ≥/[1]C → 1 1⏎
    ≥⌿[2]D → 1 1⏎
    A∘.≥1 → 1 1⏎
    D≥.×R → 1 1⏎
    >/D → 1 1⏎
    >⌿C → 1 1⏎
    >/[1]C → 1 1⏎
    >⌿[2]D → 1 1⏎
    A∘.>1 → 0 0⏎
    D>.×R → 1 1⏎
    ≠/D → 1 1⏎
    ≠⌿C → 1 1⏎
    ≠/[1]C → 1 1⏎
    ≠⌿[2]D → 1 1⏎
    A∘.≠1 → 0 0⏎
    D≠.×R → 1 1⏎
    2⊤A → 1 1⏎
    R+.×C → 3 3⏎
    ";

/// The functions whose folds are cut along the axis, of `F`, whose elements are all 1. They have one result; here is what it is for three
/// items.
const CUT_FOLDS: &str = r"
    +/F → 3⏎
    +⌿F → 3⏎
    +/[1]F → 3⏎
    +⌿[1]F → 3⏎
    -/F → 1⏎
    -⌿F → 1⏎
    -/[1]F → 1⏎
    -⌿[1]F → 1⏎
    ×/F → 1⏎
    ×⌿F → 1⏎
    ×/[1]F → 1⏎
    ×⌿[1]F → 1⏎
    ⌊/F → 1⏎
    ⌊⌿F → 1⏎
    ⌊/[1]F → 1⏎
    ⌊⌿[1]F → 1⏎
    ⌈/F → 1⏎
    ⌈⌿F → 1⏎
    ⌈/[1]F → 1⏎
    ⌈⌿[1]F → 1⏎
    ∧/F → 1⏎
    ∧⌿F → 1⏎
    ∧/[1]F → 1⏎
    ∧⌿[1]F → 1⏎
    ∨/F → 1⏎
    ∨⌿F → 1⏎
    ∨/[1]F → 1⏎
    ∨⌿[1]F → 1⏎
    ⍲/F → 1⏎
    ⍲⌿F → 1⏎
    ⍲/[1]F → 1⏎
    ⍲⌿[1]F → 1⏎
    ⍱/F → 0⏎
    ⍱⌿F → 0⏎
    ⍱/[1]F → 0⏎
    ⍱⌿[1]F → 0⏎
    </F → 0⏎
    <⌿F → 0⏎
    </[1]F → 0⏎
    <⌿[1]F → 0⏎
    ≤/F → 1⏎
    ≤⌿F → 1⏎
    ≤/[1]F → 1⏎
    ≤⌿[1]F → 1⏎
    =/F → 1⏎
    =⌿F → 1⏎
    =/[1]F → 1⏎
    =⌿[1]F → 1⏎
    ≥/F → 1⏎
    ≥⌿F → 1⏎
    ≥/[1]F → 1⏎
    ≥⌿[1]F → 1⏎
    >/F → 1⏎
    >⌿F → 1⏎
    >/[1]F → 1⏎
    >⌿[1]F → 1⏎
    ≠/F → 1⏎
    ≠⌿F → 1⏎
    ≠/[1]F → 1⏎
    ≠⌿[1]F → 1⏎
    ";

/// Answers a line, and says whether the session goes on after it. A line has no line feed.
fn goes_on<R: Threads + Sync>(
    rt: &R,
    alloc: Global,
    pool: &Pool<Every, Door>,
    session: &mut Session,
    line: &str,
    sink: &mut MemorySink,
) -> bool {
    if line.as_bytes().contains(&b'\n') {
        return false;
    }
    session.line(rt, alloc, pool, line.as_bytes(), sink) == Ok(Next::Go)
}

/// So many workers that each fold of numbers which can be cut is cut. The folds here are cut into two pieces, so two of them work.
const MANY: u8 = 9;

/// How often a line is answered before its two workers are taken not to meet. A busy machine may keep one of them waiting for seconds.
const TRIES: usize = 3;

/// Whether a line writes this text by so many workers and pieces of this length, and two workers meet at one of them.
fn meet_at<R: Threads + Sync>(
    rt: &R,
    alloc: Global,
    workers: u8,
    schedule: Schedule,
    piece: usize,
    session: &mut Session,
    line: &str,
    text: &str,
) -> bool
    requires some { 1 ≤ workers }
    requires most { workers ≤ MOST_WORKERS }
{
    for _ in 0..TRIES {
        let meeting = Meeting::new(workers);
        let pool = Pool::with(workers, schedule, Every(piece), Door::Meeting(&meeting));
        let mut sink = MemorySink::new(alloc, BLOCK, None);
        let is_answered = goes_on(rt, alloc, &pool, session, line, &mut sink);
        if !is_answered || sink.bytes() != text.as_bytes() {
            return false;
        }
        if meeting.met() > 0 {
            return true;
        }
    }
    false
}

/// Opens a session by some lines, and answers others by so many workers and pieces of this length. An error names the first of these that
/// wrote another text, or at which no two workers met.
fn meet_at_each<R: Threads + Sync>(
    rt: &R,
    alloc: Global,
    workers: u8,
    schedule: Schedule,
    piece: usize,
    opening: &str,
    rows: &[(String, String)],
) -> Result<(), Fail>
    requires some { 1 ≤ workers }
    requires most { workers ≤ MOST_WORKERS }
{
    let pool = Pool::with(workers, schedule, Every(piece), Door::Open);
    let mut session = Session::new(alloc);
    let mut sink = MemorySink::new(alloc, BLOCK, None);
    for line in opening.lines() {
        if !goes_on(rt, alloc, &pool, &mut session, line, &mut sink) {
            return Err(Fail::new(format_args!("{line}")));
        }
    }
    for (line, text) in rows {
        let (line, text) = (line.as_str(), text.as_str());
        if !meet_at(
            rt,
            alloc,
            workers,
            schedule,
            piece,
            &mut session,
            line,
            text,
        ) {
            return Err(Fail::new(format_args!("{line}")));
        }
    }
    Ok(())
}

/// As `meet_at_each`, under each schedule in turn.
fn meet_under_both<R: Threads + Sync>(
    rt: &R,
    alloc: Global,
    workers: u8,
    piece: usize,
    opening: &str,
    rows: &[(String, String)],
) -> Result<(), Fail>
    requires some { 1 ≤ workers }
    requires most { workers ≤ MOST_WORKERS }
{
    for schedule in [Schedule::Claims, Schedule::Deques] {
        meet_at_each(rt, alloc, workers, schedule, piece, opening, rows)?;
    }
    Ok(())
}

/// Lines that make `A` a vector of `count` ones, held as numbers, and then two texts.
fn ones(alloc: Global, count: usize, first: &str, second: &str) -> Result<String, AllocError> {
    let mut lines = String::from_str(alloc, "A←0+'x'='")?;
    for _ in 0..count {
        lines.push('x')?;
    }
    lines.push_str("'\n")?;
    lines.push_str(first)?;
    lines.push_str(second)?;
    Ok(lines)
}

/// A line of a table.
fn row(alloc: Global, line: &str, text: &str) -> Result<(String, String), AllocError> {
    Ok((
        String::from_str(alloc, line)?,
        String::from_str(alloc, text)?,
    ))
}

/// The lines of a table and what they write.
fn rows_of(alloc: Global, table: Table) -> Result<Vec<(String, String)>, Fail> {
    let mut rows = Vec::new(alloc);
    for (line, text) in lines_of(alloc, table)? {
        rows.push(row(alloc, line, text.as_str())?)?;
    }
    Ok(rows)
}

/// The lines of a table, each with its value in `B`: they write nothing.
fn assigned_rows(alloc: Global, table: Table) -> Result<Vec<(String, String)>, Fail> {
    let mut rows = Vec::new(alloc);
    for (line, _) in lines_of(alloc, table)? {
        let line = format!(in alloc; "B←{line}")?;
        rows.push((line, String::new(alloc)))?;
    }
    Ok(rows)
}

/// Answers the lines of a table whose arrays have two elements, and one line more.
fn meet_at_two<R: Threads + Sync>(
    rt: &R,
    alloc: Global,
    opening: &str,
    table: Table,
    more: (&str, &str),
) -> Result<(), Fail> {
    let mut two = rows_of(alloc, table)?;
    let (line, text) = more;
    two.push(row(alloc, line, text)?)?;
    meet_under_both(rt, alloc, 2, 1, opening, &two)
}

/// Assigns the values of a table's lines, whose arrays have 2048 elements.
fn meet_at_some<R: Threads + Sync>(
    rt: &R,
    alloc: Global,
    opening: &str,
    table: Table,
) -> Result<(), Fail> {
    let some = assigned_rows(alloc, table)?;
    meet_under_both(rt, alloc, 2, 1024, opening, &some)
}

/// Answers the lines of a table whose arrays have as many elements as the largest here.
fn meet_at_many<R: Threads + Sync>(
    rt: &R,
    alloc: Global,
    opening: &str,
    table: Table,
) -> Result<(), Fail> {
    let many = rows_of(alloc, table)?;
    meet_under_both(rt, alloc, 2, HALF, opening, &many)
}

#[test]
fn each_scalar_function_uses_the_pool(rt: HostRuntime) -> Result<(), Fail> {
    let alloc = rt.alloc();
    let table = (FUNCTIONS, 28);
    meet_at_two(&rt, alloc, "A←1 1", table, ("A+A", "2 2\n"))?;
    meet_at_some(&rt, alloc, ones(alloc, 2048, "", "")?.as_str(), table)?;
    let largest = ones(alloc, 2 * HALF, "", "")?;
    meet_at_many(&rt, alloc, largest.as_str(), ("B←~A →\nB←A+A →", 2))
}

#[test]
fn each_structural_function_uses_the_pool(rt: HostRuntime) -> Result<(), Fail> {
    let alloc = rt.alloc();
    let table = (STRUCTURES, 49);
    let few = format!(in alloc; "A←1 1\nN←2\nS←1 2\nT←0 2\n{ARGUMENTS}")?;
    meet_at_two(&rt, alloc, few.as_str(), table, ("⍴M", "1 2\n"))?;
    let more = ones(alloc, 2048, "N←2048\nS←1 2048\nT←0 2048\n", ARGUMENTS)?;
    meet_at_some(&rt, alloc, more.as_str(), table)?;
    let largest = ones(alloc, 2 * HALF, "", "")?;
    let many = ("B←⌽A →\nB←A,'' →\nB←A[A] →", 3);
    meet_at_many(&rt, alloc, largest.as_str(), many)
}

#[test]
fn each_reduction_uses_the_pool(rt: HostRuntime) -> Result<(), Fail> {
    let alloc = rt.alloc();
    let table = (REDUCTIONS, 116);
    let few = format!(in alloc; "A←1 1\nV←3 2\nW←2 3\nR←1 1 1\n{ITEMS}")?;
    meet_at_two(&rt, alloc, few.as_str(), table, ("-\\A", "1 0\n"))?;
    let more = ones(alloc, 2048, "V←2 2048\nW←2048 2\nR←1 1\n", ITEMS)?;
    meet_at_some(&rt, alloc, more.as_str(), table)?;
    let largest = ones(alloc, 2 * HALF, "V←2 1048576\n", "")?;
    let many = ("B←+⌿V⍴A →\nB←A∘.×1 →\nB←+/A →", 3);
    meet_at_many(&rt, alloc, largest.as_str(), many)
}

/// Folds of 320 items at 256 and at 1024 places. Such places are shared although the largest piece has more.
#[test]
fn long_folds_have_short_pieces(rt: HostRuntime) -> Result<(), Fail> {
    let alloc = rt.alloc();
    let opening = "D←256 320⍴1\nC←320 1024⍴1\nR←320⍴1";
    let folds = r"
        B←+/D →
        B←×/D →
        B←÷/D →
        B←+⌿C →
        B←D+.×R →
        B←D⌈.+R →
        B←D∨.≠R →
        ";
    let rows = rows_of(alloc, (folds, 7))?;
    meet_under_both(&rt, alloc, 2, 4096, opening, &rows)
}

/// The line that makes `F` a vector of `count` ones, by a constant.
fn items(alloc: Global, count: usize) -> Result<String, AllocError> {
    let mut line = String::from_str(alloc, "F←")?;
    for _ in 0..count {
        line.push_str("1 ")?;
    }
    Ok(line)
}

#[test]
fn each_cut_fold_uses_the_pool(rt: HostRuntime) -> Result<(), Fail> {
    let alloc = rt.alloc();
    let three = rows_of(alloc, (CUT_FOLDS, 60))?;
    meet_under_both(&rt, alloc, MANY, 1, items(alloc, 3)?.as_str(), &three)?;
    let some = assigned_rows(alloc, (CUT_FOLDS, 60))?;
    meet_under_both(&rt, alloc, MANY, 1024, items(alloc, 2049)?.as_str(), &some)
}

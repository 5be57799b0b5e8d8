//! What a worker does with a piece and with its share: it writes the values into the room for them.
ghost use Rattle.std.specs.Prelude.{◌≡◌, ℕ, ◌+◌, ◌<◌, ◌≤◌, ◌^◌, ◌⊎◌, max, OnOk, IfOk, IfErr, IsErr, length, slice_index, slice_index_or, vec_len};
ghost use Rattle.apl_pool.specs.Parts.{AreValuesFrom, AreValuesAt, IsStopFrom, IsPart};
ghost use Rattle.apl_pool.specs.Runs.{AreWritten, IsFaultAfter};

use crate::cut::Cut;
use crate::gate::Gate;
use crate::kernel::{Fault, FirstFault, Kernel, MOST_PLACES, Stop};
use crate::pieces::{Piece, piece_end};
use std::alloc::AllocError;

/// The most places that one worker makes room for at once, unless a piece has more. As many numbers are still in a processor's cache when
/// they are written over.
const STRETCH: usize = 32_768;

/// The stop at a place that has a fault.
pub(crate) fn stop_at(place: usize, fault: Fault) -> Stop
    requires { place ≤ MOST_PLACES }
    ensures { result ≡ Stop.Fault place fault }
{
    Stop::Fault {
        place: place as u32,
        fault,
    }
}

/// Writes the values of the kernel's runs into the room for the places from `from` up to before `to`.
/// It answers the place at which it stopped.
#[inline(always)]
fn write_runs<K: Kernel>(kernel: &K, from: usize, to: usize, room: &mut [K::Out]) -> usize
where
    K::Out: Copy,
    requires places { to ≤ K.place_count kernel.now }
    requires room { from + length room.old ≡ to }
    ensures order { from ≤ result }
    ensures within { result ≤ to }
    ensures values { AreWritten (K.outcome kernel.now) from result room.new }
    ensures len { length room.new ≡ length room.old }
{
    let mut place = from;
    loop {
        let end = kernel.write_run(place, to, &mut room[place - from..]);
        if end == place {
            return end;
        }
        place = end;
    }
}

/// How many places are written before a test whether there are more.
const TURN: usize = 4;

/// Writes the values at `count` places from `first` on into the room for those from `from` on, one by one, up to the first that has a fault.
#[inline(always)]
fn write_some<K: Kernel>(
    kernel: &K,
    from: usize,
    first: usize,
    count: usize,
    room: &mut [K::Out],
) -> Result<(), FirstFault>
where
    K::Out: Copy,
    requires order { from ≤ first }
    requires places { first + count ≤ K.place_count kernel.now }
    requires most { first + count ≤ MOST_PLACES }
    requires room { first + count ≤ from + length room.old }
    requires before { AreWritten (K.outcome kernel.now) from first room.old }
    ensures values { OnOk result (AreWritten (K.outcome kernel.now) from (first + count) room.new) }
    ensures fault { IfErr result (λ fault. IsFaultAfter (K.outcome kernel.now) from (first + count) fault.place fault.fault room.new) }
    ensures len { length room.new ≡ length room.old }
{
    for offset in 0..count {
        let place = first + offset;
        match kernel.at(place) {
            Ok(value) => room[place - from] = value,
            Err(fault) => return Err(FirstFault { place, fault }),
        }
    }
    Ok(())
}

/// Writes the values at the places from `first` up to before `to` into the room for those from `from` on, one by one, up to the first that
/// has a fault.
#[inline(always)]
fn write_places<K: Kernel>(
    kernel: &K,
    from: usize,
    first: usize,
    to: usize,
    room: &mut [K::Out],
) -> Result<(), FirstFault>
where
    K::Out: Copy,
    requires order { from ≤ first }
    requires within { first ≤ to }
    requires places { to ≤ K.place_count kernel.now }
    requires most { to ≤ MOST_PLACES }
    requires room { from + length room.old ≡ to }
    requires before { AreWritten (K.outcome kernel.now) from first room.old }
    ensures values { OnOk result (AreWritten (K.outcome kernel.now) from to room.new) }
    ensures fault { IfErr result (λ fault. IsFaultAfter (K.outcome kernel.now) from to fault.place fault.fault room.new) }
    ensures len { length room.new ≡ length room.old }
{
    let rest = (to - first) % TURN;
    for turn in 0..(to - first) / TURN {
        write_some(kernel, from, first + turn * TURN, TURN, room)?;
    }
    write_some(kernel, from, to - rest, rest, room)
}

/// Writes the values at the places from `from` up to before `to` into the room for them, up to the first that has a fault: by runs, and
/// after an empty run place by place. A kernel that chooses among others lends the one that it chose to this.
#[inline(always)]
pub fn write_values<K: Kernel>(
    kernel: &K,
    from: usize,
    to: usize,
    room: &mut [K::Out],
) -> Result<(), FirstFault>
where
    K::Out: Copy,
    requires order { from ≤ to }
    requires places { to ≤ K.place_count kernel.now }
    requires room { from + length room.old ≡ to }
    ensures values { OnOk result (AreWritten (K.outcome kernel.now) from to room.new) }
    ensures fault { IfErr result (λ fault. IsFaultAfter (K.outcome kernel.now) from to fault.place fault.fault room.new) }
    ensures len { length room.new ≡ length room.old }
{
    // A kernel that was asked for its count is known to have few enough places.
    let _count = kernel.count();
    let first = write_runs(kernel, from, to, room);
    write_places(kernel, from, first, to, room)
}

/// The same by the kernel, or by the one that it chooses.
#[inline(always)]
fn write_by<K: Kernel>(
    kernel: &K,
    from: usize,
    to: usize,
    room: &mut [K::Out],
) -> Result<(), FirstFault>
where
    K::Out: Copy,
    requires order { from ≤ to }
    requires places { to ≤ K.place_count kernel.now }
    requires room { from + length room.old ≡ to }
    ensures values { OnOk result (AreWritten (K.outcome kernel.now) from to room.new) }
    ensures fault { IfErr result (λ fault. IsFaultAfter (K.outcome kernel.now) from to fault.place fault.fault room.new) }
    ensures len { length room.new ≡ length room.old }
{
    match kernel.write_chosen(from, to, room) {
        Some(written) => written,
        None => write_values(kernel, from, to, room),
    }
}

/// Puts the values of a piece into the room for them.
#[inline(never)]
pub(crate) fn write_piece<K: Kernel>(
    kernel: &K,
    piece: Piece,
    room: &mut [K::Out],
) -> Result<(), Stop>
where
    K::Out: Copy,
    requires places { piece.to ≤ K.place_count kernel.now }
    requires most { piece.to ≤ MOST_PLACES }
    requires room { piece.from + length room.old ≡ piece.to }
    ensures ok { OnOk result (AreValuesFrom (K.outcome kernel.now) piece.from piece.to room.new) }
    ensures stop { IfErr result (IsStopFrom (K.outcome kernel.now) piece.from piece.to) }
    ensures len { length room.new ≡ length room.old }
{
    match write_by(kernel, piece.from, piece.to, room) {
        Ok(()) => Ok(()),
        Err(first) => Err(stop_at(first.place, first.fault)),
    }
}

/// Puts the values of a piece at its places in the list.
pub(crate) fn write_at<K: Kernel>(
    kernel: &K,
    piece: Piece,
    values: &mut [K::Out],
) -> Result<(), Stop>
where
    K::Out: Copy,
    requires order { piece.from ≤ piece.to }
    requires places { piece.to ≤ K.place_count kernel.now }
    requires most { piece.to ≤ MOST_PLACES }
    requires room { piece.to ≤ length values.old }
    ensures ok { OnOk result (AreValuesAt (K.outcome kernel.now) piece.from piece.to values.new) }
    ensures kept { (k : ℕ) (d : K.Out) → (k < piece.from) ⊎ (piece.to ≤ k) → slice_index_or values.new k d ≡ slice_index_or values.old k d }
    ensures len { length values.new ≡ length values.old }
    ensures stop { IfErr result (IsStopFrom (K.outcome kernel.now) piece.from piece.to) }
{
    write_piece(kernel, piece, &mut values[piece.from..piece.to])
}

/// Makes a list `len` values long by copies of its last value, if it is shorter.
pub(crate) fn extend_to<T: Copy>(values: Vec<T>, len: usize) -> Result<Vec<T>, AllocError>
    requires some { 0 < vec_len values }
    ensures len { IfOk result (λ all. vec_len all ≡ max (vec_len values) len) }
    ensures kept { IfOk result (λ all. (k : ℕ) (d : T) → k < vec_len values → slice_index_or all.items k d ≡ slice_index_or values.items k d) }
{
    let mut all = values;
    if all.len() < len {
        let last = all[all.len() - 1];
        all.resize(len, last)?;
    }
    Ok(all)
}

/// Passes the gate with a piece and with those after it that a stretch has room for, and answers the next piece.
fn pass_pieces<C: Cut, G: Gate>(cut: &C, gate: &G, worker: u8, piece: Piece, count: usize) -> Piece
    requires number { piece.number < piece.to }
    requires order { piece.from ≤ piece.to }
    requires within { piece.to ≤ count }
    requires most { count ≤ MOST_PLACES }
    ensures number { result.number ≤ result.from }
    ensures after { piece.to ≤ result.from }
    ensures order { result.from ≤ result.to }
    ensures some { result.from < count → result.from < result.to }
    ensures within { result.to ≤ count }
{
    gate.pass(worker, piece.number);
    let mut next = next_piece(cut, piece, count);
    while next.from < count && next.to - piece.from <= STRETCH {
        gate.pass(worker, next.number);
        next = next_piece(cut, next, count);
    }
    next
}

/// The values at all places, by one worker who has all pieces. The first one ends at `end`. They are written over those of a list, which is
/// made longer by stretches of places if it is too short. The values at the first `done` places are there already.
pub(crate) fn write_all<K: Kernel, C: Cut, G: Gate>(
    kernel: &K,
    cut: &C,
    gate: &G,
    worker: u8,
    end: usize,
    values: Vec<K::Out>,
    done: usize,
) -> Result<Vec<K::Out>, Stop>
where
    K::Out: Copy,
    requires some { 0 < end }
    requires within { end ≤ K.place_count kernel.now }
    requires some_values { 0 < vec_len values }
    requires most_values { vec_len values ≤ K.place_count kernel.now }
    requires order { done ≤ end }
    requires before { done ≤ vec_len values }
    requires done { AreValuesAt (K.outcome kernel.now) 0 done values.items }
    ensures { IsPart (K.outcome kernel.now) 0 (K.place_count kernel.now) result }
{
    let count = kernel.count();
    let mut values = values;
    let mut piece = Piece {
        number: 0,
        from: 0,
        to: end,
    };
    while piece.from < count {
        let next = pass_pieces(cut, gate, worker, piece, count);
        values = extend_to(values, next.from)?;
        write_at(kernel, piece.between(done, next), values.as_mut_slice())?;
        piece = next;
    }
    Ok(values)
}

/// The piece after this one, which has no places if this is the last.
pub(crate) fn next_piece<C: Cut>(cut: &C, piece: Piece, count: usize) -> Piece
    requires number { piece.number < piece.to }
    requires within { piece.to ≤ count }
    requires most { count ≤ MOST_PLACES }
    ensures number { result.number ≡ piece.number + 1 }
    ensures from { result.from ≡ piece.to }
    ensures order { result.from ≤ result.to }
    ensures some { result.from < count → result.from < result.to }
    ensures within { result.to ≤ count }
{
    let from = piece.to;
    let to = if from < count {
        piece_end(cut, from, count)
    } else {
        count
    };
    Piece {
        number: piece.number + 1,
        from,
        to,
    }
}

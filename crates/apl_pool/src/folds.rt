//! What a worker does with its share of a fold: the items at its places are summarized.
ghost use Rattle.std.specs.Prelude.{◌≡◌, ℕ, ◌+◌, ◌-◌, ◌*◌, ◌<◌, ◌≤◌, true, Result, None, IfOk, length, slice_index, slice_index_or, slice_set, vec_len, vec_capacity};
ghost use Rattle.apl_pool.specs.declared.kernel.TheConstants.{MOST_PLACES};
ghost use Rattle.apl_pool.specs.declared.summary.TheConstants.{LONGEST_RUN};
ghost use Rattle.apl_pool.specs.Folds.{items_in, IsFolded, IsFoldedPart, IsJoined, ArePartsOf, ArePartsOfRow};
ghost use Rattle.apl_pool.specs.Summaries.{AreFolds};

use crate::cut::Cut;
use crate::gate::Gate;
use crate::kernel::{Kernel, Stop};
use crate::pass::{Pass, fill_rooms};
use crate::pieces::{Piece, Pieces};
use crate::rows::{Row, RowSummaries, Rows};
use crate::summary::{LONGEST_RUN, Summary};
use crate::tasks::Summaries;
use crate::work::{next_piece, stop_at};
use std::alloc::{AllocError, Global};
use std::thread::Threads;

/// The summary of the items of both, if there are some.
pub(crate) fn join_both<S: Summary + Drop>(left: Option<S>, right: Option<S>) -> Option<S>
    requires { items_in S.item_count left + items_in S.item_count right ≤ MOST_PLACES }
    ensures { IsJoined S.step S.item_count S.outcome left right result }
{
    match left {
        None => right,
        Some(left) => match right {
            None => Some(left),
            Some(right) => Some(S::join(&left, &right)),
        },
    }
}

/// The summary of the items at the places from `from` up to before `to`, one by one, if there are some.
fn fold_items<S: Summary + Drop, K: Kernel<Out = S::Item>>(
    kernel: &K,
    from: usize,
    to: usize,
) -> Result<Option<S>, Stop>
    requires order { from ≤ to }
    requires places { to ≤ K.place_count kernel.now }
    requires most { to ≤ MOST_PLACES }
    ensures { IsFoldedPart S.step S.item_count S.outcome (K.outcome kernel.now) from to result }
{
    let mut folded = None;
    for place in from..to {
        match kernel.at(place) {
            Ok(item) => folded = join_both(folded, Some(S::one(item))),
            Err(fault) => return Err(stop_at(place, fault)),
        }
    }
    Ok(folded)
}

/// The summary of the items of a run of places.
fn fold_run<S: Summary + Drop, K: Kernel<Out = S::Item>>(
    kernel: &K,
    from: usize,
    to: usize,
) -> Result<Option<S>, Stop>
    requires some { from < to }
    requires places { to ≤ K.place_count kernel.now }
    requires most { to ≤ MOST_PLACES }
    requires few { to - from ≤ LONGEST_RUN }
    ensures { IsFoldedPart S.step S.item_count S.outcome (K.outcome kernel.now) from to result }
{
    match S::of_run(kernel, from, to) {
        Some(summary) => Ok(Some(summary)),
        None => fold_items(kernel, from, to),
    }
}

/// The summary of the items at the places from `from` up to before `to`, if there are some, run by run from the last one. A run too is
/// summarized from its last item, so memory is read in one direction. If an item has a fault, the items are looked at from the first.
pub(crate) fn fold_places<S: Summary + Drop, K: Kernel<Out = S::Item>>(
    kernel: &K,
    from: usize,
    to: usize,
) -> Result<Option<S>, Stop>
    requires order { from ≤ to }
    requires places { to ≤ K.place_count kernel.now }
    requires most { to ≤ MOST_PLACES }
    ensures { IsFoldedPart S.step S.item_count S.outcome (K.outcome kernel.now) from to result }
{
    let mut folded = None;
    let mut end = to;
    while from < end {
        let start = end - (end - from).min(LONGEST_RUN);
        let Ok(run) = fold_run(kernel, start, end) else {
            return fold_items(kernel, from, to);
        };
        folded = join_both(run, folded);
        end = start;
    }
    Ok(folded)
}

/// The summary of all items, by one worker who has all pieces. The first one ends at `end`.
pub(crate) fn fold_all<S: Summary + Drop, K: Kernel<Out = S::Item>, C: Cut, G: Gate>(
    kernel: &K,
    cut: &C,
    gate: &G,
    worker: u8,
    end: usize,
) -> Result<Option<S>, Stop>
    requires some { 0 < end }
    requires within { end ≤ K.place_count kernel.now }
    ensures { IsFoldedPart S.step S.item_count S.outcome (K.outcome kernel.now) 0 (K.place_count kernel.now) result }
{
    let count = kernel.count();
    let mut folded = None;
    let mut piece = Piece {
        number: 0,
        from: 0,
        to: end,
    };
    while piece.from < count {
        gate.pass(worker, piece.number);
        folded = join_both(folded, fold_places(kernel, piece.from, piece.to)?);
        piece = next_piece(cut, piece, count);
    }
    Ok(folded)
}

/// The summary of a piece, if it has some items. If it isn't there yet, the first worker passes the gate and makes it.
fn complete_part<S: Summary + Drop, K: Kernel<Out = S::Item>, G: Gate>(
    kernel: &K,
    gate: &G,
    piece: Piece,
    is_right: bool,
    part: Option<S>,
) -> Result<Option<S>, Stop>
    requires order { piece.from ≤ piece.to }
    requires places { piece.to ≤ K.place_count kernel.now }
    requires most { piece.to ≤ MOST_PLACES }
    requires right { is_right ≡ true → IsFolded S.step S.item_count S.outcome (K.outcome kernel.now) piece.from piece.to part }
    ensures { IsFoldedPart S.step S.item_count S.outcome (K.outcome kernel.now) piece.from piece.to result }
{
    if is_right {
        return Ok(part);
    }
    gate.pass(0, piece.number);
    fold_places(kernel, piece.from, piece.to)
}

/// Takes a part out of the list.
fn take_part<S: Drop>(parts: &mut [Option<S>], index: usize) -> Option<S>
    requires { index < length parts.old }
    ensures part { result ≡ slice_index_or parts.old index None }
    ensures rest { parts.new ≡ slice_set parts.old index None }
{
    parts[index].take()
}

/// The summary of the pieces of one of several rows, joined in their order. The parts of the rows' first pieces are first in the list.
/// Those that are marked are there already, and the first worker makes the others.
fn join_parts<S: Summary + Drop, K: Kernel<Out = S::Item>, G: Gate>(
    kernel: &K,
    gate: &G,
    pieces: &Pieces,
    marks: &[bool],
    parts: &mut [Option<S>],
    rows: usize,
    row: usize,
) -> Result<Option<S>, Stop>
    requires places { pieces.now.places ≡ K.place_count kernel.now }
    requires row { row < rows }
    requires parts { rows * pieces.now.count ≡ length parts.old }
    requires marks { rows * pieces.now.count ≡ length marks.now }
    requires most { rows * pieces.now.count ≤ MOST_PLACES }
    requires right { ArePartsOfRow S.step S.item_count S.outcome (K.outcome kernel.now) rows row pieces.now.count pieces.now.starts.items marks.now parts.old }
    ensures folded { IsFoldedPart S.step S.item_count S.outcome (K.outcome kernel.now) 0 (K.place_count kernel.now) result }
    ensures len { length parts.new ≡ length parts.old }
    ensures kept { (n other : ℕ) → row < other → other < rows → slice_index_or parts.new (n * rows + other) None ≡ slice_index_or parts.old (n * rows + other) None }
{
    let mut folded = None;
    for number in 0..pieces.count() {
        let index = number * rows + row;
        let part = take_part(parts, index);
        let piece = pieces.piece_as(number, index as u32);
        let part = complete_part(kernel, gate, piece, marks[index], part)?;
        folded = join_both(folded, part);
    }
    Ok(folded)
}

/// The summaries of all rows, one after the other, put into the room for them.
fn join_rows<S: Summary + Drop, K: Rows<Out = S::Item>, G: Gate>(
    rows: &K,
    gate: &G,
    pieces: &Pieces,
    marks: &[bool],
    parts: &mut [Option<S>],
    room: Vec<S>,
) -> RowSummaries<S>
    requires some { 0 < K.place_count rows.now }
    requires places { pieces.now.places ≡ K.place_count rows.now }
    requires parts { K.row_count rows.now * pieces.now.count ≡ length parts.old }
    requires marks { K.row_count rows.now * pieces.now.count ≡ length marks.now }
    requires most { K.row_count rows.now * pieces.now.count ≤ MOST_PLACES }
    requires right { ArePartsOf S.step S.item_count S.outcome (K.outcome rows.now) (K.row_count rows.now) pieces.now.count (slice_index pieces.now.starts.items) marks.now parts.old }
    requires empty { vec_len room ≡ 0 }
    requires room { K.row_count rows.now ≤ vec_capacity room }
    ensures { AreFolds S.step S.item_count S.outcome (K.outcome rows.now) (K.row_count rows.now) (K.place_count rows.now) result.summaries.items result.end }
{
    let mut summaries = room;
    let count = rows.rows();
    for row in 0..count {
        match join_parts(&Row { rows, row }, gate, pieces, marks, parts, count, row) {
            Ok(Some(summary)) => summaries.push_reserved(summary),
            Ok(None) => unreachable!(),
            Err(stop) => {
                return RowSummaries {
                    summaries,
                    end: Err(stop),
                };
            }
        }
    }
    RowSummaries {
        summaries,
        end: Ok(()),
    }
}

/// The summaries of all rows, by one worker who has all pieces. The first piece of each row ends at `end`.
pub(crate) fn fold_rows_alone<S: Summary + Drop, K: Rows<Out = S::Item>, C: Cut, G: Gate>(
    rows: &K,
    cut: &C,
    gate: &G,
    worker: u8,
    end: usize,
    room: Vec<S>,
) -> RowSummaries<S>
    requires some { 0 < end }
    requires within { end ≤ K.place_count rows.now }
    requires empty { vec_len room ≡ 0 }
    requires room { K.row_count rows.now ≤ vec_capacity room }
    ensures { AreFolds S.step S.item_count S.outcome (K.outcome rows.now) (K.row_count rows.now) (K.place_count rows.now) result.summaries.items result.end }
{
    let mut summaries = room;
    for row in 0..rows.rows() {
        match fold_all(&Row { rows, row }, cut, gate, worker, end) {
            Ok(Some(summary)) => summaries.push_reserved(summary),
            Ok(None) => unreachable!(),
            Err(stop) => {
                return RowSummaries {
                    summaries,
                    end: Err(stop),
                };
            }
        }
    }
    RowSummaries {
        summaries,
        end: Ok(()),
    }
}

/// A list of as many parts, none of which is there yet.
fn no_parts<S: Drop>(alloc: Global, count: usize) -> Result<Vec<Option<S>>, AllocError>
    ensures { IfOk result (λ parts. vec_len parts ≡ count) }
{
    let mut parts = Vec::with_capacity(alloc, count)?;
    for _ in 0..count {
        parts.push_reserved(None);
    }
    Ok(parts)
}

/// The summaries of all rows, by several workers, who put one of each piece into a list of as many parts. Then those of each row are
/// joined.
fn fold_into_parts<
    R: Threads + Sync,
    S: Summary + Drop + Send,
    K: Rows<Out = S::Item> + Sync,
    G: Gate + Sync,
>(
    pass: &Pass<R, G>,
    rows: &K,
    parts: &mut [Option<S>],
    room: Vec<S>,
) -> Result<RowSummaries<S>, AllocError>
    requires some { 0 < K.place_count rows.now }
    requires rows { pass.now.shares.now.rows ≡ K.row_count rows.now }
    requires places { pass.now.shares.now.pieces.places ≡ K.place_count rows.now }
    requires parts { K.row_count rows.now * pass.now.shares.now.pieces.count ≡ length parts.old }
    requires empty { vec_len room ≡ 0 }
    requires room { K.row_count rows.now ≤ vec_capacity room }
    ensures { IfOk result (λ f. AreFolds S.step S.item_count S.outcome (K.outcome rows.now) (K.row_count rows.now) (K.place_count rows.now) f.summaries.items f.end) }
{
    let pieces = pass.shares.pieces();
    let task = Summaries { rows, pieces };
    let marks = fill_rooms(pass, &task, parts)?;
    Ok(join_rows(rows, pass.gate, pieces, marks.as_slice(), parts, room))
}

/// The summaries of all rows, by several workers.
pub(crate) fn fold_rows_together<
    R: Threads + Sync,
    S: Summary + Drop + Send,
    K: Rows<Out = S::Item> + Sync,
    G: Gate + Sync,
>(pass: &Pass<R, G>, rows: &K, room: Vec<S>) -> Result<RowSummaries<S>, AllocError>
    requires some { 0 < K.place_count rows.now }
    requires rows { pass.now.shares.now.rows ≡ K.row_count rows.now }
    requires places { pass.now.shares.now.pieces.places ≡ K.place_count rows.now }
    requires empty { vec_len room ≡ 0 }
    requires room { K.row_count rows.now ≤ vec_capacity room }
    ensures { IfOk result (λ f. AreFolds S.step S.item_count S.outcome (K.outcome rows.now) (K.row_count rows.now) (K.place_count rows.now) f.summaries.items f.end) }
{
    let mut parts = no_parts(pass.alloc, pass.shares.count())?;
    fold_into_parts(pass, rows, parts.as_mut_slice(), room)
}

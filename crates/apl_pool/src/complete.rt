//! What the first worker does after the others: the pieces that nobody brought.
ghost use Rattle.std.specs.Prelude.{◌≡◌, ℕ, ◌+◌, ◌-◌, ◌<◌, ◌≤◌, ◌⊎◌, true, OnOk, IfErr, length, slice_index, slice_index_or};
ghost use Rattle.apl_pool.specs.declared.kernel.TheConstants.{MOST_PLACES};
ghost use Rattle.apl_pool.specs.Parts.{AreValuesFrom, AreValuesOfPiece, AreValuesAt, IsStopFrom};
ghost use Rattle.apl_pool.specs.Crew.{AreMarks};

use crate::gate::Gate;
use crate::kernel::{Kernel, Stop};
use crate::pass::{Pass, fill_rooms};
use crate::pieces::{Piece, Pieces};
use crate::tasks::Values;
use crate::work::write_at;
use std::thread::Threads;

/// The values of one piece at its places in the list. If they aren't there yet, the first worker passes the gate and writes them.
fn complete_piece<K: Kernel, G: Gate>(
    kernel: &K,
    gate: &G,
    piece: Piece,
    is_right: bool,
    values: &mut [K::Out],
) -> Result<(), Stop>
where
    K::Out: Copy,
    requires order { piece.from ≤ piece.to }
    requires places { piece.to ≤ K.place_count kernel.now }
    requires most { piece.to ≤ MOST_PLACES }
    requires room { piece.to ≤ length values.old }
    requires right { is_right ≡ true → AreValuesAt (K.outcome kernel.now) piece.from piece.to values.old }
    ensures ok { OnOk result (AreValuesAt (K.outcome kernel.now) piece.from piece.to values.new) }
    ensures kept { (k : ℕ) (d : K.Out) → (k < piece.from) ⊎ (piece.to ≤ k) → slice_index_or values.new k d ≡ slice_index_or values.old k d }
    ensures len { length values.new ≡ length values.old }
    ensures stop { IfErr result (IsStopFrom (K.outcome kernel.now) piece.from piece.to) }
{
    if is_right {
        return Ok(());
    }
    gate.pass(0, piece.number);
    write_at(kernel, piece, values)
}

/// The values of all pieces. Those of marked pieces are there already. The first worker writes the others, from place 0 upwards.
fn complete<K: Kernel, G: Gate>(
    kernel: &K,
    gate: &G,
    pieces: &Pieces,
    marks: &[bool],
    values: &mut [K::Out],
) -> Result<(), Stop>
where
    K::Out: Copy,
    requires places { pieces.now.places ≡ K.place_count kernel.now }
    requires room { length values.old ≡ pieces.now.places }
    requires marks { AreMarks (AreValuesOfPiece (K.outcome kernel.now) pieces.now.starts.items) (slice_index pieces.now.starts.items) pieces.now.count values.old marks.now }
    ensures ok { OnOk result (AreValuesFrom (K.outcome kernel.now) 0 (K.place_count kernel.now) values.new) }
    ensures stop { IfErr result (IsStopFrom (K.outcome kernel.now) 0 (K.place_count kernel.now)) }
    ensures len { length values.new ≡ length values.old }
{
    for number in 0..pieces.count() {
        complete_piece(kernel, gate, pieces.piece(number), marks[number], values)?;
    }
    Ok(())
}

/// The values at all places, written into the room for them by several workers.
pub(crate) fn fill_values<R: Threads + Sync, K: Kernel + Sync, G: Gate + Sync>(
    pass: &Pass<R, G>,
    kernel: &K,
    values: &mut [K::Out],
) -> Result<(), Stop>
where
    K::Out: Copy + Send,
    requires rows { pass.now.shares.now.rows ≡ 1 }
    requires places { pass.now.shares.now.pieces.places ≡ K.place_count kernel.now }
    requires room { length values.old ≡ pass.now.shares.now.pieces.places }
    ensures ok { OnOk result (AreValuesFrom (K.outcome kernel.now) 0 (K.place_count kernel.now) values.new) }
    ensures stop { IfErr result (IsStopFrom (K.outcome kernel.now) 0 (K.place_count kernel.now)) }
    ensures len { length values.new ≡ length values.old }
{
    let pieces = pass.shares.pieces();
    let task = Values { kernel, pieces };
    let marks = fill_rooms(pass, &task, values)?;
    complete(kernel, pass.gate, pieces, marks.as_slice(), values)
}

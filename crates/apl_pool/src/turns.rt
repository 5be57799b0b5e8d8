//! The loop that writes the front of a room, several places in a turn.
ghost use Rattle.std.specs.Prelude.{◌≡◌, ℕ, ◌<◌, ◌≤◌, length, slice_index_or};

/// How many places are written before a test whether there are more.
const TURN: usize = 4;

/// Writes what a function gives for each place up to before `to`, of which those before `from` are written.
#[inline(always)]
fn write_up_to<T: Copy, F: Fn(usize) -> T>(from: usize, to: usize, value: &F, room: &mut [T])
    requires calls { (k : ℕ) → k < to → F.pre value.now k }
    requires order { from ≤ to }
    requires room { to ≤ length room.old }
    requires before { (k : ℕ) (d : T) → k < from → F.post value.now k (slice_index_or room.old k d) }
    ensures each { (k : ℕ) (d : T) → k < to → F.post value.now k (slice_index_or room.new k d) }
    ensures len { length room.new ≡ length room.old }
{
    for k in from..to {
        room[k] = value(k);
    }
}

/// Writes what a function gives for each place. It takes no memory.
#[inline(always)]
pub fn write_each<T: Copy, F: Fn(usize) -> T>(count: usize, value: F, room: &mut [T])
    requires calls { (k : ℕ) → k < count → F.pre value k }
    requires room { count ≤ length room.old }
    ensures each { (k : ℕ) (d : T) → k < count → F.post value k (slice_index_or room.new k d) }
    ensures len { length room.new ≡ length room.old }
{
    let turns = count / TURN;
    for turn in 0..turns {
        write_up_to(turn * TURN, turn * TURN + TURN, &value, room);
    }
    write_up_to(turns * TURN, count, &value, room);
}

//! The loops that write the front of a room.
ghost use Rattle.std.specs.Prelude.{◌≡◌, ℕ, ◌+◌, ◌-◌, ◌*◌, ◌/◌, ◌^◌, ◌<◌, ◌≤◌, length, slice_index_or};
ghost use Rattle.apl_walk.specs.Steps.{BeginsWith};
ghost use Rattle.apl_walk.specs.declared.fronts.TheConstants.{FEW};

/// The same at each place.
#[inline(always)]
pub(crate) fn write_same<T: Copy>(value: T, count: usize, room: &mut [T])
    requires { count ≤ length room.old }
    ensures each { (k : ℕ) (d : T) → k < count → slice_index_or room.new k d ≡ value }
    ensures len { length room.new ≡ length room.old }
{
    for k in 0..count {
        room[k] = value;
    }
}

/// From so many neighbours up to `MOST_COPIED` the C library's copy is quicker than a loop.
const FEWEST_COPIED: usize = 64;

const MOST_COPIED: usize = 256;

/// Neighbours.
#[inline(always)]
pub(crate) fn write_near<T: Copy>(elements: &[T], count: usize, room: &mut [T])
    requires room { count ≤ length room.old }
    requires near { count ≤ length elements.now }
    ensures each { (k : ℕ) (d : T) → k < count → slice_index_or room.new k d ≡ slice_index_or elements.now k d }
    ensures len { length room.new ≡ length room.old }
{
    let part = &elements[..count];
    if (FEWEST_COPIED..=MOST_COPIED).contains(&count) {
        return room[..count].copy_from_slice(part);
    }
    for k in 0..count {
        room[k] = part[k];
    }
}

/// Those that are `stride` apart, also neighbours.
#[inline(always)]
pub(crate) fn write_stretch<T: Copy>(elements: &[T], stride: usize, count: usize, room: &mut [T])
    requires room { count ≤ length room.old }
    requires near { (count - 1) * stride < length elements.now }
    ensures each { (k : ℕ) (d : T) → k < count → slice_index_or room.new k d ≡ slice_index_or elements.now (k * stride) d }
    ensures len { length room.new ≡ length room.old }
{
    if stride == 1 {
        return write_near(elements, count, room);
    }
    for k in 0..count {
        room[k] = elements[k * stride];
    }
}

/// An element at both places of a pair.
#[inline(always)]
fn write_pair<T: Copy>(element: T, pair: usize, room: &mut [T])
    requires { 2 * pair + 2 ≤ length room.old }
    ensures pair { (k : ℕ) (d : T) → 2 * pair ≤ k → k < 2 * pair + 2 → slice_index_or room.new k d ≡ element }
    ensures before { (k : ℕ) (d : T) → k < 2 * pair → slice_index_or room.new k d ≡ slice_index_or room.old k d }
    ensures len { length room.new ≡ length room.old }
{
    room[2 * pair] = element;
    room[2 * pair + 1] = element;
}

/// Each of four neighbours twice. All are read before one is written, so that a processor moves two at once.
#[inline(always)]
fn write_four_pairs<T: Copy>(elements: &[T], from: usize, room: &mut [T])
    requires near { from + 4 ≤ length elements.now }
    requires room { 2 * (from + 4) ≤ length room.old }
    requires before { (k : ℕ) (d : T) → k < 2 * from → slice_index_or room.old k d ≡ slice_index_or elements.now (k / 2) d }
    ensures each { (k : ℕ) (d : T) → k < 2 * (from + 4) → slice_index_or room.new k d ≡ slice_index_or elements.now (k / 2) d }
    ensures len { length room.new ≡ length room.old }
{
    let first = elements[from];
    let second = elements[from + 1];
    let third = elements[from + 2];
    let fourth = elements[from + 3];
    write_pair(first, from, room);
    write_pair(second, from + 1, room);
    write_pair(third, from + 2, room);
    write_pair(fourth, from + 3, room);
}

/// The same of those from `from` up to before `to`, one by one.
#[inline(always)]
fn write_last_pairs<T: Copy>(elements: &[T], from: usize, to: usize, room: &mut [T])
    requires order { from ≤ to }
    requires near { to ≤ length elements.now }
    requires room { 2 * to ≤ length room.old }
    requires before { (k : ℕ) (d : T) → k < 2 * from → slice_index_or room.old k d ≡ slice_index_or elements.now (k / 2) d }
    ensures each { (k : ℕ) (d : T) → k < 2 * to → slice_index_or room.new k d ≡ slice_index_or elements.now (k / 2) d }
    ensures len { length room.new ≡ length room.old }
{
    for pair in from..to {
        write_pair(elements[pair], pair, room);
    }
}

/// Neighbours, each twice.
pub(crate) fn write_pairs<T: Copy>(elements: &[T], count: usize, room: &mut [T])
    requires near { count ≤ length elements.now }
    requires room { 2 * count ≤ length room.old }
    ensures each { (k : ℕ) (d : T) → k < 2 * count → slice_index_or room.new k d ≡ slice_index_or elements.now (k / 2) d }
    ensures len { length room.new ≡ length room.old }
{
    let turns = count / 4;
    for turn in 0..turns {
        write_four_pairs(elements, 4 * turn, room);
    }
    write_last_pairs(elements, 4 * turns, count, room);
}

/// So few elements are written one by one: a loop over many takes longer to begin.
const FEW: usize = 8;

/// The element at a place, and past the last one always the same.
#[inline(always)]
pub fn element_or<T: Copy>(elements: &[T], place: usize, past: T) -> T
    ensures { result ≡ slice_index_or elements.now place past }
{
    match elements.get(place) {
        Some(element) => *element,
        None => past,
    }
}

/// Writes the elements from `first` on to the front of a room.
#[inline(always)]
pub(crate) fn write_or<T: Copy>(elements: &[T], past: T, first: usize, count: usize, room: &mut [T])
    requires room { count ≤ length room.old }
    requires most { first ≤ 2 ^ 62 }
    ensures values { BeginsWith (λ k. slice_index_or elements.now (first + k) past) count room.new }
    ensures len { length room.new ≡ length room.old }
{
    if count >= FEW {
        let start = first.min(elements.len());
        let near = count.min(elements.len() - start);
        write_near(&elements[start..], near, room);
        return write_same(past, count - near, &mut room[near..]);
    }
    for k in 0..count {
        room[k] = element_or(elements, first + k, past);
    }
}

//! What is answered of elements that are looked for in a list.
ghost use Rattle.std.specs.Prelude.{◌≡◌, ℤ, pos, ◌+◌, ◌-◌, ◌<◌, ◌≤◌, List, length, map, take, drop, slice_index_or};
ghost use Rattle.apl_search.specs.Keys.{keys_in};
ghost use Rattle.apl_search.specs.Tables.{place_of, IsTable, AreReplies};

use crate::sorting::Keyed;
use crate::table::Entries;
use apl_array::Elements;
use apl_pool::write_each;

/// What is answered of an element by its first place in a list.
pub(crate) trait Reply: Copy {
    ghost use Rattle.std.specs.Prelude.{◌≡◌, ℕ, ◌≤◌};
    ghost use Rattle.apl_pool.specs.declared.kernel.TheConstants.{MOST_PLACES};

    /// The type of what is answered.
    type Value: Copy;

    // The value for a count of elements and a place.
    ghost value: { Self → ℕ → ℕ → Self.Value };

    /// The value for a list of so many elements, and a place or their count.
    fn value(self, count: usize, place: usize) -> Self::Value
        requires { place ≤ MOST_PLACES }
        ensures { result ≡ value self count place };
}

/// Writes what is answered of each element into the room for it. The entries are those of a list of `count` elements.
#[inline(always)]
fn write_replies<T: Keyed, R: Reply>(
    entries: Entries<'_>,
    count: usize,
    elements: &[T],
    reply: R,
    room: &mut [R::Value],
)
    requires room { length elements.now ≤ length room.old }
    ensures values { AreReplies (R.value reply count) entries.entry.least entries.entry.places.now (map T.key elements.now) (length elements.now) room.new }
    ensures len { length room.new ≡ length room.old }
{
    let value = |k: usize| -> R::Value
        requires { k < length elements.now }
        ensures { (numbers : List ℤ) → IsTable numbers entries.entry.least entries.entry.places.now
            → result ≡ R.value reply count (place_of numbers (slice_index_or (map T.key elements.entry.now) k (pos 0))) }
    { reply.value(count, entries.place(elements[k].key())) };
    write_each(elements.len(), value, room);
}

/// Writes what is answered of the elements from one place up to before another, however they are held.
#[inline(always)]
pub(crate) fn write_run_replies<R: Reply>(
    entries: Entries<'_>,
    count: usize,
    elements: Elements<'_>,
    from: usize,
    to: usize,
    reply: R,
    room: &mut [R::Value],
)
    requires order { from ≤ to }
    requires places { to ≤ length (keys_in elements) }
    requires room { from + length room.old ≡ to }
    ensures values { AreReplies (R.value reply count) entries.entry.least entries.entry.places.now (take (to - from) (drop from (keys_in elements.entry))) (to - from) room.new }
    ensures len { length room.new ≡ length room.old }
{
    match elements {
        Elements::Numbers(list) => write_replies(entries, count, &list[from..to], reply, room),
        Elements::Narrow(list) => write_replies(entries, count, &list[from..to], reply, room),
        Elements::Truths(list) => write_replies(entries, count, &list[from..to], reply, room),
        Elements::Characters(list) => write_replies(entries, count, &list[from..to], reply, room),
    }
}

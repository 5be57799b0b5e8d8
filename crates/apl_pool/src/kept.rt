//! The lists that were let go last: a pool keeps one of each type of values, so that `fill` can write a later result over it.
//!
//! Room that is made anew is written twice, first by one thread and then by those who know the values. What is in a kept list changes
//! no answer.
ghost use Rattle.std.specs.Prelude.{◌≡◌, ◌<◌, ◌≤◌, true, IfSome, vec_len};

use std::cell::Cell;

/// The fewest values of a list that is kept. Shorter ones stay in a processor's cache, where room is made quickly.
const LEAST_KEPT: usize = 4096;

/// The lists of numbers, of those held in 32 bits, of truth values and of characters that were let go last, and whether lists are kept at all. No call takes memory.
#[derive(Drop)]
pub struct KeptLists {
    numbers: Cell<Option<Vec<i64>>>,
    narrow: Cell<Option<Vec<i32>>>,
    truths: Cell<Option<Vec<bool>>>,
    characters: Cell<Option<Vec<char>>>,
    is_open: Cell<bool>,
}

/// Whether a list has at least `count` values, which are many, and room for few more.
fn is_for<T>(list: &Vec<T>, count: usize) -> bool
    ensures within { result ≡ true → count ≤ vec_len list.now }
    ensures some { result ≡ true → 0 < count }
{
    count >= LEAST_KEPT && count <= list.len() && list.capacity() - count <= count / 8
}

impl KeptLists {
    /// No list yet.
    pub(crate) fn new() -> KeptLists {
        KeptLists {
            numbers: Cell::new(None),
            narrow: Cell::new(None),
            truths: Cell::new(None),
            characters: Cell::new(None),
            is_open: Cell::new(true),
        }
    }

    /// Whether a list of `count` values would be kept.
    pub fn keeps(&self, count: usize) -> bool {
        count >= LEAST_KEPT && self.is_open.get()
    }

    /// Takes a list that nothing needs any more. If it is long, it is kept in the place of the one before.
    pub fn keep<T: Reused>(&self, list: Vec<T>) {
        if self.keeps(list.len()) {
            T::kept_in(self).set(Some(list));
        }
    }

    /// The list that is kept, cut to `count` values, if it has as many and room for few more.
    pub fn take<T: Reused>(&self, count: usize) -> Option<Vec<T>>
        ensures len { IfSome result (λ list. vec_len list ≡ count) }
        ensures some { IfSome result (λ list. 0 < vec_len list) }
    {
        let cell = T::kept_in(self);
        let mut list = cell.replace(None)?;
        if !is_for(&list, count) {
            cell.set(Some(list));
            return None;
        }
        list.truncate(count);
        Some(list)
    }

    /// Gives the memory of the lists back, and then keeps none until `keep_again`. It says whether there was a list.
    pub fn give_back(&self) -> bool {
        let had_numbers = self.numbers.replace(None).is_some();
        let had_narrow = self.narrow.replace(None).is_some();
        let had_truths = self.truths.replace(None).is_some();
        let had_characters = self.characters.replace(None).is_some();
        let is_given = had_numbers || had_narrow || had_truths || had_characters;
        self.is_open.set(!is_given);
        is_given
    }

    /// Keeps lists again.
    pub fn keep_again(&self) {
        self.is_open.set(true);
    }
}

/// A type of values of which a pool keeps the list that was let go last.
pub trait Reused: Copy {
    /// How many values are moved in the time of one number.
    const PER_NUMBER: usize;

    /// The cell of the list.
    fn kept_in(lists: &KeptLists) -> &Cell<Option<Vec<Self>>>;
}

impl Reused for i64 {
    const PER_NUMBER: usize = 1;

    fn kept_in(lists: &KeptLists) -> &Cell<Option<Vec<i64>>> {
        &lists.numbers
    }
}

impl Reused for i32 {
    const PER_NUMBER: usize = 2;

    fn kept_in(lists: &KeptLists) -> &Cell<Option<Vec<i32>>> {
        &lists.narrow
    }
}

impl Reused for bool {
    const PER_NUMBER: usize = 8;

    fn kept_in(lists: &KeptLists) -> &Cell<Option<Vec<bool>>> {
        &lists.truths
    }
}

impl Reused for char {
    const PER_NUMBER: usize = 2;

    fn kept_in(lists: &KeptLists) -> &Cell<Option<Vec<char>>> {
        &lists.characters
    }
}

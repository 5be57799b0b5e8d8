//! What is known of a run of neighbouring numbers after one pass over both halves of it.
ghost use Rattle.std.specs.Prelude.{◌+◌, ◌*◌, ◌≤◌, length, map};

use apl_answer::Numeric;

/// What is known of some neighbours. It is made number by number, and two of them are joined. No step has a branch.
pub(crate) trait KnownRun: Copy {
    ghost use Rattle.std.specs.Prelude.{◌≡◌, ℕ, ◌+◌, ◌*◌, ◌<◌, ℤ, List, length, map};

    // Whether it is known of `count` numbers from a place on.
    ghost is_of: { Self → List ℤ → (first count : ℕ) → Type 0 };

    /// What is known of no number.
    fn none() -> Self
        ensures { (numbers : List ℤ) (first : ℕ) → is_of result numbers first 0 };

    /// What is known of these numbers and the one at a place.
    fn with_next<T: Numeric>(&self, numbers: &[T], place: usize) -> Self
        requires { place < length numbers.now }
        ensures { (first count : ℕ) → first + count ≡ place → is_of self.now (map T.number_in numbers.now) first count → is_of result (map T.number_in numbers.now) first (count + 1) };

    /// What is known of these numbers and as many that are next.
    fn joined(&self, next: &Self) -> Self
        ensures { (numbers : List ℤ) (first count : ℕ) → is_of self.now numbers first count → is_of next.now numbers (first + count) count → is_of result numbers first (2 * count) };
}

/// What is known of both halves of neighbours from a place on. A turn takes a number of each half, since memory gives two streams faster
/// than one. A processor does several numbers at once.
pub(crate) fn of_halves<K: KnownRun, T: Numeric>(numbers: &[T], first: usize, half: usize) -> K
    requires within { first + 2 * half ≤ length numbers.now }
    ensures { K.is_of result (map T.number_in numbers.now) first (2 * half) }
{
    let second = first + half;
    let mut low = K::none();
    let mut high = K::none();
    for k in 0..half {
        low = low.with_next(numbers, first + k);
        high = high.with_next(numbers, second + k);
    }
    low.joined(&high)
}

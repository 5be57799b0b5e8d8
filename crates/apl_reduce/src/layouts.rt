//! Where the items of an inner product are in its arguments.
ghost use Rattle.std.specs.Prelude.{◌≡◌, ◌*◌, ◌<◌, ◌≤◌, ◌↔◌, true, IsTrue, if◌then◌else◌};
ghost use Rattle.apl_pool.specs.declared.kernel.TheConstants.{MOST_PLACES};
ghost use Rattle.apl_reduce.specs.declared.layouts.TheConstants.{SEVERAL_LINES};

/// From how many lines on a pass over both arguments pays, and the order of columns of few items.
const SEVERAL_LINES: usize = 8;

/// From how many items on a run of them pays, and the order of columns that one line meets.
pub(crate) const SEVERAL_ITEMS: usize = 24;

/// How far apart the lines of an argument are, and the items of a line.
#[derive(Clone, Copy)]
pub(crate) struct Strides {
    pub line: usize,
    pub item: usize,
}

impl Strides {
    /// The strides of an argument. One that is single has its element on all lines, as each item.
    pub(crate) fn new(is_single: bool, line: usize, item: usize) -> Strides
        ensures line { result.line ≡ (if is_single then 0 else line) }
        ensures item { result.item ≡ (if is_single then 0 else item) }
    {
        if is_single {
            Strides { line: 0, item: 0 }
        } else {
            Strides { line, item }
        }
    }
}

/// How many items are folded at each of `count` places, and where they are in the arguments. A place is a line of the left argument times
/// the columns and a line of the right one.
#[derive(Clone, Copy)]
pub(crate) struct Layout {
    pub left: Strides,
    pub right: Strides,
    pub items: usize,
    pub columns: usize,
    pub count: usize,
    ghost some: { 0 < columns },
    ghost most_columns: { columns ≤ MOST_PLACES },
    ghost most: { count ≤ MOST_PLACES },
    ghost most_items: { items ≤ MOST_PLACES },
}

impl Layout {
    /// Whether both arguments have enough lines for a pass over their elements to pay.
    pub(crate) fn is_pass_worthwhile(&self) -> bool
        ensures { IsTrue result ↔ (1 < self.now.columns) × (SEVERAL_LINES * self.now.columns ≤ self.now.count) }
    {
        self.columns > 1 && self.count >= SEVERAL_LINES * self.columns
    }

    /// Whether the items of each line are neighbours in both arguments.
    pub(crate) fn items_are_neighbours(&self) -> bool
        ensures left { result ≡ true → self.now.left.item ≡ 1 }
        ensures right { result ≡ true → self.now.right.item ≡ 1 }
    {
        self.left.item == 1 && self.right.item == 1
    }
}

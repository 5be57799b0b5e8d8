//! How many truth values are true.
ghost use Rattle.std.specs.Prelude.{◌≡◌, ◌+◌, ◌≤◌, length};
ghost use Rattle.apl_reduce.specs.Ones.{ones};

use apl_walk::few_ones;

/// How many truth values are counted at once. A byte holds how many of them are true.
const RUN: usize = 192;

/// How many neighbours from a place on are true.
pub(crate) fn ones(truths: &[bool], first: usize, count: usize) -> usize
    requires { first + count ≤ length truths.now }
    ensures value { result ≡ ones truths.now first count }
    ensures most { result ≤ count }
{
    let mut total = 0;
    let runs = count / RUN;
    for run in 0..runs {
        total += few_ones(truths, first + run * RUN, RUN) as usize;
    }
    total + few_ones(truths, first + runs * RUN, count % RUN) as usize
}

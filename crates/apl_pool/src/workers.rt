//! Who works on a result: the threads, the memory and the pool, in one value.
ghost use Rattle.std.specs.Prelude.{IfOk, IfErr};
ghost use Rattle.apl_pool.specs.Pool.{AreValues, IsStopOf};

use crate::cut::Cut;
use crate::gate::Gate;
use crate::kept::Reused;
use crate::kernel::{Kernel, Stop};
use crate::pool::Pool;
use std::alloc::Global;
use std::thread::Threads;

/// The threads, the memory and the pool that a result is made with.
#[derive(Drop)]
pub struct Workers<'a, R, C, G> {
    pub rt: &'a R,
    pub alloc: Global,
    pub pool: &'a Pool<C, G>,
}

/// What has threads, memory and a pool: one bound in place of three.
pub trait Crew {
    type Runtime: Threads + Sync;

    type Cutting: Cut + Sync;

    type Passing: Gate + Sync;

    /// The threads.
    fn rt(&self) -> &Self::Runtime;

    /// The memory.
    fn alloc(&self) -> Global;

    /// The pool.
    fn pool(&self) -> &Pool<Self::Cutting, Self::Passing>;
}

impl<R: Threads + Sync, C: Cut + Sync, G: Gate + Sync> Crew for Workers<'_, R, C, G> {
    type Runtime = R;

    type Cutting = C;

    type Passing = G;

    fn rt(&self) -> &R {
        self.rt
    }

    fn alloc(&self) -> Global {
        self.alloc
    }

    fn pool(&self) -> &Pool<C, G> {
        self.pool
    }
}

/// What the pool of these workers answers for a kernel, as `Pool::fill`. It is the value at each place, or the least place that has a
/// fault, and that fault. `Memory` may come in place of any answer. The values may be written over those of a list that the pool keeps.
pub fn fill<W: Crew, K: Kernel + Sync>(workers: &W, kernel: &K) -> Result<Vec<K::Out>, Stop>
where
    K::Out: Reused + Send,
    ensures values { IfOk result (λ v. AreValues (K.outcome kernel.now) (K.place_count kernel.now) v.items) }
    ensures stop { IfErr result (IsStopOf (K.outcome kernel.now) (K.place_count kernel.now)) }
{
    let (rt, alloc, pool) = (workers.rt(), workers.alloc(), workers.pool());
    match pool.kept().take(kernel.count()) {
        Some(values) => pool.fill_into(rt, alloc, kernel, values, 0),
        None => pool.fill(rt, alloc, kernel),
    }
}

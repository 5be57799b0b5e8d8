//! Truth values with how many ones are before each block of them.
ghost use Rattle.std.specs.Prelude.{◌≡◌, ◌+◌, ◌<◌, ◌≤◌, length, slice_index, IfOk};
ghost use Rattle.apl_pool.specs.declared.kernel.TheConstants.{MOST_PLACES};
ghost use Rattle.apl_walk.specs.Ones.{one_of, one_index, ones_before, CountsBlocks};

use std::alloc::{AllocError, Global};

/// How many truth values are a block. A byte holds how many of them are ones.
const BLOCK: usize = 128;

/// What a truth value adds.
#[inline(always)]
fn one(bit: bool) -> u8
    ensures { result ≡ one_of bit }
{
    if bit { 1 } else { 0 }
}

/// How many of a few neighbours from an index on are ones. The loop has no branches, and a processor adds several bytes at once.
#[inline(always)]
pub fn few_ones(bits: &[bool], first: usize, count: usize) -> u8
    requires within { first + count ≤ length bits.now }
    requires few { count ≤ 255 }
    ensures { ones_before bits.now first + result ≡ ones_before bits.now (first + count) }
{
    let mut sum = 0;
    for k in 0..count {
        sum += one(bits[first + k]);
    }
    sum
}

/// How many ones are before each block, and how many there are.
pub fn count_blocks(alloc: Global, bits: &[bool]) -> Result<(Vec<u32>, usize), AllocError>
    requires { length bits.now ≤ MOST_PLACES }
    ensures { IfOk result (λ made. CountsBlocks bits.now made.0.items × (made.1 ≡ ones_before bits.now (length bits.now))) }
{
    let blocks = bits.len() / BLOCK;
    let mut before = Vec::with_capacity(alloc, blocks + 1)?;
    let mut ones: u32 = 0;
    for block in 0..blocks {
        before.push_reserved(ones);
        ones += few_ones(bits, block * BLOCK, BLOCK) as u32;
    }
    before.push_reserved(ones);
    ones += few_ones(bits, blocks * BLOCK, bits.len() % BLOCK) as u32;
    Ok((before, ones as usize))
}

/// The last block before which there are no more ones than this. The numbers of ones do not fall from block to block.
fn block_of(before: &[u32], ones: u32) -> usize
    requires some { 0 < length before.now }
    requires first { slice_index before.now 0 ≤ ones }
    ensures block { result < length before.now }
    ensures before { slice_index before.now result ≤ ones }
    ensures last { result + 1 < length before.now → ones < slice_index before.now (result + 1) }
{
    let mut low = 0;
    let mut high = before.len();
    while high - low > 1 {
        let middle = low + (high - low) / 2;
        if before[middle] <= ones {
            low = middle;
        } else {
            high = middle;
        }
    }
    low
}

/// The index that is so many ones after another.
fn skip_ones(bits: &[bool], first: usize, ones: usize) -> usize
    requires { ones_before bits.now first + ones ≤ ones_before bits.now (length bits.now) }
    ensures { ones_before bits.now result ≡ ones_before bits.now first + ones }
{
    let mut i = first;
    let mut left = ones;
    while left > 0 {
        left -= bits[i] as usize;
        i += 1;
    }
    i
}

/// The index of the next one.
fn next_one(bits: &[bool], first: usize) -> usize
    requires { ones_before bits.now first < ones_before bits.now (length bits.now) }
    ensures index { result ≡ one_index bits.now (ones_before bits.now first) }
    ensures within { result < length bits.now }
{
    let mut i = first;
    while !bits[i] {
        i += 1;
    }
    i
}

/// Truth values, and how many ones are before each block of them.
#[derive(Clone, Copy)]
pub struct CountedBits<'a> {
    pub bits: &'a [bool],
    pub before: &'a [u32],
    /// How many ones there are.
    pub count: usize,
    ghost blocks: { CountsBlocks bits.now before.now },
    ghost all: { count ≡ ones_before bits.now (length bits.now) },
    ghost most: { length bits.now ≤ MOST_PLACES },
}

impl CountedBits<'_> {
    /// How many ones are before an index.
    #[inline(always)]
    pub(crate) fn count_before(self, index: usize) -> usize
        requires { index ≤ length self.bits.now }
        ensures { result ≡ ones_before self.entry.bits.now index }
    {
        let block = index / BLOCK;
        self.before[block] as usize + few_ones(self.bits, block * BLOCK, index % BLOCK) as usize
    }

    /// An index before which there are so many ones.
    pub(crate) fn index_after(&self, ones: usize) -> usize
        requires { ones ≤ self.now.count }
        ensures { ones_before self.now.bits.now result ≡ ones }
    {
        let block = block_of(self.before, ones as u32);
        skip_ones(self.bits, block * BLOCK, ones - self.before[block] as usize)
    }

    /// The index of a one by its number.
    pub(crate) fn index(&self, number: usize) -> usize
        requires { number < self.now.count }
        ensures index { result ≡ one_index self.now.bits.now number }
        ensures within { result < length self.now.bits.now }
    {
        next_one(self.bits, self.index_after(number))
    }
}

//! Truth values in lines of neighbours, each joined with all before it in its line by `≠`. Eight of them are the bytes of a word. The sums
//! of its first bytes are the bytes of a product, and their lowest bits are the running parities.
ghost use Rattle.std.specs.Prelude.{◌≡◌, ℕ, ◌+◌, ◌*◌, ◌/◌, ◌<◌, ◌≤◌, ◌++◌, Bool, false, List, IfOk, length, map, nat_eq, slice_index_or, vec_len, vec_capacity};
ghost use Rattle.std.specs.Int.{bit_at};
ghost use Rattle.apl_array.specs.Array.{bit};
ghost use Rattle.apl_array.specs.declared.function.ScalarFunction.TheVariants.{NotEqual};
ghost use Rattle.apl_scan.specs.Parities.{parity, parities, spread, word_of};
ghost use Rattle.apl_scan.specs.TruthLines.{AreTruthScans};

use crate::summarized::room_for;
use apl_pool::Crew;
use std::alloc::AllocError;

/// How many bytes a word has.
const BYTES: usize = 8;

/// The word whose bytes are all 1.
const ONES: u64 = 0x0101_0101_0101_0101;

/// The word whose bytes are eight truth values, the first of them the lowest.
#[inline(always)]
fn word_from(truths: &[bool]) -> u64
    requires { length truths.now ≡ 8 }
    ensures { result ≡ word_of truths.now }
{
    truths[0] as u64
        + 256 * (truths[1] as u64)
        + 65536 * (truths[2] as u64)
        + 16777216 * (truths[3] as u64)
        + 4294967296 * (truths[4] as u64)
        + 1099511627776 * (truths[5] as u64)
        + 281474976710656 * (truths[6] as u64)
        + 72057594037927936 * (truths[7] as u64)
}

/// The word whose bits all are a truth value.
#[inline(always)]
fn spread(truth: bool) -> u64
    ensures { result ≡ spread truth }
{
    (truth as u64).wrapping_neg()
}

/// The running parities of a word of truth values, as the lowest bits of its bytes. The parity before them is spread.
#[inline(always)]
fn running_parities(word: u64, before: u64) -> u64
    ensures { (odd : Bool) (truths : List Bool) (j : ℕ) (d : Bool) → before ≡ spread odd → length truths ≡ 8 → word ≡ word_of truths → j < 8 → nat_eq (bit_at result (8 * j)) 1 ≡ slice_index_or (parities odd truths) j d }
{
    let sums = word.wrapping_mul(ONES);
    (sums ^ before) & ONES
}

/// Whether a byte of a word is odd.
#[inline(always)]
fn is_odd(word: u64, byte: usize) -> bool
    requires { byte < 8 }
    ensures { result ≡ nat_eq (bit_at word (8 * byte)) 1 }
{
    (word >> (8 * byte)) & 1 == 1
}

/// Appends the running parities of eight truth values. The parity before them is spread, and so is the one after them, which is answered.
#[inline(always)]
fn append_word(truths: &[bool], before: u64, values: &mut Vec<bool>) -> u64
    requires word { length truths.now ≡ 8 }
    requires room { vec_len values.old + 8 ≤ vec_capacity values.old }
    ensures items { (odd : Bool) → before ≡ spread odd → values.new.items ≡ values.old.items ++ parities odd truths.now }
    ensures after { (odd : Bool) → before ≡ spread odd → result ≡ spread (parity odd truths.now) }
    ensures len { vec_len values.new ≡ vec_len values.old + 8 }
    ensures capacity { vec_capacity values.new ≡ vec_capacity values.old }
{
    let word = running_parities(word_from(truths), before);
    for byte in 0..BYTES {
        values.push_reserved(is_odd(word, byte));
    }
    spread(is_odd(word, BYTES - 1))
}

/// Appends the running parities of truth values one by one. `before` is the parity before them.
#[inline(always)]
fn append_each(truths: &[bool], before: bool, values: &mut Vec<bool>)
    requires room { vec_len values.old + length truths.now ≤ vec_capacity values.old }
    ensures items { values.new.items ≡ values.old.items ++ parities before truths.now }
    ensures len { vec_len values.new ≡ vec_len values.old + length truths.now }
    ensures capacity { vec_capacity values.new ≡ vec_capacity values.old }
{
    let mut parity = before;
    for truth in truths {
        parity = parity != *truth;
        values.push_reserved(parity);
    }
}

/// Appends the running parities of a line to a list that has room for them: those of its words, and then of its last truth values.
fn append_line(truths: &[bool], values: Vec<bool>) -> Vec<bool>
    requires room { vec_len values + length truths.now ≤ vec_capacity values }
    ensures items { result.items ≡ values.items ++ parities false truths.now }
    ensures len { vec_len result ≡ vec_len values + length truths.now }
    ensures capacity { vec_capacity result ≡ vec_capacity values }
{
    let mut values = values;
    let mut before = 0;
    for word in 0..truths.len() / BYTES {
        let first = word * BYTES;
        before = append_word(&truths[first..first + BYTES], before, &mut values);
    }
    let whole = truths.len() / BYTES * BYTES;
    append_each(&truths[whole..], before != 0, &mut values);
    values
}

/// Lines of neighbours, each with `items` truth values, of which each is joined with all before it in its line.
pub(crate) fn join_by_parity<W: Crew>(
    workers: &W,
    truths: &[bool],
    items: usize,
) -> Result<Vec<bool>, AllocError>
    requires items { 0 < items }
    requires lines { length truths.now / items * items ≡ length truths.now }
    ensures { IfOk result (λ v. AreTruthScans NotEqual truths.now items (map bit v.items)) }
{
    let mut values = room_for(workers, truths.len())?;
    for line in 0..truths.len() / items {
        let first = line * items;
        values = append_line(&truths[first..first + items], values);
    }
    Ok(values)
}

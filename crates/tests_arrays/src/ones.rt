//! How many of a few neighbours among truth values are ones.
use crate::notation::{array_of, held_truths, rows_of};
use apl_walk::few_ones;
use std::alloc::Global;
use std::test::Fail;

/// Truth values, the first of the neighbours and how many these are, and how many of them are ones.
const ONES: &str = "\
    0: truths from 0 for 0 → 0
    1: truths 1 from 0 for 1 → 1
    1: truths 0 from 0 for 1 → 0
    8: truths 1 1 0 1 0 0 1 1 from 0 for 8 → 5
    8: truths 1 1 0 1 0 0 1 1 from 1 for 5 → 2
    8: truths 1 1 0 1 0 0 1 1 from 8 for 0 → 0
    ⍝ every fourth
    100: truths 1 0 0 0 from 2 for 17 → 4
    100: truths 1 0 0 0 from 0 for 33 → 9
    ⍝ every other one
    10000: truths 1 0 from 4001 for 128 → 64
    10000: truths 1 0 from 4000 for 129 → 65
    10000: truths 1 0 from 4001 for 129 → 64
    ⍝ as many as a byte counts
    300: truths 1 0 0 from 1 for 255 → 85
    10000: truths 1 1 0 from 9745 for 255 → 170
    10000: truths 0 from 5000 for 255 → 0
    255: truths 1 from 0 for 255 → 255
    ";

/// The ones of a row `ARRAY from FIRST for COUNT → ONES`, and how many are wanted.
fn ones_of(alloc: Global, row: &str) -> Option<(u8, u8)> {
    let (call, wanted) = row.split_once(" → ")?;
    let (text, neighbours) = call.split_once(" from ")?;
    let (first, count) = neighbours.split_once(" for ")?;
    let (first, count) = (first.parse::<usize>().ok()?, count.parse::<usize>().ok()?);
    let array = array_of(alloc, text)?;
    let truths = held_truths(&array)?;
    if count > 255 || truths.len() < count || truths.len() - count < first {
        return None;
    }
    Some((few_ones(truths, first, count), wanted.parse::<u8>().ok()?))
}

#[test]
fn ones_of_neighbours(rt: HostRuntime) -> Result<(), Fail> {
    let rows = rows_of(rt.alloc(), ONES)?;
    assert_eq!(rt; rows.len(), 15);
    for row in &rows {
        let Some((ones, wanted)) = ones_of(rt.alloc(), row) else {
            return Err(Fail::new(format_args!("not a row: {row}")));
        };
        assert!(rt; ones == wanted, "{row}");
    }
    Ok(())
}

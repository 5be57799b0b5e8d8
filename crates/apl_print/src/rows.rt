//! Rows of fields, and the lines that they are on.
ghost use Rattle.std.specs.Prelude.{◌≡◌, ℕ, ◌+◌, ◌-◌, ◌*◌, ◌<◌, ◌≤◌, ◌++◌, All, IfSome, IfOk, OnOk, length, take, map, max, replicate, slice_index, None};
ghost use Rattle.apl_array.specs.Shape.{count_of, most_elements};
ghost use Rattle.apl_array.specs.Array.{IsArray, element_in};
ghost use Rattle.apl_print.specs.Shown.{field_of, gap_of, row_count, rows_of, column_width, padded, aligned, plane_starts, empty_lines};
ghost use Rattle.apl_print.specs.Layout.{lead, column_after, rest_of_row, rest_of_rows, fields_between, aligned_rows, GrowsBy};

use apl_array::{Array, Elem, Kind};
use itoa::Buffer;
use std::alloc::{AllocError, Global};

/// The width of lines, and the blanks between fields.
#[derive(Clone, Copy)]
pub(crate) struct Layout {
    width: u8,
    gap: u8,
}

impl Layout {
    pub(crate) fn new(width: u8, kind: Kind) -> Layout
        ensures width { result.width ≡ width }
        ensures gap { result.gap ≡ gap_of kind }
    {
        let gap = match kind {
            Kind::Number => 1,
            Kind::Character => 0,
        };
        Layout { width, gap }
    }

    /// How many bytes the text of `count` elements has at least.
    pub(crate) fn least_length(self, count: usize) -> usize
        requires { count ≤ most_elements }
    {
        count * (1 + usize::from(self.gap))
    }

    /// Puts the row of the elements from one place up to another, each as wide as its column.
    pub(crate) fn put_row(
        self,
        text: &mut String,
        array: &Array,
        start: usize,
        end: usize,
        widths: &[u8],
    ) -> Result<(), AllocError>
        requires lawful { IsArray array.now }
        requires order { start ≤ end }
        requires within { end ≤ count_of array.now.shape }
        ensures laid { OnOk result (
            let row = aligned (slice_index widths.now) 0 (fields_between array.now start end) in
            GrowsBy text.old text.new (rest_of_row self.width self.gap None row)) }
        ensures short { OnOk result (All (λ field. length field ≤ 21) (fields_between array.now start end)) }
    {
        let mut column = None;
        'places: for place in start..end {
            let element = array.get(place);
            let width = width_at(widths, place - start);
            column = Some(self.put_field(text, column, element, width)?);
        }
        text.push('\n')
    }

    /// Puts a field after what the open line has, and answers how many characters that line then has.
    fn put_field(
        self,
        text: &mut String,
        column: Option<usize>,
        element: Elem,
        width: u8,
    ) -> Result<usize, AllocError>
        requires { IfSome column (λ c. c ≤ 300) }
        ensures text { OnOk result (
            let field = padded width (field_of element) in
            GrowsBy text.old text.new (lead self.width self.gap column (length field) ++ field)) }
        ensures column { IfOk result (λ next.
            next ≡ column_after self.width self.gap column (length (padded width (field_of element)))) }
        ensures open { IfOk result (λ next. next ≤ 300) }
        ensures short { length (field_of element) ≤ 21 }
    {
        let length = length_of(element);
        let padding = width.saturating_sub(length);
        let next = self.put_lead(text, column, usize::from(length) + usize::from(padding))?;
        push_run(text, ' ', usize::from(padding))?;
        push_element(text, element)?;
        Ok(next)
    }

    /// Puts what comes before a field of `size` characters, and answers how many characters the line has after the field.
    fn put_lead(
        self,
        text: &mut String,
        column: Option<usize>,
        size: usize,
    ) -> Result<usize, AllocError>
        requires open { IfSome column (λ c. c ≤ 300) }
        requires short { size ≤ 280 }
        ensures text { OnOk result (GrowsBy text.old text.new (lead self.width self.gap column size)) }
        ensures column { IfOk result (λ next. next ≡ column_after self.width self.gap column size) }
        ensures open { IfOk result (λ next. next ≤ 300) }
    {
        let Some(column) = column else {
            return Ok(size);
        };
        let gap = usize::from(self.gap);
        if column + gap + size <= usize::from(self.width) {
            push_run(text, ' ', gap)?;
            Ok(column + gap + size)
        } else {
            text.push('\n')?;
            push_run(text, ' ', INDENT)?;
            Ok(INDENT + size)
        }
    }
}

/// The blanks before a continuation line.
const INDENT: usize = 6;

/// Puts the rows of an array of rank 2 and above that has elements.
pub(crate) fn put_rows(
    alloc: Global,
    text: &mut String,
    layout: Layout,
    array: &Array,
) -> Result<(), AllocError>
    requires rank { 1 < length array.now.shape }
    requires some { 0 < count_of array.now.shape }
    ensures laid { OnOk result (
        GrowsBy text.old text.new (rest_of_rows layout.width layout.gap array.now.shape 0 (aligned_rows array.now))) }
    ensures short { OnOk result (All (λ field. length field ≤ 21) (map field_of array.now.ravel)) }
{
    let lengths = array.shape().lengths();
    let columns = lengths[lengths.len() - 1];
    let rows = array.shape().count() / columns;
    let widths = column_widths(alloc, array, rows, columns)?;
    'rows: for row in 0..rows {
        push_run(text, '\n', empty_lines(lengths, row))?;
        layout.put_row(
            text,
            array,
            row * columns,
            (row + 1) * columns,
            widths.as_slice(),
        )?;
    }
    Ok(())
}

/// How many empty lines are before a row.
fn empty_lines(lengths: &[usize], row: usize) -> usize
    requires some { 0 < count_of lengths.now }
    requires most { count_of lengths.now ≤ most_elements }
    ensures { result ≡ empty_lines lengths.now row }
{
    if row == 0 {
        0
    } else {
        plane_starts(lengths, row)
    }
}

/// Along how many axes but the last two a plane begins at this row.
fn plane_starts(lengths: &[usize], row: usize) -> usize
    requires some { 0 < count_of lengths.now }
    requires most { count_of lengths.now ≤ most_elements }
    ensures starts { result ≡ plane_starts lengths.now row }
    ensures few { result ≤ length lengths.now }
{
    match lengths {
        [_, rest @ ..] if rest.len() > 1 => {
            usize::from(row % row_count(rest) == 0) + plane_starts(rest, row)
        }
        _ => 0,
    }
}

/// How many rows an array of these lengths has.
fn row_count(lengths: &[usize]) -> usize
    requires some { 0 < count_of lengths.now }
    requires most { count_of lengths.now ≤ most_elements }
    ensures rows { result ≡ row_count lengths.now }
    ensures some { 0 < result }
    ensures most { result ≤ count_of lengths.now }
{
    match lengths {
        [] | [_] => 1,
        [first, rest @ ..] => *first * row_count(rest),
    }
}

/// The length of the widest field of each column, over `rows` rows.
fn column_widths(
    alloc: Global,
    array: &Array,
    rows: usize,
    columns: usize,
) -> Result<Vec<u8>, AllocError>
    requires lawful { IsArray array.now }
    requires whole { rows * columns ≡ count_of array.now.shape }
    ensures widths { IfOk result (λ widths. (k : ℕ) → k < columns
        → slice_index widths.items k ≡ column_width (rows_of rows columns (map field_of array.now.ravel)) k) }
    ensures short { OnOk result (All (λ field. length field ≤ 21) (map field_of array.now.ravel)) }
{
    let mut widths = vec![in alloc; 0; columns]?;
    'rows: for row in 0..rows {
        widen(widths.as_mut_slice(), array, row * columns);
    }
    Ok(widths)
}

/// Widens columns for the row that begins at a place.
fn widen(widths: &mut [u8], array: &Array, start: usize)
    requires lawful { IsArray array.now }
    requires within { start + length widths.old ≤ count_of array.now.shape }
    ensures widths { (k : ℕ) → k < length widths.old → slice_index widths.new k
        ≡ max (slice_index widths.old k) (length (field_of (element_in array.now (start + k)))) }
    ensures short { (k : ℕ) → k < length widths.old
        → length (field_of (element_in array.now (start + k))) ≤ 21 }
{
    'columns: for (k, width) in widths.iter_mut().enumerate() {
        *width = (*width).max(length_of(array.get(start + k)));
    }
}

/// The width of column `k`, 0 if none is given.
fn width_at(widths: &[u8], k: usize) -> u8
    ensures { result ≡ slice_index widths.now k }
{
    if k < widths.len() { widths[k] } else { 0 }
}

/// How many characters the field of an element has.
fn length_of(element: Elem) -> u8
    ensures size { result ≡ length (field_of element) }
    ensures short { result ≤ 21 }
{
    match element {
        Elem::Int(number) => {
            let digits = Buffer::new().format(number.unsigned_abs()).len() as u8;
            if number < 0 { digits + 1 } else { digits }
        }
        Elem::Chr(_) => 1,
    }
}

/// Puts the field of an element.
fn push_element(text: &mut String, element: Elem) -> Result<(), AllocError>
    ensures { OnOk result (GrowsBy text.old text.new (field_of element)) }
{
    match element {
        Elem::Int(number) => {
            if number < 0 {
                text.push('¯')?;
            }
            text.push_str(Buffer::new().format(number.unsigned_abs()))
        }
        Elem::Chr(character) => text.push(character),
    }
}

/// Puts a character `count` times.
fn push_run(text: &mut String, character: char, count: usize) -> Result<(), AllocError>
    ensures { OnOk result (GrowsBy text.old text.new (replicate count character)) }
{
    'run: for _i in 0..count {
        text.push(character)?;
    }
    Ok(())
}

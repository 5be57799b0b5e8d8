//! What the checks ask of an argument.
ghost use Rattle.std.specs.Prelude.{◌≡◌, ◌+◌, ◌<◌, ◌⊎◌, true, false, IfErr, IfOk, length, map, remove};
ghost use Rattle.apl_array.specs.Array.{IsArray};
ghost use Rattle.apl_array.specs.declared.array.Elem.TheVariants.{Int};
ghost use Rattle.apl_answer.specs.declared.fault.OpFault.TheVariants.{Domain, Memory};
ghost use Rattle.apl_answer.specs.Arguments.{is_numbers, numbers_of, is_same_shape};
ghost use Rattle.apl_answer.specs.Numbers.{number_list};
ghost use Rattle.apl_struct.specs.Axes.{axis_number_of};
ghost use Rattle.apl_struct.specs.Held.{held_list};

use apl_answer::{Numbers, OpFault, numbers_of};
use apl_array::{Array, Elem, Elements};
use apl_pool::Crew;

/// How many numbers are taken in one turn of a loop.
pub(crate) const TURN: usize = 4;

/// The numbers of an array in row order. It is of numbers or without elements (`Domain`).
pub(crate) fn numbers_among<'a, W: Crew>(workers: &W, a: &'a Array) -> Result<Numbers<'a>, OpFault>
    ensures numbers { IfOk result (λ ns. (is_numbers a.now ≡ true) × (numbers_of a.now ≡ number_list ns)) }
    ensures ravel { IfOk result (λ ns. a.now.ravel ≡ map Int (number_list ns)) }
    ensures refused { IfErr result (λ fault. ((fault ≡ Domain) × (is_numbers a.now ≡ false)) ⊎ (fault ≡ Memory)) }
    ensures lawful { IsArray a.now }
{
    match numbers_of(workers, a)? {
        Some(numbers) => Ok(numbers),
        None if a.shape().count() == 0 => Ok(Numbers::Held(&[])),
        None => Err(OpFault::Domain),
    }
}

/// Numbers in row order: those of 32 bits as they are held, and others in 64 bits.
#[derive(Drop)]
pub(crate) enum HeldNumbers<'a> {
    Narrow(&'a [i32]),
    Wide(Numbers<'a>),
}

/// The numbers of an array, those of 32 bits as they are held. It is of numbers or without elements (`Domain`).
pub(crate) fn held_numbers<'a, W: Crew>(
    workers: &W,
    a: &'a Array,
) -> Result<HeldNumbers<'a>, OpFault>
    ensures numbers { IfOk result (λ ns. (is_numbers a.now ≡ true) × (numbers_of a.now ≡ held_list ns)) }
    ensures refused { IfErr result (λ fault. ((fault ≡ Domain) × (is_numbers a.now ≡ false)) ⊎ (fault ≡ Memory)) }
    ensures lawful { IsArray a.now }
{
    if let Elements::Narrow(numbers) = a.elements() {
        return Ok(HeldNumbers::Narrow(numbers));
    }
    Ok(HeldNumbers::Wide(numbers_among(workers, a)?))
}

/// Whether the lengths of a shape are those of another without axis `k`.
pub(crate) fn is_without_axis(a: &[usize], b: &[usize], k: usize) -> bool
    requires axis { k < length b.now }
    requires rank { length a.now + 1 ≡ length b.now }
    ensures { result ≡ is_same_shape a.now (remove b.now k) }
{
    let [length, lengths @ ..] = b else {
        return false;
    };
    match a {
        [first, others @ ..] if k > 0 => *first == *length
            && is_without_axis(others, lengths, k - 1),
        _ => a == lengths,
    }
}

/// The number that an axis argument is: the only element of a scalar or a vector. Its rank is judged
/// first (`Rank`), then its length (`Length`), then its kind (`Domain`).
pub fn axis_number(axis: &Array) -> Result<i64, OpFault>
    ensures { result ≡ axis_number_of axis.now }
{
    if axis.shape().rank() > 1 {
        return Err(OpFault::Rank);
    }
    if axis.shape().count() != 1 {
        return Err(OpFault::Length);
    }
    match axis.get(0) {
        Elem::Int(number) => Ok(number),
        Elem::Chr(_) => Err(OpFault::Domain),
    }
}

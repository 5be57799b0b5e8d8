//! The loops over results, of which one is chosen by the function.
ghost use Rattle.std.specs.Prelude.{◌≡◌};

use crate::function_types::Stile;
use crate::kernels::Arguments;
use crate::runs::HeldRuns;
use crate::{with_number_type, with_truth_type};
use apl_array::ScalarFunction;
use apl_pool::FirstFault;

/// A type that results are held as, with a loop for each function whose results are held so. No loops are made for the others.
pub trait HeldLoops: HeldRuns {
    ghost use Rattle.std.specs.Prelude.{◌≡◌, ◌+◌, ◌≤◌, Bool, true, IfErr, OnOk, length};
    ghost use Rattle.apl_array.specs.declared.function.ScalarFunction.{ScalarFunction};
    ghost use Rattle.apl_pool.specs.declared.kernel.TheConstants.{MOST_PLACES};
    ghost use Rattle.apl_pool.specs.Runs.{AreWritten, IsFaultAfter};

    // Whether the results of a function are held so.
    ghost is_of: { ScalarFunction → Bool };

    /// Writes what a function gives, as `write_results`.
    fn write_results_of<A: Arguments>(
        f: ScalarFunction,
        arguments: A,
        from: usize,
        to: usize,
        room: &mut [Self],
    ) -> Result<(), FirstFault>
        requires held { is_of f ≡ true }
        requires order { from ≤ to }
        requires places { to ≤ A.served arguments }
        requires most { to ≤ MOST_PLACES }
        requires room { from + length room.old ≡ to }
        ensures values { OnOk result (AreWritten (λ place. Self.held (A.outcome arguments f place)) from to room.new) }
        ensures fault { IfErr result (λ first. IsFaultAfter (λ place. Self.held (A.outcome arguments f place)) from to first.place first.fault room.new) }
        ensures len { length room.new ≡ length room.old };
}

impl HeldLoops for i64 {
    ghost use Rattle.std.specs.Prelude.{not};
    ghost use Rattle.apl_scalar.specs.Scalar.{is_truth_valued};

    ghost is_of = { λ f. not (is_truth_valued f) };

    #[inline(always)]
    fn write_results_of<A: Arguments>(
        f: ScalarFunction,
        arguments: A,
        from: usize,
        to: usize,
        room: &mut [i64],
    ) -> Result<(), FirstFault> {
        with_number_type!(f, arguments.write::<F, i64>(from, to, room), unreachable!())
    }
}

/// Residues alone are held in 32 bits.
impl HeldLoops for i32 {
    ghost use Rattle.apl_scalar.specs.Scalar.{is_residue};

    ghost is_of = { is_residue };

    #[inline(always)]
    fn write_results_of<A: Arguments>(
        f: ScalarFunction,
        arguments: A,
        from: usize,
        to: usize,
        room: &mut [i32],
    ) -> Result<(), FirstFault> {
        match f {
            ScalarFunction::Stile => arguments.write::<Stile, i32>(from, to, room),
            _ => unreachable!(),
        }
    }
}

impl HeldLoops for bool {
    ghost use Rattle.apl_scalar.specs.Scalar.{is_truth_valued};

    ghost is_of = { is_truth_valued };

    #[inline(always)]
    fn write_results_of<A: Arguments>(
        f: ScalarFunction,
        arguments: A,
        from: usize,
        to: usize,
        room: &mut [bool],
    ) -> Result<(), FirstFault> {
        with_truth_type!(
            f,
            arguments.write::<F, bool>(from, to, room),
            unreachable!()
        )
    }
}

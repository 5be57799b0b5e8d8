//! Why a function of arrays has no value.

use apl_array::ShapeError;
use apl_pool::{Fault, Stop};
use std::alloc::AllocError;

/// Why a function of arrays has no value.
#[derive(Clone, Copy, Debug, PartialEq, Eq)]
pub enum OpFault {
    /// The ranks do not agree.
    Rank,
    /// The lengths do not agree.
    Length,
    /// An index isn't one of the axis.
    Index,
    /// A function isn't defined there.
    Domain,
    /// The exact value exceeds a limit.
    Limit,
    /// A growth was refused.
    Memory,
}

impl From<Fault> for OpFault {
    ghost use Rattle.std.specs.Prelude.{◌≡◌};
    ghost use Rattle.apl_answer.specs.Faults.{op_fault_of};

    ghost from_gives = { λ fault r. r ≡ op_fault_of fault };

    fn from(fault: Fault) -> Self {
        match fault {
            Fault::Domain => OpFault::Domain,
            Fault::Limit => OpFault::Limit,
            Fault::Index => OpFault::Index,
        }
    }
}

impl From<Stop> for OpFault {
    ghost use Rattle.std.specs.Prelude.{◌≡◌};
    ghost use Rattle.apl_answer.specs.Faults.{op_fault_of_stop};

    ghost from_gives = { λ stop r. r ≡ op_fault_of_stop stop };

    fn from(stop: Stop) -> Self {
        match stop {
            Stop::Fault { place: _, fault } => OpFault::from(fault),
            Stop::Memory => OpFault::Memory,
        }
    }
}

impl From<ShapeError> for OpFault {
    ghost use Rattle.std.specs.Prelude.{◌≡◌};
    ghost use Rattle.apl_answer.specs.Faults.{op_fault_of_shape};

    ghost from_gives = { λ error r. r ≡ op_fault_of_shape error };

    fn from(error: ShapeError) -> Self {
        match error {
            ShapeError::Rank | ShapeError::Count => OpFault::Limit,
            ShapeError::Memory => OpFault::Memory,
        }
    }
}

impl From<AllocError> for OpFault {
    ghost use Rattle.std.specs.Prelude.{◌≡◌};
    ghost use Rattle.apl_answer.specs.declared.fault.OpFault.TheVariants.{Memory};

    ghost from_gives = { λ e r. r ≡ Memory };

    fn from(_: AllocError) -> Self {
        OpFault::Memory
    }
}

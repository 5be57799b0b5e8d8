//! How the program ends.
ghost use Rattle.std.specs.Prelude.{◌≡◌};
ghost use Rattle.apl_session.specs.Ending.{ending_status, ending_message};

use crate::interpreter::RunFault;

/// The program's exit status, and its line for standard error without the LF. At the end of a run they are 0 and no text. After a fault the
/// status is 1.
pub fn ending(outcome: &Result<(), RunFault>) -> (u8, &'static str)
    ensures status { result.0 ≡ ending_status outcome.now }
    ensures message { result.1.now ≡ ending_message outcome.now }
{
    match outcome {
        Ok(()) => (0, ""),
        Err(RunFault::Read) => (1, "aplcalc: read failed"),
        Err(RunFault::Write) => (1, "aplcalc: write failed"),
        Err(RunFault::Memory) => (1, "aplcalc: no memory"),
    }
}

ghost use Rattle.std.specs.Prelude.{◌≡◌, Some, slice_get};
ghost use Rattle.dt_eval.specs.Calls.{CallFits};
ghost use Rattle.dt_eval.specs.Meaning.{Fits, HasKeys};

use dt_proc::{Proc, Procs};
use dt_text::Value;

/// The procedure that a call names, which its arguments fit.
pub(crate) fn called<'a>(procs: &'a Procs, number: u32, args: &[Value]) -> &'a Proc
    requires { CallFits procs.now number args.now }
    ensures named { slice_get procs.now number ≡ Some result.now }
    ensures fits { Fits result.now args.now }
    ensures keys { HasKeys result.now args.now }
{
    match procs.get(number) {
        Some(proc) => proc,
        None => unreachable!(),
    }
}

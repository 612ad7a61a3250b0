ghost use Rattle.std.specs.Prelude.{◌↔◌, IsTrue, slice_get};
ghost use Rattle.dt_lists.specs.Lists.{AnyIn};
ghost use Rattle.dt_lock.specs.LongInner.{IsLong, IsLongIn};

use dt_proc::Procs;

/// Whether some procedure is long. It looks at no statement.
pub fn some_is_long(procs: &Procs) -> bool
    ensures { IsTrue result ↔ AnyIn IsLong procs.now }
{
    (0..procs.len()).any(|number| is_long(procs, number))
}

/// Whether there is a procedure of this number, counted from 0, and it is long. It looks at no statement.
#[tactic(auto, using(crate::proofs::LongProcedures::outermost_of))]
pub fn is_long(procs: &Procs, number: u32) -> bool
    ensures { IsTrue result ↔ IsLongIn (slice_get procs.now number) }
{
    match procs.get(number) {
        Some(proc) => proc.body().len() >= LONG,
        None => false,
    }
}

// So many statements are some 0.13 ms of work, about what starting a thread and waiting for it costs: `bench/FIGURES.md` has the figures.
const LONG: usize = 4000;

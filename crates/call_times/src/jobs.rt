//! The threads that make the turns.
ghost use Rattle.std.specs.Prelude.{ℕ, ◌≡◌, ◌<◌, ◌++◌, [], ◌∷◌, length, map, slice_index_or};
ghost use Rattle.std.specs.Prelude.{None, Ok, Some, IfOk, IfSome, false, true};
ghost use Rattle.std.specs.Fork.{AcceptsJobs};

use std::alloc::Global;
use std::thread;
use std::thread::Threads;
use turn_loops::OutOfMemory;

/// Calls `turns` with each seat, each in a thread of its own where one can be made. The thread of the caller takes no
/// seat: it only waits, so its processor is free for one of the others. Once it answers, each call has returned.
/// Whether each of them answered something. Refused, for an allocation failure alone, some calls may not have been
/// made, and their seats are gone.
pub fn in_threads<R: Threads + Sync, T: Send + Drop, U: Send + Drop, F: Fn(T) -> Option<U> + Sync>(
    rt: &R,
    alloc: Global,
    seats: Vec<T>,
    turns: &F,
) -> Result<bool, OutOfMemory>
    requires { AcceptsJobs F.Fn turns.now seats.items }
    ensures { result ≡ Ok true → (i : ℕ) → i < length seats.items
        → (seat : _) × ((d : _) → slice_index_or seats.items i d ≡ seat)
        × ((made : _) × F.post turns.now seat (Some made)) }
{
    let jobs = jobs_of(alloc, seats)?;
    let turns_of = |job: Option<T>| -> bool
        requires { IfSome job (λ seat. F.pre turns.now seat) }
        ensures { result ≡ true → IfSome job
            (λ seat. (made : _) × F.post turns.entry.now seat (Some made)) }
    {
        match job {
            Some(seat) => turns(seat).is_some(),
            None => true,
        }
    };
    let made = thread::map_vec(rt, jobs, &turns_of)?;
    Ok(are_true(made.as_slice()))
}

/// Whether each of them is true.
fn are_true(flags: &[bool]) -> bool
    ensures { result ≡ true → (i : ℕ) → i < length flags.now
        → slice_index_or flags.now i false ≡ true }
{
    for flag in flags {
        if !*flag {
            return false;
        }
    }
    true
}

/// A job for each seat, and behind them one without a seat: `map_vec` makes the last job in the thread that calls it.
fn jobs_of<T: Drop>(alloc: Global, seats: Vec<T>) -> Result<Vec<Option<T>>, OutOfMemory>
    ensures { IfOk result (λ jobs.
        jobs.items ≡ map (λ seat. Some seat) seats.items ++ None ∷ []) }
{
    let mut jobs: Vec<Option<T>> = seats.into_iter().map(|seat| Some(seat)).collect(alloc)?;
    jobs.push(None)?;
    Ok(jobs)
}

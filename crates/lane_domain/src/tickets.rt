//! What each ticket grants.
ghost use Rattle.std.specs.Prelude.{◌≡◌, IfOk};
ghost use Rattle.lane_files.specs.Work.{IsWork};
ghost use Rattle.lane_domain.specs.Sizes.{by_ticket, interns_of, makes_of};

use lane_files::{OutOfMemory, Work, count_parts};
use std::alloc::Global;

/// The interns of each ticket: a number for each, which is how many pieces its file has. A step for each ticket.
pub(crate) fn list_interns(alloc: Global, work: &Work) -> Result<Vec<u64>, OutOfMemory>
    requires { IsWork work.now }
    ensures { IfOk result (λ interns.
        interns.items ≡ by_ticket (interns_of work.now) work.now) }
{
    let mut interns = Vec::new(alloc);
    for ticket in 0..work.tickets() {
        interns.push(work.file(ticket).pieces.len())?;
    }
    Ok(interns)
}

/// The makes of each ticket: a node for each piece of its file, and the slots of its record. A step for each piece of
/// each ticket.
pub(crate) fn list_makes(alloc: Global, work: &Work) -> Result<Vec<u64>, OutOfMemory>
    requires { IsWork work.now }
    ensures { IfOk result (λ makes. makes.items ≡ by_ticket (makes_of work.now) work.now) }
{
    let mut makes = Vec::new(alloc);
    for ticket in 0..work.tickets() {
        let file = work.file(ticket);
        makes.push(file.pieces.len() + count_parts(file))?;
    }
    Ok(makes)
}

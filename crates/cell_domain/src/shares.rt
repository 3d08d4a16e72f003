//! What each lane may bind and make.
ghost use Rattle.std.specs.Prelude.{◌≡◌, ◌≤◌, IfOk, length, map};
ghost use Rattle.lane_work.specs.Sizes.{slots_of_words};
ghost use Rattle.lane_work.specs.Work.{IsWork};
ghost use Rattle.cell_domain.specs.Opened.{by_lane, grants_for, quota_of, quotas_for, taker};

use epoch_refs::Quota;
use lane_work::{OutOfMemory, Work, count_parts};
use std::alloc::{AllocError, Global};

/// Each seat may use so many adds.
const ADDS: u64 = 1 << 40;

/// Which lane takes the ticket, of so many.
fn lane_of(work: &Work, lanes: u32, ticket: u64) -> usize
    requires work { IsWork work.now }
    requires lanes { 1 ≤ lanes }
    ensures { result ≡ taker work.now lanes ticket }
{
    (ticket % work.files.len() as u64 % u64::from(lanes)) as usize
}

/// How many pieces each lane's files have, a file as often as there are rounds. A step for each ticket.
fn list_pieces(alloc: Global, work: &Work, lanes: u32) -> Result<Vec<u64>, OutOfMemory>
    requires work { IsWork work.now }
    requires lanes { 1 ≤ lanes }
    ensures { IfOk result (λ pieces.
        pieces.items ≡ by_lane (λ words. length words) work.now lanes) }
{
    let mut pieces = vec![in alloc; 0; lanes as usize]?;
    for ticket in 0..work.tickets() {
        let lane = lane_of(work, lanes, ticket);
        pieces[lane] += work.file(ticket).pieces.len();
    }
    Ok(pieces)
}

/// How many slots the records of these pieces take. A step for each piece of each ticket.
fn list_parts(alloc: Global, work: &Work, lanes: u32) -> Result<Vec<u64>, OutOfMemory>
    requires work { IsWork work.now }
    requires lanes { 1 ≤ lanes }
    ensures { IfOk result (λ parts. parts.items ≡ by_lane slots_of_words work.now lanes) }
{
    let mut parts = vec![in alloc; 0; lanes as usize]?;
    for ticket in 0..work.tickets() {
        let lane = lane_of(work, lanes, ticket);
        parts[lane] += count_parts(work.file(ticket));
    }
    Ok(parts)
}

/// How many heads each seat may bind.
pub(crate) fn list_grants(alloc: Global, work: &Work, lanes: u32) -> Result<Vec<u64>, OutOfMemory>
    requires work { IsWork work.now }
    requires lanes { 1 ≤ lanes }
    ensures { IfOk result (λ grants. grants.items ≡ grants_for work.now lanes) }
{
    let mut grants = list_pieces(alloc, work, lanes)?;
    grants.insert(0, 0)?;
    Ok(grants)
}

/// The quotas of seats that may make so much.
fn quotas_of(alloc: Global, makes: &[u64]) -> Result<Vec<Quota>, AllocError>
    ensures { IfOk result (λ quotas. quotas.items ≡ map quota_of makes.now) }
{
    makes
        .iter()
        .map(|makes| Quota {
            makes: *makes,
            adds: ADDS,
        })
        .collect(alloc)
}

/// The quotas of the seats.
pub(crate) fn list_quotas(alloc: Global, work: &Work, lanes: u32) -> Result<Vec<Quota>, OutOfMemory>
    requires work { IsWork work.now }
    requires lanes { 1 ≤ lanes }
    ensures { IfOk result (λ quotas. quotas.items ≡ quotas_for work.now lanes) }
{
    let parts = list_parts(alloc, work, lanes)?;
    let mut quotas = quotas_of(alloc, &parts)?;
    quotas.insert(
        0,
        Quota {
            makes: 0,
            adds: ADDS,
        },
    )?;
    Ok(quotas)
}

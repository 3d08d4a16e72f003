//! How a domain is opened for lanes.
ghost use Rattle.std.specs.Prelude.{◌≡◌, ◌≤◌, ◌<◌, ◌*◌, ◌∷◌, IfErr, IfOk, OnErr, OnOk, replicate};
ghost use Rattle.lane_files.specs.plain_state.Limits.{most_slots};
ghost use Rattle.lane_files.specs.acquire_retire.Calls.{IsOf};
ghost use Rattle.lane_files.specs.claim_law.Claims.{makes_given};
ghost use Rattle.lane_files.specs.Ready.{IsReady};
ghost use Rattle.lane_files.specs.Lanes.{HasGrants};
ghost use Rattle.lane_files.specs.Makes.{GrantsMakes};
ghost use Rattle.lane_files.specs.Work.{IsWork};
ghost use Rattle.lane_domain.specs.Opened.{FindsNoSlot, HasOnlyLaid, IsDirectoryFor, IsDomainFor, IsDomainForSome, IsQueueHere, IsWhyNotOpened, fresh_lanes, fresh_seat, lane_quota, root_quota};
ghost use Rattle.lane_domain.specs.Sizes.{IsWithinLimits, all_pieces, most_lanes};

use crate::opened::{OpenLanesError, Opened, Unlaid};
use crate::tickets::{list_interns, list_makes};
use lane_files::{
    AnyQueue, Directory, DirectoryLaw, Domain, Form, Left, MakeError, NodeKind, OpenError,
    OutOfMemory, PairKind, PayloadKind, QueueLaw, Quota, RecordKind, Seat, Shape, Shared, WordsLaw,
    Work, count_pieces, open_granted,
};
use std::alloc::Global;

/// The cell of the queue's first node.
const HEAD: u32 = 0;

/// The cell of its last node.
const TAIL: u32 = 1;

/// Seat 0 makes the queue's first node, and may make one object more.
const ROOT: Quota = Quota {
    makes: 2,
    adds: 1 << 40,
};

/// A lane makes what its tickets grant.
const LANE: Quota = Quota {
    makes: 0,
    adds: 1 << 40,
};

/// A walk of the directory ends at a null cell. Where half of all cells stay null, that is soon, even if no two pieces
/// are the same word. There is one more, since the place of a text is its hash modulo the number of cells: modulo a
/// power of 2 that hash is but a sum of the bytes.
const CELLS_FOR_EACH: u64 = 2;

/// A domain and its seats.
struct Begun {
    domain: Domain<WordsLaw>,
    root: Seat<WordsLaw>,
    seats: Vec<Seat<WordsLaw>>,
}

/// The quotas of seat 0 and of so many lanes.
fn list_quotas(alloc: Global, lanes: u32) -> Result<Vec<Quota>, OutOfMemory>
    ensures { IfOk result (λ quotas. quotas.items ≡ root_quota ∷ replicate lanes lane_quota) }
{
    let mut quotas = vec![in alloc; LANE; lanes as usize]?;
    quotas.insert(0, ROOT)?;
    Ok(quotas)
}

/// The law of a queue of this form over the strong cells 0 and 1, and of a directory over all weak cells whose interns
/// come with tickets.
fn law_of(alloc: Global, work: &Work, cells: u32, form: Form) -> Result<WordsLaw, OutOfMemory>
    requires work { IsWork work.now }
    requires within { IsWithinLimits work.now }
    requires cells { work.now.rounds * all_pieces work.now ≤ cells }
    ensures queue { IfOk result (λ law. IsQueueHere form law.pair.left) }
    ensures directory { IfOk result (λ law. IsDirectoryFor work.now cells law.pair.right) }
{
    let interns = list_interns(alloc, work)?;
    let directory = DirectoryLaw::granted(0, cells, interns);
    let queue = match form {
        Form::Linked => QueueLaw::linked(HEAD, TAIL),
        Form::Double => QueueLaw::double(HEAD, TAIL),
    };
    Ok(WordsLaw::new(queue, directory))
}

/// The domain, in which nothing has happened.
fn begin(
    alloc: Global,
    work: &Work,
    lanes: u32,
    slots: u32,
    form: Form,
) -> Result<Begun, OutOfMemory>
    requires work { IsWork work.now }
    requires within { IsWithinLimits work.now }
    requires lanes { (1 ≤ lanes) × (lanes ≤ most_lanes) }
    requires slots { (1 ≤ slots) × (slots ≤ most_slots) }
    ensures domain { IfOk result (λ begun. IsDomainFor work.now lanes slots form begun.domain) }
    ensures root { IfOk result (λ begun. begun.root ≡ fresh_seat begun.domain 0) }
    ensures seats { IfOk result (λ begun. begun.seats.items ≡ fresh_lanes begun.domain lanes) }
{
    let interns = work.rounds * count_pieces(work);
    let weak_cells = (CELLS_FOR_EACH * interns + 1) as u32;
    let shape = Shape {
        seats: lanes + 1,
        slots,
        cells: 2,
        weak_cells,
        batch: 4 * (lanes + 1),
    };
    let quotas = list_quotas(alloc, lanes)?;
    let grants = list_makes(alloc, work)?;
    let law = law_of(alloc, work, weak_cells, form)?;
    match open_granted(alloc, shape, &quotas, &grants, law) {
        Ok((domain, mut seats)) => {
            let root = seats.remove(0);
            Ok(Begun {
                domain,
                root,
                seats,
            })
        }
        Err(OpenError::OutOfMemory) => Err(OutOfMemory),
        Err(OpenError::BadShape(_)) => unreachable!(),
    }
}

/// Seat 0 lays the queue. It is refused only where it found each slot taken.
fn lay(
    domain: &Domain<WordsLaw>,
    root: &mut Seat<WordsLaw>,
    form: Form,
) -> Result<Shared, MakeError>
    requires domain { IsDomainForSome domain.now }
    requires form { domain.now.protocol.pair.left.form ≡ form }
    requires root { root.old ≡ fresh_seat domain.now 0 }
    ensures ready { IfOk result (λ shared. IsReady domain.now shared root.new) }
    ensures laid { OnOk result (HasOnlyLaid form root.new) }
    ensures missed { OnErr result (FindsNoSlot
        ⟦<PairKind<NodeKind, RecordKind> as PayloadKind>⟧.fits domain.now root.new) }
    ensures slots { OnErr result (domain.now.shape.slots < makes_given domain.now.terms) }
    ensures of_domain { OnErr result (IsOf domain.now root.new) }
{
    let queue = AnyQueue::lay::<Left, WordsLaw>(domain, root, form, HEAD, TAIL)?;
    Ok(Shared {
        queue,
        directory: Directory::over(0, domain.shape().weak_cells),
    })
}

/// Opens a domain for the work, with so many lanes and slots, and lays its queue in this form. Each seat may use 2^40
/// adds. A lane may make what its tickets grant: an object for each piece of the file, and one for each 120 bytes of a
/// piece.
///
/// It is refused where there is no memory; and `Full` only where there are fewer slots than the lanes may make objects,
/// and two: then the domain comes back with its seat 0, whose trail shows that each slot was taken. It takes all the
/// memory that the domain ever needs. Linear in the slots and in the pieces of all rounds.
pub fn open_lanes(
    alloc: Global,
    work: &Work,
    lanes: u32,
    slots: u32,
    form: Form,
) -> Result<Opened, OpenLanesError>
    requires work { IsWork work.now }
    requires within { IsWithinLimits work.now }
    requires lanes { (1 ≤ lanes) × (lanes ≤ most_lanes) }
    requires slots { (1 ≤ slots) × (slots ≤ most_slots) }
    ensures domain { IfOk result (λ opened.
        IsDomainFor work.now lanes slots form opened.domain) }
    ensures grants { IfOk result (λ opened. HasGrants opened.domain work.now) }
    ensures makes { IfOk result (λ opened. GrantsMakes opened.domain.terms.grants work.now) }
    ensures ready { IfOk result (λ opened. IsReady opened.domain opened.shared opened.root) }
    ensures root { IfOk result (λ opened. HasOnlyLaid form opened.root) }
    ensures seats { IfOk result (λ opened. opened.seats.items
        ≡ fresh_lanes opened.domain lanes) }
    ensures why { IfErr result (IsWhyNotOpened
        ⟦<PairKind<NodeKind, RecordKind> as PayloadKind>⟧.fits work.now lanes slots form) }
{
    let Begun {
        domain,
        mut root,
        seats,
    } = begin(alloc, work, lanes, slots, form)?;
    match lay(&domain, &mut root, form) {
        Ok(shared) => Ok(Opened {
            domain,
            root,
            seats,
            shared,
        }),
        Err(_full) => Err(OpenLanesError::Full(Unlaid { domain, root })),
    }
}

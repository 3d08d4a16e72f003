//! The jobs that draw words.
ghost use Rattle.std.specs.Prelude.{◌≡◌, ◌≤◌, [], ◌∷◌, IfErr, IfOk, List, ℕ};
ghost use Rattle.cdrc_run.specs.Jobs.{AreInRange, bulk, draw, drawn_texts, most_drawn, most_drawn_twice, next_draws, text_of_draws};
ghost use Rattle.cdrc_run.specs.Outputs.{IsOutput, IsWhyNoOutput};
ghost use Rattle.words_work.specs.Limits.{AreLanes};
ghost use Rattle.words_work.specs.Contents.{Counts, Told, bytes_of};

use crate::closing::last_lines;
use crate::outcome::{Output, RefusedSeat, Why};
use crate::refusing::of_words;
use cdrc_scripts::{Deleter, PairKind};
use command_line::{Bulk, Draws, OutOfMemory, PayloadKind, generate};
use std::alloc::Global;
use std::sync::Wait;
use std::thread::Threads;
use words_work::{Form, Gate, NodeKind, Plan, RecordKind, Refused, WordsDone, count_contents};

/// The text of drawn words.
pub(crate) fn draw_words(alloc: Global, draws: Draws) -> Result<Output, OutOfMemory>
    requires { AreInRange most_drawn draws }
    ensures { IfOk result (λ output.
        IsOutput (draw draws) [] output.text.items output.refused output.why) }
{
    let text = generate(alloc, draws.seed, draws.words, draws.vocabulary)?;
    Ok(Output {
        text,
        refused: false,
        why: Why::Nothing,
    })
}

/// The draws from the next seed.
fn next_draws(draws: Draws) -> Draws
    ensures { result ≡ next_draws draws }
{
    Draws {
        seed: draws.seed.wrapping_add(1),
        words: draws.words,
        vocabulary: draws.vocabulary,
    }
}

/// The text of drawn words, and that from the next seed.
fn draw_twice(alloc: Global, draws: Draws) -> Result<Vec<Vec<u8>>, OutOfMemory>
    requires { AreInRange most_drawn draws }
    ensures { IfOk result (λ texts.
        bytes_of texts.items ≡ text_of_draws draws ∷ text_of_draws (next_draws draws) ∷ []) }
{
    let next = next_draws(draws);
    let first = generate(alloc, draws.seed, draws.words, draws.vocabulary)?;
    let second = generate(alloc, next.seed, next.words, next.vocabulary)?;
    Ok(vec![in alloc; first, second]?)
}

/// The last three lines of what is told of two drawn texts. It may wait for other threads.
pub(crate) fn count_drawn<R: Threads + Wait + Sync, G: Gate + Sync>(
    rt: &R,
    alloc: Global,
    drawn: Bulk,
    gate: &G,
) -> Result<Output, Refused<RefusedSeat>>
    requires draws { AreInRange most_drawn_twice drawn.draws }
    requires lanes { AreLanes drawn.lanes }
    ensures output { IfOk result (λ output.
        IsOutput (bulk drawn) [] output.text.items output.refused output.why) }
    ensures why { IfErr result (λ error. (told : Told) → (counts : Counts) → IsWhyNoOutput
        ⟦<PairKind<NodeKind, RecordKind> as PayloadKind>⟧.fits (bulk drawn) told counts error) }
{
    let weigh: Deleter<PairKind<NodeKind, RecordKind>, _> = Deleter::keep(|payload: &[u64; 16]| {
        <PairKind<NodeKind, RecordKind> as PayloadKind>::weigh(payload)
    });
    let texts = draw_twice(alloc, drawn.draws)?;
    let plan = Plan {
        lanes: drawn.lanes,
        rounds: 1,
        slots: None,
        first: None,
        form: Form::Linked,
    };
    let counted = match count_contents(rt, alloc, plan, texts, gate, &weigh) {
        Ok(counted) => counted,
        Err(refusal) => return Err(of_words(refusal)),
    };
    let WordsDone {
        bytes,
        root,
        tallies,
    } = counted;
    Ok(Output {
        text: Vec::from_slice(alloc, last_lines(&bytes))?,
        refused: false,
        why: Why::Words(root, tallies),
    })
}

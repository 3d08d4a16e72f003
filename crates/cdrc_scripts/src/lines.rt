//! The lines of a script: the numbers of its heap, and its commands.
ghost use Rattle.std.specs.Prelude.{◌≡◌, ◌≢◌, ℕ, [], IfOk, IfSome, Ok, Err, None};
ghost use Rattle.line_machine.specs.line_words.Words.{texts_of};
ghost use Rattle.script_law.specs.script_lines.Spelling.{Spells, SpellsCommand};
ghost use Rattle.script_law.specs.script_lines.declared.command.ScriptLine.TheVariants.{Heap, Command as OnHeap};
ghost use Rattle.script_law.specs.script_lines.declared.command.Command.{Command as OneCommand};
ghost use Rattle.script_law.specs.script_lines.declared.refused.CommandRefused.TheVariants.{Syntax};
ghost use Rattle.domain_desk.specs.lone_heap.Lone.{IsForOne};
ghost use Rattle.domain_desk.specs.Desks.{core_of, desk_of};
ghost use Rattle.cdrc_scripts.specs.Domains.{IsSettledDesk};
ghost use Rattle.cdrc_scripts.specs.Meaning.{IsHeapInRange, IsOpened};

use domain_desk::DomainDesk;
use line_machine::OutOfMemory;
use script_law::{
    Command, CommandRefused, MOST_CELLS, MOST_SLOTS, MOST_WEAK_CELLS, ScriptLine, script_line,
};
use std::alloc::Global;

/// The numbers of a heap: its slots, strong cells and weak cells.
#[derive(Clone, Copy, Debug, Drop)]
pub(crate) struct HeapNumbers {
    pub(crate) slots: u128,
    pub(crate) cells: u128,
    pub(crate) weak_cells: u128,
}

/// The numbers that a line gives a heap, if it is such a line.
fn numbers_of(line: ScriptLine) -> Option<HeapNumbers>
    ensures some { IfSome result (λ n. line ≡ Heap n.slots n.cells n.weak_cells) }
    ensures none { result ≡ None
        → (slots cells weak_cells : ℕ) → line ≢ Heap slots cells weak_cells }
{
    match line {
        ScriptLine::Heap(slots, cells, weak_cells) => Some(HeapNumbers {
            slots,
            cells,
            weak_cells,
        }),
        ScriptLine::Command(_) => None,
    }
}

/// The numbers that the words give a heap. Syntax exactly where they spell no heap.
#[tactic(auto, using(crate::proofs::OneLine::one_line))]
pub(crate) fn heap_numbers(alloc: Global, words: &[&[u8]]) -> Result<HeapNumbers, CommandRefused>
    ensures ok { IfOk result (λ n.
        Spells (Heap n.slots n.cells n.weak_cells) (texts_of words.now)) }
    ensures syntax { result ≡ Err Syntax → (slots cells weak_cells : ℕ)
        → Spells (Heap slots cells weak_cells) (texts_of words.now) → ⊥ }
{
    let line = script_line(alloc, words)?;
    numbers_of(line).ok_or(CommandRefused::Syntax)
}

/// The command that a line is, if it is one.
fn as_command(line: ScriptLine) -> Option<Command>
    ensures some { IfSome result (λ command. line ≡ OnHeap command) }
    ensures none { result ≡ None → (command : OneCommand) → line ≢ OnHeap command }
{
    match line {
        ScriptLine::Command(command) => Some(command),
        ScriptLine::Heap(_, _, _) => None,
    }
}

/// The command that the words spell. Syntax exactly where they spell none.
#[tactic(auto, using(crate::proofs::OneLine::one_line))]
pub(crate) fn command_of(alloc: Global, words: &[&[u8]]) -> Result<Command, CommandRefused>
    ensures ok { IfOk result (λ command. SpellsCommand command (texts_of words.now)) }
    ensures syntax { result ≡ Err Syntax → (command : OneCommand)
        → SpellsCommand command (texts_of words.now) → ⊥ }
{
    let line = script_line(alloc, words)?;
    as_command(line).ok_or(CommandRefused::Syntax)
}

/// The desk of a heap with these numbers and nothing in it. None exactly where a number leaves its range.
pub(crate) fn open(alloc: Global, numbers: HeapNumbers) -> Result<Option<DomainDesk>, OutOfMemory>
    ensures opened { IfOk result (λ found. IfSome found (λ desk.
        IsHeapInRange numbers.slots numbers.cells numbers.weak_cells
        × IsOpened numbers.slots numbers.cells numbers.weak_cells (desk_of desk))) }
    ensures one { IfOk result (λ found. IfSome found (λ desk.
        IsForOne numbers.slots numbers.cells numbers.weak_cells desk.domain)) }
    ensures trail { IfOk result (λ found. IfSome found (λ desk. (core_of desk).trail ≡ [])) }
    ensures settled { IfOk result (λ found. IsSettledDesk found) }
    ensures refused { result ≡ Ok None
        → IsHeapInRange numbers.slots numbers.cells numbers.weak_cells → ⊥ }
{
    if numbers.slots == 0
        || numbers.slots > u128::from(MOST_SLOTS)
        || numbers.cells > u128::from(MOST_CELLS)
        || numbers.weak_cells > u128::from(MOST_WEAK_CELLS)
    {
        return Ok(None);
    }
    let desk = DomainDesk::open(
        alloc,
        numbers.slots as u32,
        numbers.cells as u32,
        numbers.weak_cells as u32,
    )?;
    Ok(Some(desk))
}

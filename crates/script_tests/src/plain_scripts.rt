//! Scripts on a heap for one thread, with what each command answers. The answers are worked out by the rules of
//! scripts.
ghost use Rattle.std.specs.Prelude.{IfOk};
ghost use Rattle.cdrc_scripts.specs.plain_store.Settling.{IsSettled};

use cdrc_scripts::{
    Command, CommandRefused, Desk, Lines, OutOfMemory, Reason, Said, ScriptLine, script,
    script_line, words,
};
use std::alloc::Global;
use std::process::Abort;
use std::test::Fail;

/// The command that a line is, if it is one.
fn as_command(line: ScriptLine) -> Option<Command> {
    match line {
        ScriptLine::Command(command) => Some(command),
        ScriptLine::Heap(_, _, _) => None,
    }
}

/// The command that the words of a line spell.
fn command_of(alloc: Global, words: &[&[u8]]) -> Result<Command, CommandRefused> {
    let line = script_line(alloc, words)?;
    as_command(line).ok_or(CommandRefused::Syntax)
}

/// Appends what a command answered.
fn tell(text: &mut String, said: &Said) -> Result<(), OutOfMemory> {
    match said {
        Said::Nothing => {}
        said => writeln!(text, "{said:?}")?,
    }
    Ok(())
}

/// Appends why a command is refused.
fn refuse(text: &mut String, reason: Reason) -> Result<(), OutOfMemory> {
    writeln!(text, "{reason:?}")?;
    Ok(())
}

/// Does what the command says, and appends what it answers, or why it is refused. Whether it isn't refused.
fn act(desk: &mut Desk, command: &Command, text: &mut String) -> Result<bool, OutOfMemory>
    requires { IsSettled desk.old.plain }
    ensures { IfOk result (λ goes_on. IsSettled desk.new.plain) }
{
    if let Some(reason) = desk.fault(command) {
        refuse(text, reason)?;
        return Ok(false);
    }
    let said = desk.run(command)?;
    tell(text, &said)?;
    Ok(true)
}

/// The same with the command that a line spells.
fn take(desk: &mut Desk, alloc: Global, line: &[u8], text: &mut String) -> Result<bool, OutOfMemory>
    requires { IsSettled desk.old.plain }
    ensures { IfOk result (λ goes_on. IsSettled desk.new.plain) }
{
    let words = words(alloc, line)?;
    match command_of(alloc, &words) {
        Ok(command) => act(desk, &command, text),
        Err(CommandRefused::Syntax) => {
            text.push_str("no command\n")?;
            Ok(false)
        }
        Err(CommandRefused::OutOfMemory) => Err(OutOfMemory),
    }
}

/// Plays commands on a heap of so many slots, strong cells and weak cells. What they answer, and what is left.
fn play(
    rt: &impl Abort,
    alloc: Global,
    sizes: (u32, u32, u32),
    lines: &[u8],
) -> Result<(String, Desk), OutOfMemory>
    ensures { IfOk result (λ played. IsSettled played.1.plain) }
{
    let (slots, cells, weak_cells) = sizes;
    assert!(rt; 0 < slots && slots <= 100_000 && cells <= 2 && weak_cells <= 1);
    let mut desk = Desk::open(alloc, slots, cells, weak_cells)?;
    let mut text = String::new(alloc);
    for line in Lines::new(lines) {
        if !take(&mut desk, alloc, line.bytes, &mut text)? {
            return Ok((text, desk));
        }
    }
    Ok((text, desk))
}

/// Scripts: the sizes of the heap, the commands, and what they answer.
const ROWS: [((u32, u32, u32), &str, &str); 16] = [
    // An upgrade fails once the object has ended, and its slot is given again once no weak reference is left.
    (
        (2, 0, 0),
        "make a 7\nweaken a w\nup w b\ncounts w\ndrop a\ndrop b\nup w c\ncounts w\naudit\nmake x 1\nmake y 1\n\
         unweak w\nmake y 1\n",
        "Made\nUp\nCounts(2, 2)\nDead\nCounts(0, 1)\n\
         Audited(Shown { live: 0, deferred: 0, cyclic: 0, bytes: 0, walk: [] })\nMade\nFull\nMade\n",
    ),
    // A strong cycle.
    (
        (4, 0, 0),
        "make a 1\nmake b 2\ncopy b c\nput a:0 c\ncopy a d\nput b:0 d\ndrop a\ndrop b\naudit\n",
        "Made\nMade\nAudited(Shown { live: 2, deferred: 0, cyclic: 2, bytes: 3, walk: [\"a\", \"b\"] })\n",
    ),
    // A weak back link makes none.
    (
        (4, 0, 0),
        "make a 1\nmake b 2\nweaken a w\nput b:w w\nput a:0 b\ndrop a\naudit\n",
        "Made\nMade\nAudited(Shown { live: 0, deferred: 0, cyclic: 0, bytes: 0, walk: [] })\n",
    ),
    // A snapshot outlives its cell.
    (
        (4, 1, 0),
        "make a 5\nput @0 a\nsnap @0 s\nclear @0\ncounts s\naudit\nread s 0\nunsnap s\naudit\nload @0 n\nsnap @0 n\n",
        "Made\nSnapped\nCounts(1, 1)\nAudited(Shown { live: 1, deferred: 1, cyclic: 0, bytes: 5, walk: [] })\nWord(5)\n\
         Audited(Shown { live: 0, deferred: 0, cyclic: 0, bytes: 0, walk: [] })\nNull\nNull\n",
    ),
    // Two copies under one snapshot: one waits.
    (
        (2, 2, 0),
        "make a 3\ncopy a b\nput @0 a\nput @1 b\nsnap @0 s\nclear @0\nclear @1\ncounts s\naudit\nunsnap s\naudit\n",
        "Made\nSnapped\nCounts(1, 1)\nAudited(Shown { live: 1, deferred: 1, cyclic: 0, bytes: 3, walk: [] })\n\
         Audited(Shown { live: 0, deferred: 0, cyclic: 0, bytes: 0, walk: [] })\n",
    ),
    // The fourth snapshot is counted.
    (
        (1, 1, 0),
        "make a 1\nput @0 a\nsnap @0 p\nsnap @0 q\nsnap @0 r\nsnap @0 t\ncounts t\nunsnap t\ncounts p\n",
        "Made\nSnapped\nSnapped\nSnapped\nCounted\nCounts(2, 1)\nCounts(1, 1)\n",
    ),
    // A replacement stores where the place holds what is expected.
    (
        (2, 1, 0),
        "make a 1\nmake b 1\ncopy a c\nput @0 c\ncas @0 null b\ncas @0 a b\nload @0 d\ncounts d\ncounts a\n",
        "Made\nMade\nLost\nDone\nLoaded\nCounts(2, 1)\nCounts(1, 1)\n",
    ),
    // Every kind of handle, of one object.
    (
        (1, 1, 1),
        "make a 4\nweaken a w\nwcopy w x\nput ~0 x\nload ~0 y\nput @0 a\nsnap @0 s\nkeep s b\ncounts b\n",
        "Made\nLoaded\nSnapped\nCounts(2, 4)\n",
    ),
    // An object that holds itself, owned and then not.
    (
        (1, 0, 0),
        "make a 1\ncopy a b\nput a:0 b\naudit\ndrop a\naudit\n",
        "Made\nAudited(Shown { live: 1, deferred: 0, cyclic: 0, bytes: 1, walk: [] })\n\
         Audited(Shown { live: 1, deferred: 0, cyclic: 1, bytes: 1, walk: [\"a\"] })\n",
    ),
    // A cycle of three with a tail, which was made first: the search goes from it to c, a, b, and to c again.
    (
        (8, 0, 0),
        "make t 9\nmake c 3\nmake b 2\nmake a 1\ncopy b x\nput a:0 x\ncopy c x\nput b:1 x\ncopy a x\nput c:0 x\n\
         put c:1 t\ndrop a\ndrop b\ndrop c\naudit\n",
        "Made\nMade\nMade\nMade\n\
         Audited(Shown { live: 4, deferred: 0, cyclic: 4, bytes: 15, walk: [\"c\", \"a\", \"b\"] })\n",
    ),
    // Two cycles, and an object that is owned: the cycle with the earliest make is shown.
    (
        (8, 0, 0),
        "make o 5\nmake p 1\nmake q 2\nmake r 3\nmake s 4\ncopy r x\nput s:1 x\ncopy s x\nput r:1 x\ncopy q x\n\
         put p:0 x\ncopy p x\nput q:0 x\ndrop r\ndrop s\ndrop q\ndrop p\naudit\n",
        "Made\nMade\nMade\nMade\nMade\n\
         Audited(Shown { live: 5, deferred: 0, cyclic: 4, bytes: 15, walk: [\"p\", \"q\"] })\n",
    ),
    // What is refused, each time for the first of range, name and kind that is wrong.
    (
        (1, 0, 1),
        "make a 4294967296\nmake a 4294967297\n",
        "Made\nRange\n",
    ),
    ((1, 0, 1), "put @0 z\n", "Range\n"),
    ((1, 0, 1), "make a 1\nsnap ~0 a\n", "Made\nName\n"),
    ((1, 0, 1), "snap ~0 n\n", "Kind\n"),
    ((1, 0, 1), "load ~0 n\nheap 1 0 1\n", "Null\nno command\n"),
];

#[test]
fn scripts_on_a_plain_heap(rt: HostRuntime) -> Result<(), Fail> {
    for (sizes, lines, answers) in ROWS {
        let (text, _left) = play(&rt, rt.alloc(), sizes, lines.as_bytes())?;
        assert!(rt; text.as_str() == answers, "{lines}");
    }
    Ok(())
}

// What is left at the end is given up: the heap then settles, and what ends weighs 3. The object in the cell lives on.
#[test]
fn what_is_left_is_given_up(rt: HostRuntime) -> Result<(), Fail> {
    let lines = b"make a 3\nmake b 4\nput @0 b\nsnap @0 s\nweaken a w\n";
    let (text, left) = play(&rt, rt.alloc(), (2, 1, 0), lines)?;
    assert!(rt; text.as_str() == "Made\nMade\nSnapped\n");
    let mut heap = left.close();
    assert!(rt; matches!(heap.settle(), Ok(3)));
    assert!(rt; matches!(heap.settle(), Ok(0)));
    Ok(())
}

// The heap goes over its 100,000 slots only where it must: if it did so after each command, these would take minutes. A
// chain, of which each object holds the one before; objects that end at once; and objects that take each other's place
// in a cell.
#[test]
fn ten_thousand_objects(rt: HostRuntime) -> Result<(), Fail> {
    for (first, again, last, answers) in [
        (
            "make p 1\n",
            "make n 1\nput n:0 p\ncopy n p\ndrop n\n",
            "audit\ndrop p\naudit\n",
            "Audited(Shown { live: 10000, deferred: 0, cyclic: 0, bytes: 10000, walk: [] })\n\
             Audited(Shown { live: 0, deferred: 0, cyclic: 0, bytes: 0, walk: [] })\n",
        ),
        (
            "make p 1\n",
            "make n 3\ndrop n\n",
            "audit\n",
            "Audited(Shown { live: 1, deferred: 0, cyclic: 0, bytes: 1, walk: [] })\n",
        ),
        (
            "",
            "make n 2\nput @0 n\n",
            "audit\n",
            "Audited(Shown { live: 1, deferred: 0, cyclic: 0, bytes: 2, walk: [] })\n",
        ),
    ] {
        let mut lines = first.to_string(rt.alloc())?;
        for _object in 1..10_000u32 {
            lines.push_str(again)?;
        }
        lines.push_str(last)?;
        let (text, _left) = play(&rt, rt.alloc(), (100_000, 1, 0), lines.as_bytes())?;
        assert!(rt; text.ends_with(answers), "{again}");
    }
    Ok(())
}

/// Where there is no memory a script is refused so, and else its output is this.
#[test]
fn scripts_that_want_memory(rt: HostRuntime) -> Result<(), Fail> {
    let lines =
        "heap 4 0 0\nmake a 1\nmake b 2\ncopy b c\nput a:0 c\ncopy a d\nput b:0 d\ndrop a\ndrop b\naudit\n";
    let output = "make a ok\nmake b ok\naudit live 2 deferred 0 cyclic 2 bytes 3\nwalk a b\n";
    if let Ok(scripted) = script(rt.alloc(), lines.as_bytes()) {
        assert!(rt; scripted.written.text.as_slice() == output.as_bytes());
    }
    let (sizes, commands, answers) = ROWS[1];
    if let Ok((text, _left)) = play(&rt, rt.alloc(), sizes, commands.as_bytes()) {
        assert!(rt; text.as_str() == answers);
    }
    Ok(())
}

//! Runs over files and sinks that fail where they are told to. What is written was worked out by hand.

use run_players::{Open, TWO, Why, ended};
use std::test::Fail;

/// The report of `f`.
const A_B_A: &str = "2 1 a\n1 1 b\nfiles 1 pieces 3 distinct 2\n\
    held live 2 deferred 0 cyclic 0 bytes 2\nfreed live 0 deferred 0 cyclic 0 bytes 0\n";

#[test]
fn files_and_sinks_that_fail(rt: HostRuntime) -> Result<(), Fail> {
    for (line, reads, (most, writes), status, taken) in [
        // A read that fails, and a name that no file has.
        ("words f g", [1].as_slice(), (99, [].as_slice()), 3, ""),
        ("words h", &[], (99, &[]), 3, ""),
        ("words f h", &[], (99, &[]), 3, ""),
        ("script s", &[0], (99, &[]), 3, ""),
        ("steps t", &[0], (99, &[]), 3, ""),
        ("words f f f f f", &[0], (99, &[]), 3, ""),
        ("words f f f f f", &[1], (99, &[]), 3, ""),
        ("words f f f f f", &[2], (99, &[]), 3, ""),
        ("words f f f f f", &[3], (99, &[]), 3, ""),
        ("words f f f f f", &[4], (99, &[]), 3, ""),
        ("words --protect epoch f g", &[1], (99, &[]), 3, ""),
        // A write that fails, and writes of few bytes.
        ("words f", &[], (4, &[1]), 4, "2 1 "),
        ("words f", &[], (4, &[]), 0, A_B_A),
        ("words f g", &[], (1, &[]), 0, TWO),
        ("words --protect epoch f", &[], (4, &[1]), 4, "2 1 "),
        ("words --protect epoch f g", &[], (1, &[]), 0, TWO),
        ("script s", &[], (3, &[1]), 4, "mak"),
        ("script r", &[], (3, &[4]), 4, "make a ok\nli"),
        ("steps t", &[], (3, &[1]), 4, "cla"),
        ("gen 0 2 10", &[], (3, &[1]), 4, "w7 "),
        ("bulk 0 1 10", &[], (9, &[0]), 4, ""),
        // What is not understood reads nothing and writes nothing, whatever fails.
        ("words", &[0], (9, &[0]), 2, ""),
    ] {
        assert!(rt; 0 < most);
        let (end, text) = ended(&rt, rt.alloc(), line, reads, most, writes, &Open)?;
        assert!(rt;
            end.status == status,
            "{line}, reads {reads:?}, writes {writes:?}"
        );
        assert!(rt;
            text.as_slice() == taken.as_bytes(),
            "{line}, reads {reads:?}, writes {writes:?}"
        );
    }
    Ok(())
}

// A report of 121 bytes, written byte by byte, with each write failing in turn, and the one after the last.
#[test]
fn each_write_of_a_report_fails(rt: HostRuntime) -> Result<(), Fail> {
    assert!(rt; A_B_A.len() == 121);
    for write in 0..=121usize {
        let failing = [write as u64];
        let (end, text) = ended(&rt, rt.alloc(), "words f", &[], 1, &failing, &Open)?;
        assert!(rt;
            end.status == if write < 121 { 4 } else { 0 },
            "write {write}"
        );
        assert!(rt;
            text.as_slice() == &A_B_A.as_bytes()[..write],
            "write {write}"
        );
    }
    Ok(())
}

// Where words were counted and written, or were not taken, what each seat popped is left, of lanes and of seat 0; in
// regions seat 0 alone. Where a lane found no slot, its seat is left. A script's seat is left where its first line
// opened a heap.
#[test]
fn evidence_that_is_left(rt: HostRuntime) -> Result<(), Fail> {
    for (line, failing, status, tallies, evidence) in [
        ("words --lanes 3 f", 99, 0, Some(4), "words"),
        ("words --lanes 3 f", 0, 4, Some(4), "words"),
        ("words --slots 1 f", 99, 6, Some(0), "words"),
        ("words --protect epoch --lanes 3 f", 99, 0, None, "regions"),
        ("words --protect epoch --lanes 3 f", 0, 4, None, "regions"),
        ("words --protect epoch --slots 1 f", 99, 6, None, "regions"),
        ("words --protect epoch h", 99, 3, None, "nothing"),
        ("bulk 0 1 10", 99, 0, Some(3), "words"),
        ("bulk 0 1 10", 0, 4, Some(3), "words"),
        ("script s", 99, 0, None, "script"),
        ("script r", 99, 8, None, "script"),
        ("script f", 99, 8, None, "nothing"),
        ("steps t", 99, 0, None, "nothing"),
        ("words h", 99, 3, None, "nothing"),
    ] {
        let (end, _text) = ended(&rt, rt.alloc(), line, &[], 9, &[failing], &Open)?;
        assert!(rt; end.status == status, "{line}");
        let (found, shown) = match &end.why {
            Why::Words(_, found) => (Some(found.len()), "words"),
            Why::Epoch(_) => (None, "regions"),
            Why::Script(_) => (None, "script"),
            Why::Nothing => (None, "nothing"),
        };
        assert!(rt; found == tallies && shown == evidence, "{line}");
    }
    Ok(())
}

/// Where there is no memory the status is 9, and what was written is a prefix; and else it is as ever.
#[test]
fn runs_that_want_memory(rt: HostRuntime) -> Result<(), Fail> {
    for (line, output) in [
        ("words --lanes 1 f g", TWO),
        ("words --lanes 2 f g", TWO),
        ("words --protect epoch --lanes 1 f g", TWO),
        ("words --protect epoch --lanes 2 f g", TWO),
    ] {
        let outcome = ended(&rt, rt.alloc(), line, &[], 9, &[], &Open);
        let Ok((end, text)) = outcome else {
            return Ok(());
        };
        let is_whole = end.status == 0 && text.as_slice() == output.as_bytes();
        let is_refused = end.status == 9 && output.as_bytes().starts_with(text.as_slice());
        assert!(rt; is_whole || is_refused, "{line}");
    }
    Ok(())
}

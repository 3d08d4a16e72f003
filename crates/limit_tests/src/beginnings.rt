//! Counts that begin with too few slots, and begin anew.
ghost use Rattle.std.specs.Prelude.{◌≤◌, IfOk};
ghost use Rattle.words_work.specs.Contents.{bytes_in, bytes_of};
ghost use Rattle.words_work.specs.Limits.{most_bytes};

use run_players::{TWO, files_of, words_of};
use std::alloc::Global;
use std::test::Fail;
use words_work::{
    Deleter, Form, NodeKind, Open, PairKind, PayloadKind, Plan, RecordKind, WordsRefused,
    count_contents, read_files,
};

/// The contents of two files, of three words each; none where there is no memory.
fn contents_of_two(alloc: Global) -> Result<Vec<Vec<u8>>, WordsRefused>
    ensures { IfOk result (λ contents. bytes_in (bytes_of contents.items) ≤ most_bytes) }
{
    let mut files = files_of(alloc, &[("f", "a b a"), ("g", "c b d")], &[])?;
    let names = words_of(alloc, "f g")?;
    read_files(alloc, &mut files, &names)
}

// Two texts of three words each, with four distinct words. A count takes the queue's first node, and at least one
// node more and four records, so with up to five slots it can't be done and begins anew; and fourteen always serve.
// Each writes the same report, whichever of its beginnings that is of. Where there is no memory it is refused for
// that, and never as full.
#[test]
fn counts_begin_anew_that_want_memory(rt: HostRuntime) -> Result<(), Fail> {
    let weigh: Deleter<PairKind<NodeKind, RecordKind>, _> = Deleter::keep(|payload: &[u64; 16]| {
        <PairKind<NodeKind, RecordKind> as PayloadKind>::weigh(payload)
    });
    for (lanes, first, form) in [
        (1, 0, Form::Linked),
        (1, 1, Form::Linked),
        (1, 2, Form::Double),
        (1, 3, Form::Linked),
        (1, 5, Form::Double),
        (2, 1, Form::Linked),
        (2, 3, Form::Double),
        (3, 4, Form::Linked),
        (3, 13, Form::Double),
        (3, 4_000_000_000, Form::Linked),
    ] {
        let Ok(contents) = contents_of_two(rt.alloc()) else {
            return Ok(());
        };
        assert!(rt; contents.len() == 2);
        assert!(rt; lanes >= 1 && lanes <= 3);
        let plan = Plan {
            lanes,
            rounds: 1,
            slots: None,
            first: Some(first),
            form,
        };
        match count_contents(&rt, rt.alloc(), plan, contents, &Open, &weigh) {
            Ok(done) => assert!(rt; done.bytes.as_slice() == TWO.as_bytes(), "{lanes} {first}"),
            Err(refused) => {
                assert!(rt;
                    matches!(refused, WordsRefused::OutOfMemory),
                    "{lanes} {first}"
                );
            }
        }
    }
    Ok(())
}

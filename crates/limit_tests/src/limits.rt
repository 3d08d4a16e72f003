//! Runs past a limit, pieces within theirs, and how often objects are weighed.

use cdrc_run::run;
use crossbeam_utils::atomic::AtomicCell;
use run_players::{files_of, words_of};
use std::test::Fail;
use words_work::{
    Deleter, HonestFiles, HonestSink, MemFiles, NodeKind, Open, PairKind, PayloadKind, PiecesError,
    Protect, RecordKind, WordsArgs, pieces,
};

#[test]
fn pieces_within_a_limit(rt: HostRuntime) -> Result<(), Fail> {
    for (text, limit, place) in [
        ("a b c", 2, Some(4)),
        ("a b c", 3, None),
        (" a", 0, Some(1)),
        (" ", 0, None),
    ] {
        let over = match pieces(rt.alloc(), text.as_bytes(), limit) {
            Ok(_) => None,
            Err(PiecesError::TooMany(place)) => Some(place),
            Err(_) => panic!(rt; "no memory"),
        };
        assert!(rt; over == place, "{text} within {limit}");
    }
    let long = vec![in rt.alloc(); b'x'; 4097]?;
    assert!(rt;
        matches!(
            pieces(rt.alloc(), &long, 1),
            Err(PiecesError::TooMany(4096))
        )
    );
    assert!(rt; matches!(pieces(rt.alloc(), &long, 2), Ok(found) if found.len() == 2));
    Ok(())
}

// A byte more than there may be. Nothing is written.
#[test]
fn bytes_past_a_limit(rt: HostRuntime) -> Result<(), Fail> {
    let content = vec![in rt.alloc(); b'a'; 67_108_865]?;
    let entry = (String::from_str(rt.alloc(), "f")?, content);
    let mut files = HonestFiles::new(vec![in rt.alloc(); entry]?);
    let mut sink = HonestSink::new(rt.alloc());
    let words = words_of(rt.alloc(), "words f")?;
    let end = run(&rt, rt.alloc(), &words, &mut files, &mut sink, &Open);
    assert!(rt; end.status == 5 && sink.taken().is_empty());
    Ok(())
}

// A file more than there may be: none is read, so that no read fails. As many as there may be are read.
#[test]
fn files_past_a_limit(rt: HostRuntime) -> Result<(), Fail> {
    let mut words = words_of(rt.alloc(), "words")?;
    for _file in 0..4096u32 {
        words.push(String::from_str(rt.alloc(), "f")?)?;
    }
    let mut sink = HonestSink::new(rt.alloc());
    for status in [3, 5] {
        let mut files = files_of(rt.alloc(), &[("f", "a")], &[0])?;
        let end = run(&rt, rt.alloc(), &words, &mut files, &mut sink, &Open);
        assert!(rt; end.status == status);
        words.push(String::from_str(rt.alloc(), "f")?)?;
    }
    assert!(rt; sink.taken().is_empty());
    Ok(())
}

// One lane makes the first node of its queue, a node for each of three pieces, and two records. The first audit weighs
// the records that live, the second none; and each object is weighed once more, as it is destroyed.
#[test]
fn objects_are_weighed(rt: HostRuntime) -> Result<(), Fail> {
    let names = vec![in rt.alloc(); String::from_str(rt.alloc(), "f")?]?;
    assert!(rt; names.len() == 1);
    let args = WordsArgs {
        names,
        lanes: 1,
        rounds: 1,
        slots: None,
        double: false,
        protect: Protect::Announce,
    };
    let weighed = AtomicCell::new(0u64);
    let weigh: Deleter<PairKind<NodeKind, RecordKind>, _> = Deleter::keep(|payload: &[u64; 16]| {
        weighed.store(weighed.load().wrapping_add(1));
        <PairKind<NodeKind, RecordKind> as PayloadKind>::weigh(payload)
    });
    let mut files: MemFiles = files_of(rt.alloc(), &[("f", "a b a")], &[])?;
    assert!(rt; words_work::words_work(&rt, rt.alloc(), &args, &mut files, &Open, &weigh).is_ok());
    assert_eq!(rt; weighed.load(), 8);
    Ok(())
}

//! A protocol and a deed are proved from their bounds alone; here each bound is met once, by deeds that no call of a
//! queue or of the directory takes.
ghost use Rattle.std.specs.Prelude.{◌≡◌};
ghost use Rattle.part_calls.specs.plain_protocol.Laws.{KeptByCalm, KeptByForeign, KeptByLeave, Keeps, Starts};

use hand_queues::{FindSet, LearnItem, LearnTail, QueueLaw};
use part_calls::{Deed, Pair, Protocol, Still};
use weak_intern::{DirectoryLaw, ForgetEnded};

/// What a domain cites of a protocol and a deed, both of which it answers; the protocol is as it was.
fn cite<P: Protocol, D: Deed<P>>(of: P, it: D) -> (P, D)
    ensures start { Starts (P.law of) (P.first of) }
    ensures calm { KeptByCalm (P.law of) }
    ensures leave { KeptByLeave (P.law of) (P.joined of) P.gone }
    ensures foreign { KeptByForeign (P.law of) (record {
      cell = P.owns_cell of;
      weak_cell = P.owns_weak_cell of;
      payload = P.owns_payload of;
      tickets = P.owns_tickets of;
    }) }
    ensures keeps { Keeps (P.law of) P.gone (D.ready it of) (D.next it of) (D.allows it of) }
    ensures same { result.0 ≡ of }
{
    (of, it)
}

#[test]
fn each_deed_goes_with_its_protocol(rt: HostRuntime) {
    let (queue, _) = cite(QueueLaw::linked(0, 1), FindSet);
    let (queue, _) = cite(queue, LearnItem);
    let (queue, _) = cite(queue, LearnTail);
    let directory = DirectoryLaw::granted(3, 7, Vec::new(rt.alloc()));
    let (directory, _) = cite(directory, ForgetEnded);
    let (_, _) = cite(Pair::new(queue, directory, 2, 0), Still);
}

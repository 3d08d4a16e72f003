//! Observers and deliveries as a protocol, and a queue with them as one: what a client adds to the rule of a domain's
//! table whose subject knows its observers weakly and sends a delivery to each that lives; and the deeds by which seats
//! make observers and deliveries, put observers into cells and deliveries, and learn what they hold.
//!
//! The rule that it keeps is the law of observers of the crate `watch_law`, over a range of weak cells of which each is
//! one id's; for `NewsLaw` besides the law of a queue, and that each delivery which is pushed is to an observer. Views,
//! payloads and what is owned are those of the pair of both: the strong cells 0 and 1 are the queue's, all weak cells
//! and no other strong cell the observers'. Deeds of the queue and on observers are deeds of it, by `InPart`: a push
//! besides asks that the seat gave the delivery its observer.
//!
//! Nothing here runs, and no step is promised to come. A deed doesn't say that the step that it goes with succeeds.
//!
//! ```text
//! let watch = WatchLaw::over(0, 3, owners);           // the weak cells 0 to 2 are those of the ids 0 to 2
//! let news = NewsLaw::new(QueueLaw::linked(0, 1), watch);
//! let push = InPart::new(LinkNode);                   // a deed of the queue, as one of `news`
//! let address = InPart::new(AddressDelivery { slot, observer });
//! ```
#![tactic(auto)]

mod kind;
mod law;
mod lessons;
mod making;
mod news;
mod parts;

pub use kind::WatchKind;
pub use law::WatchLaw;
pub use lessons::{FindObserver, ReadDelivery};
pub use making::{AddressDelivery, MakeDelivery, MakeObserver, SubscribeObserver};
pub use news::NewsLaw;
pub use queue_protocol::{Left, NodeKind, PairKind, QueueLaw, Right};

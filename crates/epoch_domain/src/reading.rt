//! A load that is no event: a seat learns what a word holds, and that its own view is so.
ghost use Rattle.std.specs.Prelude.{◌≡◌, ◌<◌, false, Some};
ghost use Rattle.epoch_rule.specs.epoch_core.Words.{word_count};
ghost use Rattle.epoch_rule.specs.Reading.{HasRead};
ghost use Rattle.epoch_domain.specs.Domains.{DomainState};

use crate::domain::EpochDomain;
use crate::site::Site;
use atomic_table::Play;
use epoch_rule::{EpochSeatView, Protocol};
use std::marker::{Brand, PhantomData};

/// A load by which a seat learns.
pub(crate) struct Learns<P, B> {
    marker: PhantomData<(P, B)>,
}

impl<P: Protocol, B: Site<P>> Play<(), EpochSeatView<P::View>> for Learns<P, B> {
    ghost then = { λ s old w new. (d : DomainState P) → B.site ≡ Some d
        → HasRead P.Kind.fits d.shape d.quotas s.word w old.0 new.0 × (new.1 ≡ old.1) };
}

impl<P: Protocol> EpochDomain<P> {
    fn read_as<B: Site<P>>(
        &self,
        seat: &mut atomic_table::Seat<(), EpochSeatView<P::View>>,
        word: usize,
    ) -> u64
        requires site { B.site ≡ Some self.now }
        requires table { seat.old.table_id ≡ self.now.table }
        requires here { seat.old.me.0.gone ≡ false }
        requires word { word < word_count self.now.shape }
        ensures table { seat.new.table_id ≡ seat.old.table_id }
        ensures read { HasRead P.Kind.fits self.now.shape self.now.quotas word result
            seat.old.me.0 seat.new.me.0 }
        ensures carries { seat.new.me.1 ≡ seat.old.me.1 }
    {
        self.table.shared.load::<Learns<P, B>>(seat, word)
    }

    /// What a word holds.
    pub(crate) fn read(
        &self,
        seat: &mut atomic_table::Seat<(), EpochSeatView<P::View>>,
        word: usize,
    ) -> u64
        requires table { seat.old.table_id ≡ self.now.table }
        requires here { seat.old.me.0.gone ≡ false }
        requires word { word < word_count self.now.shape }
        ensures table { seat.new.table_id ≡ seat.old.table_id }
        ensures read { HasRead P.Kind.fits self.now.shape self.now.quotas word result
            seat.old.me.0 seat.new.me.0 }
        ensures carries { seat.new.me.1 ≡ seat.old.me.1 }
    {
        self.read_as::<Brand>(seat, word)
    }
}

//! The walks over what a frame carries.

use crate::certificates::CertificateView;
use basil_types::transaction::TransactionView;

/// A transaction, with a certificate of any kind.
#[derive(Clone, Copy)]
pub struct PairItem<'a> {
    pub transaction: TransactionView<'a>,
    pub certificate: CertificateView<'a>,
}

/// The pairs of a frame that are left, in the order of the frame's bytes.
#[derive(Drop)]
pub struct Pairs<'a> {
    pub(crate) outer: Option<PairItem<'a>>,
    /// The pair inside of the outer one's certificate.
    pub(crate) inner: Option<PairItem<'a>>,
}

/// The transactions of a frame that are left, in the order of the frame's bytes.
#[derive(Drop)]
pub struct Transactions<'a> {
    pub(crate) pairs: Pairs<'a>,
    /// The transaction without a certificate.
    pub(crate) bare: Option<TransactionView<'a>>,
}

impl<'a> Iterator for Pairs<'a> {
    type Item = PairItem<'a>;

    ghost use Rattle.std.specs.Iterator.{YieldsFirstBy, item_count};
    ghost use Rattle.frame_views.specs.CarriedWalks.{pair_of, pairs_left};

    ghost next_gives = { YieldsFirstBy pair_of pairs_left };

    ghost remaining = { item_count pairs_left };

    fn next(&mut self) -> Option<PairItem<'a>> {
        if let Some(pair) = self.outer.take() {
            return Some(pair);
        }
        self.inner.take()
    }
}

impl<'a> Iterator for Transactions<'a> {
    type Item = TransactionView<'a>;

    ghost use Rattle.std.specs.Iterator.{YieldsFirstBy, item_count};
    ghost use Rattle.basil_types.specs.Shown.{transaction_of};
    ghost use Rattle.frame_views.specs.CarriedWalks.{transactions_left};

    ghost next_gives = { YieldsFirstBy transaction_of transactions_left };

    ghost remaining = { item_count transactions_left };

    fn next(&mut self) -> Option<TransactionView<'a>> {
        if let Some(pair) = self.pairs.next() {
            return Some(pair.transaction);
        }
        self.bare.take()
    }
}

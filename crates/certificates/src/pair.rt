//! A transaction and a certificate.

ghost use Rattle.std.specs.Prelude.{◌≡◌, IfSome, option_map};
ghost use Rattle.basil_types.specs.Shown.{transaction_of};
ghost use Rattle.frame_views.specs.Shown.{HoldsCommit, certificate_of};
ghost use Rattle.certificates.specs.Deciding.{HasGoodForm};
ghost use Rattle.certificates.specs.Refusals.{nested};
ghost use Rattle.certificates.specs.Pairs.{pair_of};

use basil_types::transaction::TransactionView;
use frame_views::certificates::{CertBody, CertificateView};
use txn_meta::form::check_form;

/// A transaction, and the id and the body of a certificate.
#[derive(Clone, Copy)]
pub(crate) struct Pair<'a> {
    pub(crate) transaction: TransactionView<'a>,
    pub(crate) id: [u8; 32],
    pub(crate) body: CertBody<'a>,
}

impl<'a> Pair<'a> {
    /// The pair of a transaction and a certificate.
    pub(crate) fn of(t: TransactionView<'a>, c: &CertificateView<'a>) -> Pair<'a>
        ensures value { pair_of result ≡
            record { transaction = transaction_of t.entry; certificate = certificate_of c.now } }
        ensures transaction { transaction_of result.transaction ≡ transaction_of t.entry }
        ensures commits { HoldsCommit result.body }
    {
        Pair {
            transaction: t,
            id: c.id(),
            body: c.body(),
        }
    }
}

/// The pair inside of a conflict abort, where its transaction has a good form.
pub(crate) fn inner<'a>(outer: &Pair<'a>) -> Option<Pair<'a>>
    requires { HoldsCommit outer.now.body }
    ensures value { option_map pair_of result ≡ nested (pair_of outer.now) }
    ensures form { IfSome result (λ p. HasGoodForm (transaction_of p.transaction)) }
{
    match outer.body {
        CertBody::ConflictAbort { other, proof, .. } => match check_form(other) {
            Ok(()) => Some(Pair::of(other, &proof)),
            Err(_) => None,
        },
        CertBody::FastCommit { .. } | CertBody::Logged { .. } | CertBody::FastAbort { .. } => None,
    }
}

//! The pens of the faulty parties.

ghost use Rattle.std.specs.Prelude.{◌≡◌, ◌+◌, ◌≤◌, ◌<◌, ◌++◌, ◌∷◌, [], List, None, OnErr, OnOk};
ghost use Rattle.std.specs.Prelude.{Some, length, nat_lt, option_map, position, slice_get, true};
ghost use Rattle.basil_types.specs.Limits.{signature_limit};
ghost use Rattle.basil_types.specs.Words.{SignedWords, words_of};
ghost use Rattle.basil_types.specs.declared.party.Party.{Party};
ghost use Rattle.cluster_run.specs.Faulty as faulty;
ghost use Rattle.cluster_run.specs.Faulty.{after_lie, faulty_signature};
ghost use Rattle.cluster_run.specs.States.{Setup, State, is_faulty};
ghost use Rattle.frame_views.specs.Fitting.{IsSignature};
ghost use Rattle.node_steps.specs.Holding.{Holds};
ghost use Rattle.node_steps.specs.Pendings.{CanSign, Sends, bytes_in, sealed_all};
ghost use Rattle.txn_table.specs.Entries.{same_party};
ghost use Rattle.faulty_parties.specs.declared.pens.Pen.{Pen};
ghost use Rattle.faulty_parties.specs.Lies.{CanBeSaid, Says, Tells};
ghost use Rattle.faulty_parties.specs.Pens as pens;
ghost use Rattle.faulty_parties.specs.Pens.{Begins, LieFor, LiesAs, StepsAt, left_in, size_in};
ghost use Rattle.faulty_parties.specs.Unsaid.{Unsaid};

use crate::lie::Lie;
use basil_types::memory::NoMemory;
use basil_types::outbox::Outbox;
use basil_types::party::Party;
use keyring::signer::Signer;
use node_steps::pending::{Pending, sign};
use std::alloc::Global;

/// A pen and whose it is.
#[derive(Drop)]
pub struct Pen<S> {
    pub party: Party,
    pub signer: S,
}

/// The pens of the faulty parties.
#[derive(Drop)]
pub struct Pens<S: Signer> {
    pub(crate) pens: Vec<Pen<S>>,
}

/// What a faulty party sends, and the signature in it.
#[derive(Drop)]
pub struct Said {
    pub out: Outbox,
    pub signature: Vec<u8>,
}

/// Whether two parties are the same.
fn is_same(a: Party, b: Party) -> bool
    ensures { result ≡ same_party a b }
{
    a == b
}

impl<S: Signer> Pens<S> {
    /// No pens yet. Takes no memory.
    pub fn new(alloc: Global) -> Pens<S>
        ensures { (s : Setup) → LieFor S.Signer result s [] [] }
    {
        Pens {
            pens: Vec::new(alloc),
        }
    }

    /// One more party with its pen, or memory is wanting and the pens are as before. A party that is there already
    /// keeps the pen that it has.
    pub fn add(&mut self, party: Party, pen: S) -> Result<(), NoMemory>
    where
        S: Drop,
        requires party { (S.fixed pen).party ≡ party }
        ensures lie { (s : Setup) (parties : List Party) → LieFor S.Signer self.old s parties [] →
            Begins S.Signer s.kit party pen → OnOk result (LieFor S.Signer self.new s (parties ++ party ∷ []) []) }
        ensures as_before { OnErr result (self.new.pens.items ≡ self.old.pens.items) }
    {
        self.pens.reserve(1)?;
        self.pens.push_reserved(Pen { party, signer: pen });
        Ok(())
    }

    /// The first pen of a party.
    fn pen_of(&self, party: Party) -> Option<&S>
        ensures { option_map (λ pen. pen.now) result ≡ pens.pen_of self.now.pens.items party }
    {
        match self.pens.iter().find(|pen| is_same(party, pen.party)) {
            Some(pen) => Some(&pen.signer),
            None => None,
        }
    }

    /// Whether a party has a signature left; a party without a pen has none.
    pub fn has_left(&self, party: Party) -> bool
        ensures left { result ≡ nat_lt 0 (left_in S.Signer self.now party) }
        ensures as_run { (s : Setup) (st : State) → LiesAs S.Signer self.now s st.lied → is_faulty s party ≡ true →
            result ≡ faulty.has_left s st party }
    {
        match self.pen_of(party) {
            Some(pen) => pen.left() > 0,
            None => false,
        }
    }

    /// The bytes of each signature of a party: 1 to 8,192, and 1 for a party without a pen.
    pub fn size_of(&self, party: Party) -> usize
        ensures size { result ≡ size_in S.Signer self.now party }
        ensures least { 1 ≤ result }
        ensures most { result ≤ signature_limit }
        ensures as_run { (s : Setup) (st : State) (words : SignedWords) → LiesAs S.Signer self.now s st.lied →
            is_faulty s party ≡ true → faulty.has_left s st party ≡ true →
            length (faulty_signature s st party words) ≡ result }
    {
        match self.pen_of(party) {
            Some(pen) => pen.size(),
            None => 1,
        }
    }

    /// The place of a party's first pen.
    fn place_of(&self, party: Party) -> Option<usize>
        ensures { result ≡ position (λ (x : Pen S). same_party party x.party) self.now.pens.items }
    {
        self.pens.iter().position(|pen| is_same(party, pen.party))
    }

    /// The pen at this place signs what waits, and it is sent. Takes no memory.
    fn sign_at(&mut self, place: usize, pending: Pending, out: &mut Outbox) -> Vec<u8>
        requires place { place < length self.old.pens.items }
        requires can { (pen : Pen S) → slice_get self.old.pens.items place ≡ Some pen →
            CanSign (S.fixed pen.signer).size (S.left_of pen.signer) out.old pending }
        ensures signature { (pen : Pen S) → slice_get self.old.pens.items place ≡ Some pen →
            result.items ≡ (S.fixed pen.signer).gives (S.spent pen.signer) pending.words }
        ensures pens { (pen : Pen S) → slice_get self.old.pens.items place ≡ Some pen →
            StepsAt S.Signer self.old.pens.items self.new.pens.items place pen }
        ensures messages { out.new.messages.items ≡ out.old.messages.items ++ sealed_all result.items pending }
        ensures words { out.new.signed.items ≡ out.old.signed.items ++ pending.words ∷ [] }
        ensures fits { IsSignature result.items }
        ensures sends { (pen : Pen S) → slice_get self.old.pens.items place ≡ Some pen →
            Sends out.old out.new (length pending.frames.items)
            (bytes_in (S.fixed pen.signer).size pending.frames.items) }
    {
        sign(&mut self.pens[place].signer, pending, out)
    }

    /// A party signs a lie that is ready for its pen's size, and sends it; with the signature, 1 to 8,192 bytes. The
    /// messages have the number and the bytes that the lie tells. Takes no memory.
    pub fn say(&mut self, party: Party, lie: Lie) -> Said
        requires left { 0 < left_in S.Signer self.old party }
        requires ready { CanBeSaid (size_in S.Signer self.old party) lie }
        ensures fits { IsSignature result.signature.items }
        ensures tells { Tells lie result.out.messages.items }
        ensures signature { (s : Setup) (st : State) (words : SignedWords) → LiesAs S.Signer self.old s st.lied →
            is_faulty s party ≡ true → lie.pending.words ≡ words_of words →
            result.signature.items ≡ faulty_signature s st party words }
        ensures holds { (s : Setup) (st : State) (u : Unsaid) → LiesAs S.Signer self.old s st.lied →
            is_faulty s party ≡ true → u.party ≡ party → Says u lie →
            Holds result.out (u.sent (faulty_signature s st party u.words)) (u.words ∷ []) }
        ensures pens { (s : Setup) (st : State) (words : SignedWords) → LiesAs S.Signer self.old s st.lied →
            LiesAs S.Signer self.new s (after_lie st party words).lied }
    {
        let Lie { pending, out, .. } = lie;
        let mut out = out;
        match self.place_of(party) {
            Some(place) => {
                let signature = self.sign_at(place, pending, &mut out);
                Said { out, signature }
            }
            None => unreachable!(),
        }
    }

    /// A party signs a lie that is ready for its pen's size, and sends it. The messages have the number and the bytes
    /// that the lie tells. Takes no memory.
    pub fn sign(&mut self, party: Party, lie: Lie) -> Outbox
        requires left { 0 < left_in S.Signer self.old party }
        requires ready { CanBeSaid (size_in S.Signer self.old party) lie }
        ensures tells { Tells lie result.messages.items }
        ensures holds { (s : Setup) (st : State) (u : Unsaid) → LiesAs S.Signer self.old s st.lied →
            is_faulty s party ≡ true → u.party ≡ party → Says u lie →
            Holds result (u.sent (faulty_signature s st party u.words)) (u.words ∷ []) }
        ensures pens { (s : Setup) (st : State) (words : SignedWords) → LiesAs S.Signer self.old s st.lied →
            LiesAs S.Signer self.new s (after_lie st party words).lied }
    {
        self.say(party, lie).out
    }
}

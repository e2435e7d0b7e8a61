//! Laws of read replies and of choices.

ghost use Rattle.client_reads.specs.Laws.{RepliesExactly, RepliesGrow, RepliesAlike, RepliesCarry, RepliesStandBelow};
ghost use Rattle.client_reads.specs.Laws.{ChoicesCarried, ChoicesGreatest, ChoicesStandBelow};

use certificates::laws::{
    no_refusal_exactly, proofs_carry, proofs_grow, refusals_rest_on_signatures,
};

/// There is no fault exactly where a reply is valid.
pub fn replies_exactly()
    ensures { RepliesExactly }
{
    no_refusal_exactly();
}

/// What is valid stays valid over a keyring that accepts more.
pub fn replies_grow()
    ensures { RepliesGrow }
{
    proofs_grow();
}

/// A fault is a function of the read, of what the reply says and of what is accepted of the reply's own signatures.
pub fn faults_rest_on_signatures()
    ensures { RepliesAlike }
{
    refusals_rest_on_signatures();
}

/// A reply that is taken is taken over any relation that accepts those of its own signatures which the keyring accepts.
pub fn replies_carry()
    ensures { RepliesCarry }
{
    proofs_carry();
}

/// What a valid reply carries stands below the limit of its read, and so does each choice among such replies.
pub fn choices_stand_below()
    ensures replies { RepliesStandBelow }
    ensures choices { ChoicesStandBelow }
{}

/// A choice rests on what the replies carry, and no version that counts stands above it.
pub fn choices_rest_on_replies()
    ensures carried { ChoicesCarried }
    ensures greatest { ChoicesGreatest }
{}

//! What every list of steps of a replica keeps, whatever the bytes of the frames.

ghost use Rattle.replica_laws.specs.Placing.{WordsTakePlaces};
ghost use Rattle.replica_laws.specs.Steps.{PlacesNeverRepeat, NothingIsForgotten, OneVoteEach, OneDecisionPerView};
ghost use Rattle.replica_laws.specs.Steps.{SignsNoMoreThanHanded};

use txn_table::laws::{ids_tell_places, released_votes_ascend};

/// As many places of the pen are taken as words are signed, so no place is taken twice.
pub fn places_never_repeat()
    ensures { PlacesNeverRepeat }
{
    ids_tell_places();
    released_votes_ascend();
}

/// What a replica signs in turn takes the places of its pen in turn, each one once: the signature that the pen gives of
/// the n-th words at the n-th place, from the book's first on, is sent or stored by the step that signs them.
pub fn words_take_places()
    ensures { WordsTakePlaces }
{
    ids_tell_places();
    released_votes_ascend();
}

/// From the empty book on at most as many words are signed as frames are handed: each vote that an outcome releases was
/// asked for by a frame that signed nothing.
pub fn signs_no_more_than_handed()
    ensures { SignsNoMoreThanHanded }
{
    released_votes_ascend();
}

/// A known transaction stays known, at its place; its vote stays as it was given, and its outcome with its certificate.
pub fn nothing_is_forgotten()
    ensures { NothingIsForgotten }
{
    ids_tell_places();
    released_votes_ascend();
}

/// From the empty book on at most one vote on each transaction is signed.
pub fn one_vote_each()
    ensures { OneVoteEach }
{
    ids_tell_places();
    released_votes_ascend();
}

/// From the empty book on log replies of one transaction that tell one decided view tell one decision.
pub fn one_decision_per_view()
    ensures { OneDecisionPerView }
{
    ids_tell_places();
    released_votes_ascend();
}

//! What a client begins and signs.

ghost use Rattle.client_laws.specs.Signing.{PlacesNeverRepeat, SignedOncePerSlot, WordsTakePlaces};
ghost use Rattle.client_laws.specs.Steps.{TimesRise};

/// The times of the transactions that a client begins strictly rise.
pub fn times_rise()
    ensures { TimesRise }
{}

/// For each transaction that a client began and formed its id is signed once, and nothing else is signed.
pub fn signed_once_per_slot()
    ensures { SignedOncePerSlot }
{}

/// As many places of the pen are taken as words are signed.
pub fn places_never_repeat()
    ensures { PlacesNeverRepeat }
{}

/// What a client signs in turn takes the places of its pen in turn, each one once: the n-th signature, which a formed
/// transaction carries, is what the pen gives at the n-th place from its first on.
pub fn words_take_places()
    ensures { WordsTakePlaces }
{}

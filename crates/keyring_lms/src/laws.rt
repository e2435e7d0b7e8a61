//! Laws of keyrings and pens: functions that do nothing, and whose contracts say them.
ghost use Rattle.keyring_lms.specs.Laws.{AcceptedIsValid, PensAgreeWithKeys, OneKeyAgreesWithItsPen};
ghost use Rattle.keyring_lms.specs.Laws.{ReplayPensAgreeWithKeys, ReplayPensAreAccepted};

/// A keyring accepts exactly what is valid (RFC 8554, section 5.4.2) under the public key of the party's first entry.
pub fn accepted_is_valid()
    ensures { AcceptedIsValid }
{}

/// What a pen's relation holds of, for the pen's party, is what a keyring accepts of that party, if the keyring's first
/// entry of the party is the pen's public key.
pub fn pens_agree_with_keys()
    ensures { PensAgreeWithKeys }
{}

/// The keyring of one entry has the whole relation of the pen of that party with that public key.
pub fn one_key_agrees_with_its_pen()
    ensures { OneKeyAgreesWithItsPen }
{}

/// What the relation of the replay pen of a party of a cluster holds of, for that party, is what the replay keyring of
/// that cluster and the same set accepts of it.
pub fn replay_pens_agree_with_keys()
    ensures { ReplayPensAgreeWithKeys }
{}

/// What the replay pen of a party of a cluster signs with any leaf is accepted by the replay keyring of that cluster
/// and the same set.
pub fn replay_pens_are_accepted()
    ensures { ReplayPensAreAccepted }
{}

//! The kinds of kits.

ghost use Rattle.std.specs.Prelude.{◌≡◌};
ghost use Rattle.replay_kit.specs.Kinds.{kind_of};

use line_fields::keys_kind::KeysKind;
use lms_sign::LmsSet;

/// The keys that a kit has.
#[derive(Clone, Copy)]
pub enum KitKind {
    /// Plain ones.
    Plain,
    /// Those of LMS (RFC 8554), with this parameter set.
    Lms(LmsSet),
    /// Plain ones, each of whose signatures is a batch of one.
    Batch,
}

impl KitKind {
    /// The kind that a header asks for.
    pub fn of(keys: KeysKind) -> KitKind
        ensures { result ≡ kind_of keys }
    {
        match keys {
            KeysKind::Plain => KitKind::Plain,
            KeysKind::W4H5 => KitKind::Lms(LmsSet::W4H5),
            KeysKind::W4H10 => KitKind::Lms(LmsSet::W4H10),
            KeysKind::W8H5 => KitKind::Lms(LmsSet::W8H5),
            KeysKind::W8H10 => KitKind::Lms(LmsSet::W8H10),
            KeysKind::Batch => KitKind::Batch,
        }
    }
}

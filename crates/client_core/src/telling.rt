//! What a slot tells of the frames that were taken for its transaction.

ghost use Rattle.std.specs.Prelude.{◌≡◌, IfSome, Option, is_some, option_and_then, option_map};
ghost use Rattle.std.specs.Option.{option_map_or};
ghost use Rattle.basil_types.specs.Setting.{Setting};
ghost use Rattle.client_core.specs.Clusters.{IsOf};
ghost use Rattle.client_core.specs.Showing.{ShowsFormed, ShowsPursuit};
ghost use Rattle.client_recover.specs.Counting.{replies_held};
ghost use Rattle.client_recover.specs.Owned.{shown_outcome};
ghost use Rattle.client_recover.specs.Pursuits as pursuits;
ghost use Rattle.client_recover.specs.Taken.{PursuitValue};
ghost use Rattle.frame_values.specs.Owned.{certificate_value};
ghost use Rattle.frame_views.specs.Fitting.{FitsCertificate, widest};

use crate::held::{Formed, Slot};
use basil_types::party::Decision;
use frame_values::owned::Certificate;

impl Formed {
    /// Whether it is decided.
    pub(crate) fn has_outcome(&self) -> bool
        ensures { (p : PursuitValue) → ShowsPursuit self.now p →
            result ≡ is_some (pursuits.outcome self.now.pursuit.cluster p) }
    {
        self.outcome().is_some()
    }
}

impl Slot {
    /// The decision on the transaction, with its certificate. None before there is one.
    pub(crate) fn outcome(&self) -> Option<(Decision, &Certificate)>
        ensures value { (c : Setting) (p : Option PursuitValue) → IsOf c self.now.formed →
            ShowsFormed self.now.formed p →
            option_map shown_outcome result ≡ option_and_then (pursuits.outcome c) p }
        // The certificate has a spelling.
        ensures fits { IfSome result (λ o. FitsCertificate widest (certificate_value o.1.now)) }
    {
        match &self.formed {
            Some(formed) => formed.outcome(),
            None => None,
        }
    }

    /// How many votes and log replies count. None does before the transaction is formed.
    pub(crate) fn held(&self) -> u32
        ensures { (p : Option PursuitValue) → ShowsFormed self.now.formed p →
            result ≡ option_map_or (λ (p : PursuitValue). replies_held p.taken) p 0 }
    {
        match &self.formed {
            Some(formed) => formed.held(),
            None => 0,
        }
    }
}

//! Each answer of a replica is a list of lawful acts.

ghost use Rattle.cluster_run.specs.Answering.{AnswersAreActs, AnswersKeepOrder};

use agreement_laws::election_of_list;
use certificates::laws::{no_refusal_exactly, proofs_carry, tallies_show_quorums};
use fallback_leader::laws::{proposals_elect, words_stay_apart};
use law_joins::shown::{certificates_are_certificates, tallies_are_tallies};
use law_joins::verdicts::{releases_are_sound, verdicts_are_sound};

/// Each answer of a replica to a seen message is a list of acts that the argument for agreement allows.
pub fn answers_are_acts()
    ensures { AnswersAreActs }
{
    no_refusal_exactly();
    proofs_carry();
    certificates_are_certificates();
    tallies_are_tallies();
    tallies_show_quorums();
    verdicts_are_sound();
    releases_are_sound();
    election_of_list();
    proposals_elect();
}

/// Each answer leaves the book in order.
pub fn answers_keep_order()
    ensures { AnswersKeepOrder }
{
    words_stay_apart();
}

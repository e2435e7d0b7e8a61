//! What was heard of replicas, listed by these.

ghost use Rattle.std.specs.Prelude.{◌≡◌, IfOk, map, option_map, take};
ghost use Rattle.frame_values.specs.Owned.{vote_value, word_value};
ghost use Rattle.frame_views.specs.Fitting.{AreCounted, FitsWord, after_word, widest};
ghost use Rattle.node_steps.specs.Lists.{first_with};
ghost use Rattle.faulty_parties.specs.Heard.{AreSigned};
ghost use Rattle.faulty_parties.specs.Tallies as lists;
ghost use Rattle.faulty_parties.specs.Tallies.{all_heard, vote_said};

use crate::hearing::hear;
use crate::question::Question;
use basil_types::bytes::Bytes;
use basil_types::cluster::Cluster;
use basil_types::list::List;
use basil_types::memory::NoMemory;
use frame_values::owned::{ElectPart, VotePart};
use keyring::verifier::Verifier;
use message_pool::Pool;
use std::alloc::Global;

/// What the messages of a pool answer to a question, of each replica the first answer alone.
pub(crate) fn all_heard<V: Verifier>(
    alloc: Global,
    keys: &V,
    cluster: &Cluster,
    pool: &Pool,
    id: &[u8; 32],
    q: Question,
) -> Result<Vec<ElectPart>, NoMemory>
    ensures heard { IfOk result (λ words. map word_value words.items
        ≡ lists.all_heard (V.accepted keys.now) cluster.now id.now q pool.now.posts) }
    ensures signed { IfOk result (λ words. AreSigned (map word_value words.items)) }
{
    let mut words = Vec::new(alloc);
    hear(alloc, &mut words, keys, cluster, pool, id, q)?;
    Ok(words)
}

/// At most so many of these, from the first on.
pub(crate) fn first_ones(words: Vec<ElectPart>, count: u8) -> Vec<ElectPart>
    requires { AreSigned (map word_value words.items) }
    ensures few { map word_value result.items ≡ take count (map word_value words.items) }
    ensures signed { AreSigned (map word_value result.items) }
{
    let mut words = words;
    words.truncate(usize::from(count));
    words
}

/// The first of these that is of this replica.
fn word_by(words: &[ElectPart], replica: u8) -> Option<&ElectPart>
    ensures { option_map (λ w. w.now) result ≡ first_with (λ (w : ElectPart). w.replica) words.now replica }
{
    words.iter().find(|word| word.replica == replica)
}

/// A copy.
fn copy_of(alloc: Global, word: &ElectPart) -> Result<ElectPart, NoMemory>
    ensures { IfOk result (λ w. word_value w ≡ word_value word.now) }
{
    Ok(ElectPart {
        replica: word.replica,
        decision: word.decision,
        signature: Bytes::copy_of(alloc, word.signature.as_slice())?,
    })
}

/// These by replicas, ascending.
pub(crate) fn listed(
    alloc: Global,
    cluster: &Cluster,
    words: &[ElectPart],
) -> Result<Vec<ElectPart>, NoMemory>
    requires { AreSigned (map word_value words.now) }
    ensures listed { IfOk result (λ l. map word_value l.items ≡ lists.listed cluster.now (map word_value words.now)) }
    ensures counted { IfOk result (λ l. AreCounted (FitsWord widest) after_word (map word_value l.items)) }
{
    let mut parts = Vec::new(alloc);
    for replica in 0..cluster.n() {
        match word_by(words, replica) {
            Some(word) => parts.push(copy_of(alloc, word)?)?,
            None => {}
        }
    }
    Ok(parts)
}

/// Votes as a tally carries them.
pub(crate) fn votes_of(alloc: Global, words: Vec<ElectPart>) -> Result<List<VotePart>, NoMemory>
    ensures { IfOk result (λ l. map vote_value l.items ≡ map vote_said (map word_value words.items)) }
{
    let mut votes = Vec::new(alloc);
    for word in words {
        votes.push(VotePart {
            replica: word.replica,
            signature: word.signature,
        })?;
    }
    Ok(List::from_vec(votes))
}

//! Election words and proposals.

ghost use Rattle.std.specs.Prelude.{◌≡◌, IfOk};

use basil_types::bytes::Bytes;
use basil_types::list::List;
use basil_types::memory::NoMemory;
use basil_types::party::Decision;
use std::alloc::Global;

/// What a replica that enters a view sends to the view's leader: the decision that it has logged, with its signature. A
/// decide frame carries words in this form.
pub use frame_values::owned::ElectPart as ElectWord;

/// What a leader proposes: the elected decision, and the words that elected it.
#[derive(Drop)]
pub struct Proposal {
    pub decision: Decision,
    /// 4f+1 words, ascending by replica.
    pub words: List<ElectWord>,
}

/// A word that a leader keeps, and the transaction and the view that it is for.
#[derive(Drop)]
pub struct KeptWord {
    /// The transaction's id.
    pub id: [u8; 32],
    pub view: u64,
    pub word: ElectWord,
}

/// A copy of a word, or want of memory.
pub(crate) fn copy_of(word: &ElectWord, alloc: Global) -> Result<ElectWord, NoMemory>
    ensures { IfOk result (λ copy. copy ≡ word.now) }
{
    let signature = Bytes::copy_of(alloc, word.signature.as_slice())?;
    Ok(ElectWord {
        replica: word.replica,
        decision: word.decision,
        signature,
    })
}

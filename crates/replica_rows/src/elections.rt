//! The words that a leader collects, its proposals, and the words of decide frames.

use basil_types::bytes::Bytes;
use basil_types::cluster::Cluster;
use basil_types::memory::NoMemory;
use basil_types::party::Decision;
use fallback_leader::{Collector, ElectWord, Naming, Proposal};
use frame_views::frames::{MessageView, check};
use std::alloc::Global;
use std::test::Fail;

const COMMIT: Decision = Decision::Commit;

const ABORT: Decision = Decision::Abort;

/// A word whose signature is the replica's index.
fn word(alloc: Global, replica: u8, decision: Decision) -> Result<ElectWord, NoMemory> {
    let signature = Bytes::copy_of(alloc, &[replica])?;
    Ok(ElectWord {
        replica,
        decision,
        signature,
    })
}

/// Whether a proposal is for a decision by the words of these replicas.
fn is_by(proposal: &Proposal, decision: Decision, replicas: &[u8]) -> bool {
    let words = proposal.words.as_slice();
    proposal.decision == decision
        && words.len() == replicas.len()
        && words.iter().zip(replicas).all(|(word, replica)| {
            word.replica == *replica && word.signature.as_slice() == [*replica].as_slice()
        })
}

/// The byte of which a transaction's id is made, a view of it, a replica's word, and what is proposed with it: a
/// decision, by the words of these replicas.
type Step = (u8, u64, u8, Decision, Option<(Decision, &'static [u8])>);

/// The fifth word makes a proposal, for the decision that most of them name; a second word of a replica and one after
/// the fifth change nothing, and views and ids stand apart.
const STEPS: &[Step] = &[
    (7, 1, 5, COMMIT, None),
    (7, 1, 0, COMMIT, None),
    (7, 1, 4, COMMIT, None),
    (7, 1, 1, ABORT, None),
    (7, 1, 0, ABORT, None),
    (7, 2, 2, COMMIT, None),
    (8, 1, 2, COMMIT, None),
    (7, 1, 2, ABORT, Some((COMMIT, &[0, 1, 2, 4, 5]))),
    (7, 1, 3, COMMIT, None),
];

/// Whether the collector answers as a step says.
fn is_answered(
    collector: &mut Collector,
    alloc: Global,
    cluster: &Cluster,
    step: &Step,
) -> Result<bool, NoMemory> {
    let (id, view, replica, named, proposed) = *step;
    let given = collector.collect(&[id; 32], view, word(alloc, replica, named)?, cluster)?;
    Ok(match (given, proposed) {
        (Some(proposal), Some((decision, replicas))) => is_by(&proposal, decision, replicas),
        (None, None) => true,
        _ => false,
    })
}

/// Whether the collector answers as the first steps say.
fn are_answered(collector: &mut Collector, alloc: Global, count: usize) -> Result<bool, Fail> {
    let cluster = Cluster::new(1, 1, 2, 100)?;
    for step in STEPS.iter().take(count) {
        if !is_answered(collector, alloc, &cluster, step)? {
            return Ok(false);
        }
    }
    Ok(true)
}

#[test]
fn the_fifth_word_makes_a_proposal(rt: HostRuntime) -> Result<(), Fail> {
    let mut collector = Collector::new(rt.alloc());
    let answered = are_answered(&mut collector, rt.alloc(), STEPS.len());
    drop(collector);
    assert!(rt; answered?);
    Ok(())
}

/// The word of replica 3, once the fifth word is taken back.
const AGAIN: Step = (7, 1, 3, ABORT, Some((COMMIT, &[0, 1, 3, 4, 5])));

/// Whether the collector takes back one word alone, and then answers to another.
fn is_undone_once(collector: &mut Collector, alloc: Global) -> Result<bool, Fail> {
    let cluster = Cluster::new(1, 1, 2, 100)?;
    let answered = are_answered(collector, alloc, 8)?;
    collector.undo();
    collector.undo();
    Ok(answered && is_answered(collector, alloc, &cluster, &AGAIN)?)
}

#[test]
fn an_undone_word_is_gone_once(rt: HostRuntime) -> Result<(), Fail> {
    let mut collector = Collector::new(rt.alloc());
    let undone = is_undone_once(&mut collector, rt.alloc());
    drop(collector);
    assert!(rt; undone?);
    Ok(())
}

/// A decide of transaction 01 00..0a 01 00 01 01 61 0002 7831, up to its decision.
const FRONT: [u8; 21] = [
    11, 1, 0, 0, 0, 0, 0, 0, 0, 10, 1, 0, 1, 1, 0x61, 0, 2, 0x78, 0x31, 0, 0,
];

/// Its frame for view 1, with words of one byte's signatures: a replica and a decision each.
fn decide(alloc: Global, decision: u8, count: u8, words: &[[u8; 2]]) -> Result<Vec<u8>, NoMemory> {
    let mut frame = Vec::new(alloc);
    frame.extend_from_slice(&FRONT)?;
    frame.extend_from_slice(&[decision, 0, 0, 0, 0, 0, 0, 0, 1, count])?;
    for [replica, named] in words {
        frame.extend_from_slice(&[*replica, *named, 0, 1, 7])?;
    }
    frame.extend_from_slice(&[0, 1, 7])?;
    Ok(frame)
}

/// What a decide's words name, and whether they elect its decision.
fn named(frame: &[u8], cluster: &Cluster) -> Option<(u8, u8, bool)> {
    match check(frame, cluster) {
        Ok(MessageView::Decide(m)) => {
            let naming = Naming::of(&m.words, m.decision);
            Some((naming.words, naming.agreeing, naming.is_election(cluster)))
        }
        _ => None,
    }
}

/// A decision (0 commit, 1 abort), the words, how many name it, and whether they elect it.
const DECIDES: &[(u8, u8, &[[u8; 2]], u8, bool)] = &[
    (0, 5, &[[0, 0], [1, 0], [2, 0], [3, 1], [4, 1]], 3, true),
    (1, 5, &[[0, 0], [1, 0], [2, 0], [3, 1], [4, 1]], 2, false),
    (1, 5, &[[0, 1], [2, 1], [3, 1], [4, 1], [5, 1]], 5, true),
    (0, 4, &[[0, 0], [1, 0], [2, 0], [3, 0]], 4, false),
    (
        0,
        6,
        &[[0, 0], [1, 0], [2, 0], [3, 0], [4, 1], [5, 1]],
        4,
        false,
    ),
    (0, 0, &[], 0, false),
];

#[test]
fn the_words_of_a_decide_are_counted(rt: HostRuntime) -> Result<(), Fail> {
    let cluster = Cluster::new(1, 1, 2, 100)?;
    for &(decision, count, words, agreeing, elects) in DECIDES {
        let frame = decide(rt.alloc(), decision, count, words)?;
        let found = named(frame.as_slice(), &cluster);
        assert!(rt;
            found == Some((count, agreeing, elects)),
            "{agreeing} of {count}"
        );
    }
    Ok(())
}

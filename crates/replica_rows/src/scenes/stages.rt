//! Scenes: what comes to one replica, and what it answers.

use crate::scenes::casts::{Role, cast_of, find, token_at};
use crate::scenes::phrases::{Line, put_frame};
use crate::scenes::telling::{Reader, leaf_of, name_of, tell};
use basil_types::bytes::id_of;
use basil_types::cluster::Cluster;
use basil_types::outbox::{Envelope, Outbox};
use basil_types::party::Party;
use decision_log::LogCell;
use keyring::plain::{PlainKeys, seed_of};
use keyring_lms::{LmsKeys, LmsPen};
use lms_sign::{LmsKey, LmsSet, ident_of_seed};
use node_steps::pending::outbox;
use replica_core::{Refusal, Replica};
use std::alloc::{AllocError, Global};
use std::mem::replace;
use std::process::Abort;
use std::test::Fail;
use txn_table::entry::{Entry, VoteState};

/// The replica's clock, in a cluster with f = 1 and a delta of 100.
const NOW: u64 = 50;

/// A scene: the shards of the cluster, the replica's shard and index, the first of its key's 32 leaves, the
/// transactions, and what comes, each with what is answered. The others sign with plain keys.
#[derive(Clone, Copy)]
pub(crate) struct Scene {
    pub(crate) shards: u8,
    pub(crate) shard: u8,
    pub(crate) index: u8,
    pub(crate) leaf: u32,
    pub(crate) cast: &'static [&'static str],
    pub(crate) steps: &'static [(&'static str, &'static str)],
}

/// How a frame is handed to a replica.
#[derive(Clone, Copy)]
pub(crate) enum Way {
    /// In one step.
    Whole,
    /// Planned and committed.
    Halves,
    /// Planned and given up, and then in one step.
    Again,
}

/// A replica with what its frames are read by, all that it sent, and the bytes of all its frames.
#[derive(Drop)]
struct Stage {
    cluster: Cluster,
    shard: u8,
    cast: Vec<Role>,
    key: LmsKeys,
    replica: Box<Replica<PlainKeys, LmsPen>>,
    out: Outbox,
    sent: Vec<u8>,
}

/// The replica of a scene, and a keyring that accepts what its pen signs; fails where the cluster has none of this
/// shard and index.
fn replica_of(
    alloc: Global,
    cluster: Cluster,
    scene: &Scene,
) -> Result<(Box<Replica<PlainKeys, LmsPen>>, LmsKeys), Fail> {
    let (shard, index) = (scene.shard, scene.index);
    if shard >= cluster.shards || index >= cluster.n() || scene.leaf > 32 {
        return Err(Fail::new("no such replica"));
    }
    let party = Party::Replica { shard, index };
    let seed = seed_of(party);
    let key = LmsKey::make(
        alloc,
        &seed,
        &ident_of_seed(&seed),
        LmsSet::W4H5,
        scene.leaf,
    )?;
    let own = LmsKeys::from_publics(alloc, &[(party, key.public())])?;
    let keys = PlainKeys::new(&cluster);
    let pen = LmsPen::new(party, key);
    let replica = Replica::new(alloc, cluster, shard, index, keys, pen);
    Ok((Box::new(alloc, replica)?, own))
}

fn stage_of(alloc: Global, scene: &Scene) -> Result<Stage, Fail> {
    let cluster = Cluster::new(1, scene.shards, 2, 100)?;
    let cast = cast_of(alloc, scene.cast)?;
    let (replica, key) = replica_of(alloc, cluster, scene)?;
    Ok(Stage {
        cluster,
        shard: scene.shard,
        cast,
        key,
        replica,
        out: outbox(alloc),
        sent: Vec::new(alloc),
    })
}

/// What is known of a transaction: its vote with the leaf that signed it, or how many wait for it; and its outcome with
/// the size of its certificate.
fn put_entry(text: &mut String, entry: &Entry) -> Result<(), AllocError> {
    match entry.vote() {
        VoteState::Unvoted => text.push_str("unvoted")?,
        VoteState::Waiting => write!(text, "{} wait", entry.askers().len())?,
        VoteState::Voted {
            vote,
            signature,
            proof,
        } => write!(text, "{} {} {proof:?}", name_of(vote), leaf_of(signature))?,
    }
    match entry.outcome() {
        Some((decision, certificate)) => {
            write!(text, " {} {}; ", name_of(decision), certificate.len())
        }
        None => text.push_str("; "),
    }
}

/// The bytes of all frames.
fn bytes_of(messages: &[Envelope]) -> u64 {
    let mut bytes = 0u64;
    for envelope in messages {
        bytes = bytes.saturating_add(envelope.frame.as_slice().len() as u64);
    }
    bytes
}

impl Stage {
    fn line<'a>(&'a self, phrase: &'a str) -> Line<'a> {
        Line {
            phrase,
            cast: &self.cast,
            shard: self.shard,
        }
    }

    /// What is logged of the transaction that a phrase names.
    fn cell(&self, phrase: &str) -> Option<LogCell> {
        let role = find(&self.cast, token_at(phrase, 2))?;
        self.replica.cell(&id_of(&role.bytes))
    }

    /// What must stay where a frame is refused: what is known of each transaction of the cast, and logged of the one
    /// that a phrase names; and how much was sent and signed.
    fn put_mark(&self, text: &mut String, phrase: &str) -> Result<(), AllocError> {
        for role in self.cast.iter() {
            match self.replica.table().entry_with(&id_of(&role.bytes)) {
                Some(entry) => put_entry(text, entry)?,
                None => text.push_str("unknown; ")?,
            }
        }
        self.tell_cell(text, phrase)?;
        let (sent, signed) = (self.out.messages.as_slice(), self.out.signed.as_slice());
        write!(text, "; {} {} {}", sent.len(), bytes_of(sent), signed.len())
    }

    fn mark(&self, alloc: Global, phrase: &str) -> Result<String, AllocError> {
        let mut text = String::new(alloc);
        self.put_mark(&mut text, phrase)?;
        Ok(text)
    }

    /// Fails where something changed since this mark.
    fn stays(&self, alloc: Global, phrase: &str, before: &str) -> Result<(), Fail> {
        let after = self.mark(alloc, phrase)?;
        if after.as_str() == before {
            Ok(())
        } else {
            Err(Fail::new("a refused frame changed something"))
        }
    }

    /// Hands a frame in two halves; fails where the plan tells other messages or bytes than are sent.
    fn hand_halves(&mut self, from: Party, frame: &[u8]) -> Result<Result<(), Refusal>, Fail> {
        match self.replica.plan(NOW, from, frame) {
            Ok(plan) => {
                let messages = plan.messages();
                let bytes = plan.bytes();
                self.out = self.replica.commit(plan);
                let sent = self.out.messages.as_slice();
                if messages == sent.len() as u64 && bytes == bytes_of(sent) {
                    Ok(Ok(()))
                } else {
                    Err(Fail::new("the plan told something else"))
                }
            }
            Err(refused) => Ok(Err(refused)),
        }
    }

    /// Plans and gives up.
    fn give_up(&mut self, from: Party, frame: &[u8]) {
        match self.replica.plan(NOW, from, frame) {
            Ok(plan) => self.replica.give_up(plan),
            Err(_) => {}
        }
    }

    fn hand(&mut self, way: Way, from: Party, frame: &[u8]) -> Result<Result<(), Refusal>, Fail> {
        match way {
            Way::Whole => Ok(self.replica.step(NOW, from, frame, &mut self.out)),
            Way::Halves => self.hand_halves(from, frame),
            Way::Again => {
                self.give_up(from, frame);
                Ok(self.replica.step(NOW, from, frame, &mut self.out))
            }
        }
    }

    /// Tells the messages from a place on.
    fn tell(&mut self, text: &mut String, from: usize) -> Result<(), AllocError> {
        let reader = Reader {
            cluster: &self.cluster,
            cast: &self.cast,
            key: &self.key,
        };
        for envelope in self.out.messages.as_slice().iter().skip(from) {
            self.sent.extend_from_slice(envelope.frame.as_slice())?;
        }
        tell(text, &reader, self.out.messages.as_slice(), from)
    }

    /// Hands a frame to the replica, and tells what it answers; fails where a refused frame changed anything since this
    /// mark.
    fn hand_frame(
        &mut self,
        alloc: Global,
        text: &mut String,
        way: Way,
        phrase: &str,
        frame: &[u8],
        before: &str,
    ) -> Result<(), Fail> {
        let from = self.line(phrase).sender();
        let place = match way {
            Way::Halves => 0,
            Way::Whole | Way::Again => self.out.messages.as_slice().len(),
        };
        match self.hand(way, from, frame)? {
            Ok(()) => Ok(self.tell(text, place)?),
            Err(refused) => {
                write!(text, "refused {refused:?}")?;
                self.stays(alloc, phrase, before)
            }
        }
    }

    /// The same with the frame of a phrase.
    fn hand_phrase(
        &mut self,
        alloc: Global,
        text: &mut String,
        way: Way,
        phrase: &str,
    ) -> Result<(), Fail> {
        let before = self.mark(alloc, phrase)?;
        let mut frame = Vec::new(alloc);
        put_frame(&mut frame, &self.line(phrase))?;
        self.hand_frame(alloc, text, way, phrase, &frame, &before)
    }

    fn tell_cell(&self, text: &mut String, phrase: &str) -> Result<(), AllocError> {
        match self.cell(phrase) {
            Some(cell) => {
                let decision = name_of(cell.decision);
                write!(text, "{decision} {} {}", cell.decided, cell.current)
            }
            None => text.push_str("none"),
        }
    }

    /// The answer to a phrase. `the cell A` asks what is logged of A, `the table` how many transactions are known.
    fn put_answer(
        &mut self,
        alloc: Global,
        text: &mut String,
        way: Way,
        phrase: &str,
    ) -> Result<(), Fail> {
        match token_at(phrase, 1).as_bytes() {
            b"cell" => Ok(self.tell_cell(text, phrase)?),
            b"table" => Ok(write!(text, "{}", self.replica.table().len())?),
            _ => self.hand_phrase(alloc, text, way, phrase),
        }
    }

    fn answer(&mut self, alloc: Global, way: Way, phrase: &str) -> Result<String, Fail> {
        let mut text = String::new(alloc);
        self.put_answer(alloc, &mut text, way, phrase)?;
        Ok(text)
    }

    /// Plays the steps of a scene, and gives the bytes of all frames that were sent.
    fn play(
        &mut self,
        rt: &impl Abort,
        alloc: Global,
        steps: &[(&str, &str)],
        way: Way,
    ) -> Result<Vec<u8>, Fail> {
        for (phrase, wanted) in steps {
            let found = self.answer(alloc, way, phrase)?;
            assert!(rt; found.as_str() == *wanted, "{phrase}: {found}");
        }
        Ok(replace(&mut self.sent, Vec::new(alloc)))
    }
}

/// Plays a scene, and gives the bytes of all frames that the replica sent. Its stage is owned here alone, and let go in
/// one place.
pub(crate) fn played(
    rt: &impl Abort,
    alloc: Global,
    scene: &Scene,
    way: Way,
) -> Result<Vec<u8>, Fail> {
    let mut stage = stage_of(alloc, scene)?;
    stage.play(rt, alloc, scene.steps, way)
}

/// Plays a scene whose frames are handed over in one step.
pub(crate) fn plays(rt: &impl Abort, alloc: Global, scene: &Scene) -> Result<(), Fail> {
    drop(played(rt, alloc, scene, Way::Whole)?);
    Ok(())
}

/// Plays scenes so, one after the other.
pub(crate) fn play_all(rt: &impl Abort, alloc: Global, scenes: &[Scene]) -> Result<(), Fail> {
    for scene in scenes {
        plays(rt, alloc, scene)?;
    }
    Ok(())
}

/// All of them.
const WAYS: &[Way] = &[Way::Whole, Way::Halves, Way::Again];

/// Plays a scene in each way.
pub(crate) fn plays_each_way(rt: &impl Abort, alloc: Global, scene: &Scene) -> Result<(), Fail> {
    for way in WAYS {
        drop(played(rt, alloc, scene, *way)?);
    }
    Ok(())
}

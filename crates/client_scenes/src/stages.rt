//! Scenes: what one client is asked and what comes to it, and what it answers and sends.
//!
//! Calls are `begin 10`, `read 0 a`, `write 0 a x1`, `delete 0 a`, `prepare 0`, `settle 0`, `recover D`, `invoke 0`,
//! each on a slot or of a transaction; `a*65` spells 65 letters a. `value 0 a`, `formed 0`, `held 0` and `outcome 0`
//! ask what a slot tells, `signed` which transactions the client signed. `reads 0 32` reads the keys r0 to r31, `writes
//! 0 32` writes w0 to w31. `drop` before what is asked has it planned and given up. All else are frames. The answer to
//! a call or to frames is what is sent, and `same` where nothing is sent and no slot tells anything new.

ghost use Rattle.std.specs.Prelude.{◌≡◌};
ghost use Rattle.lms_sign.specs.declared.sets.LmsSet.TheVariants as LmsSet;

use crate::casts::cast_of;
use crate::guest::Guest;
use crate::telling::Reader;
use basil_types::cluster::Cluster;
use basil_types::outbox::Outbox;
use basil_types::party::Party;
use keyring::plain::seed_of;
use keyring_lms::{LmsKeys, LmsPen};
use lms_sign::{LmsSet, LmsTree, ident_of_seed};
use node_steps::pending::outbox;
use std::alloc::Global;
use std::mem::replace;
use std::process::Abort;
use std::test::Fail;

/// A scene: the cluster's f, shards and reads, the first leaf of the client's key that is left, the transactions, and
/// what is asked and comes, each with what is answered. The replicas sign with plain keys.
#[derive(Clone, Copy)]
pub(crate) struct Scene {
    pub(crate) f: u8,
    pub(crate) shards: u8,
    pub(crate) reads: u8,
    pub(crate) leaf: u32,
    pub(crate) cast: &'static [&'static str],
    pub(crate) steps: &'static [(&'static str, &'static str)],
}

/// How a client is asked.
#[derive(Clone, Copy)]
pub(crate) enum Way {
    /// By the call.
    Whole,
    /// Planned and committed.
    Halves,
    /// Planned and given up, and then by the call.
    Again,
    /// Planned and given up.
    Dropped,
}

/// The roads beside the call that send the same.
const OTHER_WAYS: &[Way] = &[Way::Halves, Way::Again];

/// The number of a client, the tree of its key, which has 32 leaves, and a keyring that accepts what these sign.
#[derive(Drop)]
struct Owner {
    number: u8,
    tree: LmsTree,
    key: LmsKeys,
    ghost set: { tree.set ≡ LmsSet.W4H5 },
}

fn owner_of(alloc: Global, number: u8) -> Result<Owner, Fail> {
    let party = Party::Client { number };
    let seed = seed_of(party);
    let ident = ident_of_seed(&seed);
    let tree = LmsTree::make(alloc, &seed, &ident, LmsSet::W4H5)?;
    let key = LmsKeys::from_publics(alloc, &[(party, tree.public())])?;
    Ok(Owner { number, tree, key })
}

/// The client of a scene; fails where no client has this number, or its key no such leaf.
fn guest_of(alloc: Global, cluster: Cluster, owner: &Owner, leaf: u32) -> Result<Box<Guest>, Fail> {
    let number = owner.number;
    if number == 0 || number > 16 || leaf > 32 {
        return Err(Fail::new("no such client"));
    }
    let key = owner.tree.key(alloc, leaf)?;
    let pen = LmsPen::new(Party::Client { number }, key);
    Ok(Box::new(alloc, Guest::new(alloc, cluster, number, pen))?)
}

/// A client with what its frames are read by, all that it sent, and the bytes of all its frames.
#[derive(Drop)]
pub(crate) struct Stage<'a> {
    pub(crate) alloc: Global,
    pub(crate) reader: Reader<'a>,
    pub(crate) guest: Box<Guest>,
    pub(crate) out: Outbox,
    pub(crate) sent: Vec<u8>,
}

impl Stage<'_> {
    /// Plays the steps of a scene, and gives the bytes of all frames that were sent.
    fn play(&mut self, rt: &impl Abort, steps: &[(&str, &str)], way: Way) -> Result<Vec<u8>, Fail> {
        for (phrase, wanted) in steps {
            let found = self.answer(way, phrase)?;
            assert!(rt; found.as_str() == *wanted, "{phrase}: {found}");
        }
        Ok(replace(&mut self.sent, Vec::new(self.alloc)))
    }
}

/// Plays a scene whose frames are read by these. The stage is owned here alone, and let go in one place.
fn play_before(
    rt: &impl Abort,
    alloc: Global,
    scene: &Scene,
    owner: &Owner,
    way: Way,
    reader: Reader<'_>,
) -> Result<Vec<u8>, Fail> {
    let guest = guest_of(alloc, *reader.cluster, owner, scene.leaf)?;
    let mut stage = Stage {
        alloc,
        reader,
        guest,
        out: outbox(alloc),
        sent: Vec::new(alloc),
    };
    stage.play(rt, scene.steps, way)
}

/// Plays a scene, and gives the bytes of all frames that the client sent.
fn play(
    rt: &impl Abort,
    alloc: Global,
    scene: &Scene,
    owner: &Owner,
    way: Way,
) -> Result<Vec<u8>, Fail> {
    let cluster = Cluster::new(scene.f, scene.shards, scene.reads, 100)?;
    let cast = cast_of(alloc, scene.cast)?;
    let reader = Reader {
        cluster: &cluster,
        cast: &cast,
        key: &owner.key,
    };
    play_before(rt, alloc, scene, owner, way, reader)
}

fn play_all(rt: &impl Abort, alloc: Global, owner: &Owner, scenes: &[Scene]) -> Result<(), Fail> {
    for scene in scenes {
        drop(play(rt, alloc, scene, owner, Way::Whole)?);
    }
    Ok(())
}

/// Plays scenes of the client with this number, who is asked by the calls.
pub(crate) fn plays(
    rt: &impl Abort,
    alloc: Global,
    number: u8,
    scenes: &[Scene],
) -> Result<(), Fail> {
    let owner = owner_of(alloc, number)?;
    play_all(rt, alloc, &owner, scenes)
}

/// Whether the last frame of a scene has these bytes.
fn has_last(
    rt: &impl Abort,
    alloc: Global,
    owner: &Owner,
    scene: &Scene,
    wanted: &str,
) -> Result<bool, Fail> {
    let bytes = hex::decode(alloc, wanted)?;
    let sent = play(rt, alloc, scene, owner, Way::Whole)?;
    Ok(sent.as_slice().ends_with(&bytes))
}

fn end_all(
    rt: &impl Abort,
    alloc: Global,
    owner: &Owner,
    rows: &[(Scene, &str)],
) -> Result<(), Fail> {
    for (scene, wanted) in rows {
        assert!(rt; has_last(rt, alloc, owner, scene, wanted)?, "{wanted}");
    }
    Ok(())
}

/// Plays scenes of the client with this number, who goes through each as its row says, and whether the last frame has
/// these bytes.
pub(crate) fn ends_in(
    rt: &impl Abort,
    alloc: Global,
    number: u8,
    rows: &[(Scene, &str)],
) -> Result<(), Fail> {
    let owner = owner_of(alloc, number)?;
    end_all(rt, alloc, &owner, rows)
}

/// Plays a scene on the other roads; fails where the bytes of the frames aren't these.
fn play_as(
    rt: &impl Abort,
    alloc: Global,
    owner: &Owner,
    scene: &Scene,
    wanted: &[u8],
) -> Result<(), Fail> {
    for way in OTHER_WAYS {
        let sent = play(rt, alloc, scene, owner, *way)?;
        assert!(rt; sent.as_slice() == wanted);
    }
    Ok(())
}

fn play_each_way(rt: &impl Abort, alloc: Global, owner: &Owner, scene: &Scene) -> Result<(), Fail> {
    let whole = play(rt, alloc, scene, owner, Way::Whole)?;
    play_as(rt, alloc, owner, scene, &whole)
}

/// Plays a scene on each road; fails where the bytes of the frames aren't the same.
pub(crate) fn plays_alike(
    rt: &impl Abort,
    alloc: Global,
    number: u8,
    scene: &Scene,
) -> Result<(), Fail> {
    let owner = owner_of(alloc, number)?;
    play_each_way(rt, alloc, &owner, scene)
}

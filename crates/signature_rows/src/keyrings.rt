//! Keyrings and pens over LMS.

ghost use Rattle.std.specs.Prelude.{◌≡◌, length, IfOk};
ghost use Rattle.lms_sign.specs.Sets.{size_of};

use crate::vectors::VOTE;
use basil_types::cluster::Cluster;
use basil_types::party::{Decision, Party};
use basil_types::words::Words;
use hex::FromHex;
use keyring::plain::{PlainKeys, PlainPen, seed_of};
use keyring::signer::Signer;
use keyring::verifier::Verifier;
use keyring_lms::{LmsKeys, LmsPen, ReplayKeys};
use lms_sign::{LmsKey, LmsSet, ident_of_seed};
use sha2::{Digest, Sha256};
use std::alloc::Global;
use std::test::Fail;

const REPLICA: Party = Party::Replica { shard: 0, index: 0 };

const NO_REPLICA: Party = Party::Replica { shard: 1, index: 0 };

const FIRST_CLIENT: Party = Party::Client { number: 1 };

const LAST_CLIENT: Party = Party::Client { number: 16 };

const NO_CLIENT: Party = Party::Client { number: 17 };

/// The public key of the last client in a replay, as a Python program made it from RFC 8554 with hashlib's SHA-256.
const LAST_CLIENT_W4H5: &str =
    "0000000500000003d420b4765ea44fb63a902917b56113aee521a3a9a26e986d8aceb9cbdd91b0b67ce5997fa369c310fd1e0c508d072004";

/// SHA-256 of its signature with leaf 0 on the byte 7, by the same program.
const LAST_CLIENT_SIGNED: &str = "57b5aff8b8ba16e0a5368e4f7a31e6f452f62cce4f70402c887f29e91cd1e3d8";

/// The signature of the last client in a replay on the byte 7, by its pen.
fn signed(alloc: Global) -> Result<[u8; 2348], Fail> {
    let mut pen = LmsPen::replay(alloc, LAST_CLIENT, LmsSet::W4H5)?;
    let mut out = [0u8; 2348];
    pen.sign_into(&[7], &mut out).map_err(|_| "exhausted")?;
    Ok(out)
}

/// Whether a keyring accepts that signature of the last client alone, on the byte 7 alone.
fn accepts_it(keys: &LmsKeys, out: &[u8; 2348]) -> bool {
    [REPLICA, NO_REPLICA, FIRST_CLIENT, NO_CLIENT]
        .iter()
        .all(|party| !keys.accepts(*party, &[7], out))
        && keys.accepts(LAST_CLIENT, &[7], out)
        && !keys.accepts(LAST_CLIENT, &[8], out)
}

#[test]
fn rings_of_a_replay_accept_its_pens(rt: HostRuntime) -> Result<(), Fail> {
    let cluster = Cluster::new(0, 1, 1, 100)?;
    let listed = [LAST_CLIENT, NO_CLIENT, NO_REPLICA, LAST_CLIENT];
    let out = signed(rt.alloc())?;
    let wanted = <[u8; 32] as FromHex>::from_hex(LAST_CLIENT_SIGNED)?;
    assert!(rt; Sha256::digest(&out) == wanted);
    let whole = LmsKeys::replay(rt.alloc(), &cluster, LmsSet::W4H5)?;
    let named = LmsKeys::replay_of(rt.alloc(), &cluster, LmsSet::W4H5, &listed)?;
    for keys in [whole.copy(rt.alloc())?, whole, named] {
        assert!(rt; accepts_it(&keys, &out));
    }
    Ok(())
}

/// A whole replay's pen signs as the pen that makes its own key, and its ring accepts that.
#[test]
fn the_keys_of_a_whole_replay(rt: HostRuntime) -> Result<(), Fail> {
    let cluster = Cluster::new(0, 1, 1, 100)?;
    let keys = ReplayKeys::make(rt.alloc(), &cluster, LmsSet::W4H5)?;
    let mut pen = keys.pen(rt.alloc(), LAST_CLIENT)?;
    let mut out = [0u8; 2348];
    assert!(rt; pen.party() == LAST_CLIENT);
    assert!(rt; pen.sign_into(&[7], &mut out).is_ok());
    assert!(rt; pen.left() == 31);
    assert!(rt; out == signed(rt.alloc())?);
    assert!(rt; accepts_it(&keys.ring(rt.alloc())?, &out));
    Ok(())
}

/// A ring makes the keys of the parties that it is asked for alone.
#[test]
fn a_ring_of_one_replica(rt: HostRuntime) -> Result<(), Fail> {
    let cluster = Cluster::new(0, 1, 1, 100)?;
    let keys = LmsKeys::replay_of(rt.alloc(), &cluster, LmsSet::W4H5, &[REPLICA])?;
    assert!(rt; !keys.accepts(LAST_CLIENT, &[7], &signed(rt.alloc())?));
    Ok(())
}

/// A replica's vote that another program signed.
#[test]
fn a_vote_of_another_program(rt: HostRuntime) -> Result<(), Fail> {
    let cluster = Cluster::new(0, 1, 1, 100)?;
    let id = <[u8; 32] as FromHex>::from_hex(
        "2c05d55955a67c7b2d552c41c183b8433d6f2aea3709642bef3b7298bbcf7158",
    )?;
    let vote = hex::decode(rt.alloc(), VOTE)?;
    let keys = LmsKeys::replay_of(rt.alloc(), &cluster, LmsSet::W8H5, &[REPLICA])?;
    for (decision, accepted) in [(Decision::Commit, true), (Decision::Abort, false)] {
        let words = Words::vote(0, 0, &id, decision);
        assert!(rt; keys.accepts(REPLICA, words.bytes(), &vote) == accepted);
    }
    Ok(())
}

/// Signs with a pen, and asks a keyring of its party.
fn signs_and_accepts<V: Verifier, S: Signer>(keys: &V, pen: &mut S, out: &mut [u8]) -> bool
    requires { length out.old ≡ (S.fixed pen.old).size }
{
    let party = pen.party();
    pen.sign_into(&[7], out).is_ok() && keys.accepts(party, &[7], out)
}

/// The key of a party in a replay.
fn key_of(alloc: Global, party: Party) -> Result<LmsKey, Fail>
    ensures { IfOk result (λ key. size_of key.tree.set ≡ 2348) }
{
    let seed = seed_of(party);
    let key = LmsKey::make(alloc, &seed, &ident_of_seed(&seed), LmsSet::W4H5, 0)?;
    Ok(key)
}

#[test]
fn keyrings_and_signers_by_their_traits(rt: HostRuntime) -> Result<(), Fail> {
    let cluster = Cluster::new(0, 1, 1, 100)?;
    let mut short = [0u8; 32];
    assert!(rt;
        signs_and_accepts(
            &PlainKeys::new(&cluster),
            &mut PlainPen::new(REPLICA),
            &mut short
        )
    );
    let key = key_of(rt.alloc(), LAST_CLIENT)?;
    let public = key.public();
    let wanted = <[u8; 56] as FromHex>::from_hex(LAST_CLIENT_W4H5)?;
    assert!(rt; public.as_slice() == wanted.as_slice());
    let keys = LmsKeys::from_publics(rt.alloc(), &[(LAST_CLIENT, public)])?;
    let mut out = [0u8; 2348];
    assert!(rt; signs_and_accepts(&keys, &mut LmsPen::new(LAST_CLIENT, key), &mut out));
    Ok(())
}

#[test]
fn the_first_entry_of_a_party_counts(rt: HostRuntime) -> Result<(), Fail> {
    let own = <[u8; 56] as FromHex>::from_hex(LAST_CLIENT_W4H5)?;
    let other = key_of(rt.alloc(), FIRST_CLIENT)?.public();
    let out = signed(rt.alloc())?;
    for (first, second, accepted) in [(own, other, true), (other, own, false)] {
        let keys = LmsKeys::from_publics(rt.alloc(), &[(REPLICA, first), (REPLICA, second)])?;
        assert!(rt; keys.accepts(REPLICA, &[7], &out) == accepted);
        assert!(rt; !keys.accepts(LAST_CLIENT, &[7], &out));
    }
    Ok(())
}

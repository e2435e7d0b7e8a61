//! Signatures.
ghost use Rattle.std.specs.Prelude.{◌≡◌, ◌<◌, ◌≤◌, ◌+◌, ◌*◌, ◌++◌, length, take, vec_len};
ghost use Rattle.lms_ots.specs.Chains.{joined};
ghost use Rattle.lms_sign.specs.Sets.{height_of, leaves_of, size_of, one_time_length};
ghost use Rattle.lms_sign.specs.Tree.{tree_of};
ghost use Rattle.lms_sign.specs.Filled.{AreNodesFrom};
ghost use Rattle.lms_sign.specs.Signing.{path_of, signature_of, one_time_part};

use crate::nodes::sibling_of;
use crate::randomizer::randomizer;
use crate::sets::LmsSet;
use lms_ots::{ots_sign, put};

/// Writes the one-time signature of a message by leaf `q` behind the first four bytes.
fn put_one_time(
    set: LmsSet,
    ident: &[u8; 16],
    seed: &[u8; 32],
    q: u32,
    message: &[u8],
    out: &mut [u8],
)
    requires { 4 + one_time_length set ≤ length out.old }
    ensures { take (4 + one_time_length set) out.new
        ≡ take 4 out.old ++ one_time_part (tree_of set ident.now seed.now) q message.now }
{
    let end = 4 + set.one_time_size();
    ots_sign(
        set.one_time(),
        ident,
        q,
        seed,
        &randomizer(seed, q),
        message,
        &mut out[4..end],
    );
}

/// Writes the siblings of the nodes from the leaf with number `r` up to the root.
fn put_path(
    set: LmsSet,
    ident: &[u8; 16],
    seed: &[u8; 32],
    nodes: &[[u8; 32]],
    r: u32,
    out: &mut [u8],
    at: usize,
)
    requires leaf { leaves_of set ≤ r }
    requires inside { r < 2 * leaves_of set }
    requires count { length nodes.now ≡ 2 * leaves_of set }
    requires filled { AreNodesFrom (tree_of set ident.now seed.now) 1 nodes.now }
    requires room { at + 32 * height_of set ≤ length out.old }
    ensures { take (at + 32 * height_of set) out.new
        ≡ take at out.old ++ joined (path_of (tree_of set ident.now seed.now) r) (height_of set) }
{
    let mut number = r;
    for level in 0..set.height() {
        put(out, at + 32 * level, &nodes[sibling_of(number) as usize]);
        number /= 2;
    }
}

/// Writes the signature of a message by leaf `q`.
pub(crate) fn write_signature(
    set: LmsSet,
    ident: &[u8; 16],
    seed: &[u8; 32],
    nodes: &[[u8; 32]],
    q: u32,
    message: &[u8],
    out: &mut [u8],
)
    requires leaf { q < leaves_of set }
    requires count { length nodes.now ≡ 2 * leaves_of set }
    requires filled { AreNodesFrom (tree_of set ident.now seed.now) 1 nodes.now }
    requires size { length out.old ≡ size_of set }
    ensures { out.new ≡ signature_of (tree_of set ident.now seed.now) q message.now }
{
    let end = 4 + set.one_time_size();
    put(out, 0, &q.to_be_bytes());
    put_one_time(set, ident, seed, q, message, out);
    put(out, end, &set.type_number().to_be_bytes());
    put_path(set, ident, seed, nodes, set.leaves() + q, out, end + 4);
}

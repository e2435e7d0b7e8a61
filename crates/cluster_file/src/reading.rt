//! A file from its bytes.

ghost use Rattle.std.specs.Prelude.{◌≡◌, IfOk, IfErr, Ok};
ghost use Rattle.cluster_file.specs.Text.{cluster_in, Tells};

use crate::draft::read_draft;
use crate::fault::{FileFault, NOT_A_FILE};
use crate::file::ClusterFile;
use crate::judging::judge;
use json::{Scratch, Value};
use std::alloc::Global;

/// Reads a cluster file: one JSON object (RFC 8259, in UTF-8) with exactly the members `f`, `shards`, `reads` and
/// `delta`, whole numbers; `set`, a name of a parameter set; `replicas`, a list of objects with exactly `shard`,
/// `index`, `address` and `public`; and `clients`, a list of objects with exactly `number` and `public`.
///
/// A refused file is answered with the first reason that holds: `NOT_A_FILE`, `REFUSED_CLUSTER`, `WRONG_PARTIES`,
/// `BAD_KEY`. Memory may be wanting for any bytes.
pub fn read_cluster(alloc: Global, bytes: &[u8]) -> Result<ClusterFile, FileFault>
    ensures found { IfOk result (λ file. cluster_in bytes.now ≡ Ok file) }
    ensures refused { IfErr result (λ e. Tells e (cluster_in bytes.now)) }
{
    let Ok(text) = str::from_utf8(bytes) else {
        return Err(FileFault::BadFile { reason: NOT_A_FILE });
    };
    let mut scratch = Scratch::new(alloc);
    let object = match Value::parse(alloc, text, &mut scratch) {
        Ok(object) => object,
        Err(json::Error::OutOfMemory) => return Err(FileFault::NoMemory),
        Err(_) => return Err(FileFault::BadFile { reason: NOT_A_FILE }),
    };
    match read_draft(alloc, &object)? {
        Some(draft) => judge(alloc, &draft),
        None => Err(FileFault::BadFile { reason: NOT_A_FILE }),
    }
}

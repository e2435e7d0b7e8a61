//! What a file says, before it is judged.

ghost use Rattle.std.specs.Prelude.{◌≡◌, IfOk, map, option_map};
ghost use Rattle.json.specs.Value.{value_view};
ghost use Rattle.cluster_file.specs.Grammar as grammar;

use crate::members::{WholeNumber, list, member_count, text, whole};
use basil_types::memory::NoMemory;
use json::Value;
use lms_sign::LmsSet;
use std::alloc::Global;
use std::marker::Model;

/// A replica's object.
#[derive(Drop)]
pub(crate) struct ReplicaText<'a> {
    pub(crate) shard: WholeNumber<'a>,
    pub(crate) index: WholeNumber<'a>,
    pub(crate) address: &'a str,
    pub(crate) public: &'a str,
}

impl<'a> Model for ReplicaText<'a> {
    ghost use Rattle.cluster_file.specs.Values.{ReplicaValue};
    ghost use Rattle.cluster_file.specs.Grammar.{replica_made};

    ghost Value = { ReplicaValue };

    ghost view = { λ r. replica_made r.shard r.index r.address.now r.public.now };
}

/// A client's object.
#[derive(Drop)]
pub(crate) struct ClientText<'a> {
    pub(crate) number: WholeNumber<'a>,
    pub(crate) public: &'a str,
}

impl<'a> Model for ClientText<'a> {
    ghost use Rattle.cluster_file.specs.Values.{ClientValue};
    ghost use Rattle.cluster_file.specs.Grammar.{client_made};

    ghost Value = { ClientValue };

    ghost view = { λ c. client_made c.number c.public.now };
}

/// The members that are no list.
#[derive(Drop)]
pub(crate) struct Head<'a> {
    pub(crate) f: WholeNumber<'a>,
    pub(crate) shards: WholeNumber<'a>,
    pub(crate) reads: WholeNumber<'a>,
    pub(crate) delta: WholeNumber<'a>,
    pub(crate) set: LmsSet,
}

impl<'a> Model for Head<'a> {
    ghost use Rattle.cluster_file.specs.Values.{HeadValue};
    ghost use Rattle.cluster_file.specs.Grammar.{head_made};

    ghost Value = { HeadValue };

    ghost view = { λ h. head_made h.f h.shards h.reads h.delta h.set };
}

/// A whole file.
#[derive(Drop)]
pub(crate) struct Draft<'a> {
    pub(crate) head: Head<'a>,
    pub(crate) replicas: Vec<ReplicaText<'a>>,
    pub(crate) clients: Vec<ClientText<'a>>,
}

impl<'a> Model for Draft<'a> {
    ghost use Rattle.cluster_file.specs.Values.{FileValue};
    ghost use Rattle.cluster_file.specs.Grammar.{file_made};

    ghost Value = { FileValue };

    ghost view = { λ d. file_made d.head d.replicas.items d.clients.items };
}

/// The parameter set of this name.
fn set_named(name: &str) -> Option<LmsSet>
    ensures { result ≡ grammar.set_named name.now }
{
    match name {
        "w4h5" => Some(LmsSet::W4H5),
        "w4h10" => Some(LmsSet::W4H10),
        "w8h5" => Some(LmsSet::W8H5),
        "w8h10" => Some(LmsSet::W8H10),
        _ => None,
    }
}

/// A replica's object with exactly its members.
fn read_replica<'a>(object: &Value<'a>) -> Option<ReplicaText<'a>>
    ensures { result ≡ grammar.replica_in (value_view object.now) }
{
    if member_count(object) != 4 {
        return None;
    }
    let shard = whole(object, "shard")?;
    let index = whole(object, "index")?;
    let address = text(object, "address")?;
    let public = text(object, "public")?;
    Some(ReplicaText {
        shard,
        index,
        address,
        public,
    })
}

/// A client's object with exactly its members.
fn read_client<'a>(object: &Value<'a>) -> Option<ClientText<'a>>
    ensures { result ≡ grammar.client_in (value_view object.now) }
{
    if member_count(object) != 2 {
        return None;
    }
    let number = whole(object, "number")?;
    let public = text(object, "public")?;
    Some(ClientText { number, public })
}

/// The members of a file that are no list.
fn read_head<'a>(object: &Value<'a>) -> Option<Head<'a>>
    ensures { result ≡ grammar.head_of (value_view object.now) }
{
    let f = whole(object, "f")?;
    let shards = whole(object, "shards")?;
    let reads = whole(object, "reads")?;
    let delta = whole(object, "delta")?;
    let set = set_named(text(object, "set")?)?;
    Some(Head {
        f,
        shards,
        reads,
        delta,
        set,
    })
}

/// The replicas of a list, if each is one's object.
fn read_replicas<'a>(
    alloc: Global,
    items: &[Value<'a>],
) -> Result<Option<Vec<ReplicaText<'a>>>, NoMemory>
    ensures { IfOk result (λ replicas. option_map (λ v. v.items) replicas
        ≡ grammar.each grammar.replica_in (map value_view items.now)) }
{
    let mut replicas = Vec::new(alloc);
    for item in items {
        match read_replica(item) {
            Some(replica) => replicas.push(replica)?,
            None => return Ok(None),
        }
    }
    Ok(Some(replicas))
}

/// The clients of a list, if each is one's object.
fn read_clients<'a>(
    alloc: Global,
    items: &[Value<'a>],
) -> Result<Option<Vec<ClientText<'a>>>, NoMemory>
    ensures { IfOk result (λ clients. option_map (λ v. v.items) clients
        ≡ grammar.each grammar.client_in (map value_view items.now)) }
{
    let mut clients = Vec::new(alloc);
    for item in items {
        match read_client(item) {
            Some(client) => clients.push(client)?,
            None => return Ok(None),
        }
    }
    Ok(Some(clients))
}

/// A file's object with exactly its members; none where it isn't one, or want of memory.
pub(crate) fn read_draft<'a>(
    alloc: Global,
    object: &Value<'a>,
) -> Result<Option<Draft<'a>>, NoMemory>
    ensures { IfOk result (λ draft. draft ≡ grammar.file_in (value_view object.now)) }
{
    if member_count(object) != 7 {
        return Ok(None);
    }
    let Some(head) = read_head(object) else {
        return Ok(None);
    };
    let Some(items) = list(object, "replicas") else {
        return Ok(None);
    };
    let Some(replicas) = read_replicas(alloc, items)? else {
        return Ok(None);
    };
    let Some(items) = list(object, "clients") else {
        return Ok(None);
    };
    let Some(clients) = read_clients(alloc, items)? else {
        return Ok(None);
    };
    Ok(Some(Draft {
        head,
        replicas,
        clients,
    }))
}

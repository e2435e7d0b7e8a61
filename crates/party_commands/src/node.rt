//! `node`: a replica of a cluster's file that serves connections.

ghost use Rattle.std.specs.Prelude.{◌≡◌, ◌⊎◌, ◌<◌, ◌≤◌, true, Ok, Err, IfOk, IfErr, IfSome, map, string_bytes};
ghost use Rattle.std.specs.Result.{IsErrOf};
ghost use Rattle.basil_types.specs.Causes.{Rose};
ghost use Rattle.node_link.specs.Connections.{Node};
ghost use Rattle.party_seat.specs.Limits.{most_connections};
ghost use Rattle.party_seat.specs.Serving.{Begins, HasStopped, serves_at};
ghost use Rattle.party_seat.specs.Stations.{Station, station_in};
ghost use Rattle.line_fields.specs.Fields.{number_in};
ghost use Rattle.cluster_file.specs.Text.{cluster_in};
ghost use Rattle.command_input.specs.Ranges.{most_leaves};
ghost use Rattle.command_ends.specs.Answers.{Answers, counted, is_outcomes};
ghost use Rattle.command_input.specs.Commands.{said};
ghost use Rattle.party_commands.specs.Nodes as nodes;
ghost use Rattle.party_commands.specs.Nodes.{EndsAt, EndsServed, HasWritten, IsNodeTold, IsServed, TellsServed};
ghost use Rattle.party_commands.specs.Nodes.{WroteAt, WroteServed, call_of, node_of, seat_of, seated_at, seated_in};
ghost use Rattle.party_commands.specs.Nodes.{station_of, stop_in, stop_told};
ghost use Rattle.command_ends.specs.Outcome.{is_too_long};
ghost use Rattle.command_ends.specs.Endings.{outcome_is};
ghost use Rattle.command_input.specs.Reading.{IsReadThrough, StopsSoon};

use basil_types::bytes::Bytes;
use basil_types::clock::Clock;
use basil_types::links::Links;
use basil_types::memory::NoMemory;
use basil_types::sink::Sink;
use basil_types::source::Source;
use cluster_file::{ClusterFile, FileFault, read_cluster};
use command_ends::ending::Ending;
use command_ends::status::Status;
use command_ends::writing::write_ending;
use command_input::command::read_seed;
use command_input::files::file_reason;
use command_input::input::{InputFail, Whole, read_whole};
use line_fields::fields::numbers::read_number_in;
use line_fields::reason::Reason;
use party_seat::{NodeFault, NodeSeat, serve_seat};
use std::alloc::Global;

/// The leaves of the highest tree of a set: as many as a key can have used.
const MOST_LEAVES: u64 = 1024;

/// The most connections that a node serves.
const MOST_CONNECTIONS: u64 = 1_000_000;

/// What a node is asked for: its seat, and how many connections it serves, 1 to 1,000,000.
#[derive(Clone, Copy)]
pub struct NodeCall {
    pub seat: NodeSeat,
    pub connections: u64,
}

/// S or R: at most 255.
fn read_byte(argument: &str) -> Option<u8>
    ensures { result ≡ said (number_in 0 255 argument.now) }
{
    match read_number_in(argument.as_bytes(), 0, 255) {
        Ok(number) => Some(number as u8),
        Err(_) => None,
    }
}

/// LEAF: at most 1,024.
pub(crate) fn read_first_leaf(argument: &str) -> Option<u32>
    ensures { result ≡ said (number_in 0 most_leaves argument.now) }
{
    match read_number_in(argument.as_bytes(), 0, MOST_LEAVES) {
        Ok(leaf) => Some(leaf as u32),
        Err(_) => None,
    }
}

/// CONNECTIONS: 1 to 1,000,000.
fn read_connections(argument: &str) -> Option<u64>
    ensures value { result ≡ said (number_in 1 most_connections argument.now) }
    ensures few { IfSome result (λ connections. connections ≤ most_connections) }
{
    match read_number_in(argument.as_bytes(), 1, MOST_CONNECTIONS) {
        Ok(connections) => Some(connections),
        Err(_) => None,
    }
}

/// `S R SEED LEAF`
fn read_seat(
    alloc: Global,
    shard: &str,
    index: &str,
    seed: &str,
    leaf: &str,
) -> Result<Option<NodeSeat>, NoMemory>
    ensures { IfOk result (λ seat. seat ≡ seat_of shard.now index.now seed.now leaf.now) }
{
    let Some(shard) = read_byte(shard) else {
        return Ok(None);
    };
    let Some(index) = read_byte(index) else {
        return Ok(None);
    };
    let Some(seed) = read_seed(alloc, seed)? else {
        return Ok(None);
    };
    match read_first_leaf(leaf) {
        Some(leaf) => Ok(Some(NodeSeat {
            shard,
            index,
            seed,
            leaf,
        })),
        None => Ok(None),
    }
}

/// `S R SEED LEAF CONNECTIONS`
fn read_call(alloc: Global, arguments: &[String]) -> Result<Option<NodeCall>, NoMemory>
    ensures value { IfOk result (λ call. call ≡ call_of (map string_bytes arguments.now)) }
    ensures few { IfOk result (λ call. IfSome call (λ c. c.connections ≤ most_connections)) }
{
    let [shard, index, seed, leaf, connections] = arguments else {
        return Ok(None);
    };
    let Some(connections) = read_connections(connections.as_str()) else {
        return Ok(None);
    };
    let seat = read_seat(
        alloc,
        shard.as_str(),
        index.as_str(),
        seed.as_str(),
        leaf.as_str(),
    )?;
    match seat {
        Some(seat) => Ok(Some(NodeCall { seat, connections })),
        None => Ok(None),
    }
}

/// The call of a node that the arguments spell; none where they spell none.
pub(crate) fn read_node(alloc: Global, arguments: &[String]) -> Result<Option<NodeCall>, NoMemory>
    ensures value { IfOk result (λ call. call ≡ node_of (map string_bytes arguments.now)) }
    ensures few { IfOk result (λ call. IfSome call (λ c. c.connections ≤ most_connections)) }
{
    let [name, arguments @ ..] = arguments else {
        return Ok(None);
    };
    match name.as_str() {
        "node" => read_call(alloc, arguments),
        _ => Ok(None),
    }
}

/// `served F`
fn served_text(alloc: Global, frames: u64) -> Result<Bytes, NoMemory>
    ensures { IfOk result (λ text. text ≡ nodes.served_text frames) }
{
    let text = format!(in alloc; "served {frames}\n")?;
    Ok(Bytes::copy_of(alloc, text.as_bytes())?)
}

/// What a node leads to that served, or ended early.
fn told_of(alloc: Global, served: Result<u64, NodeFault>) -> Result<Ending, InputFail>
    ensures told { TellsServed served result }
    ensures link { IsErrOf result InputFail.Link → served ≡ Err NodeFault.LinkFault }
    ensures unread { IsErrOf result InputFail.Failed → ⊥ }
{
    match served {
        Ok(frames) => Ok(Ending::Written(served_text(alloc, frames)?)),
        Err(NodeFault::WrongKey) => Ok(Ending::BadLine {
            line: 1,
            reason: Reason::WrongParty,
        }),
        Err(NodeFault::WrongLeaf) => Ok(Ending::BadLine {
            line: 1,
            reason: Reason::OutOfRange,
        }),
        Err(NodeFault::LinkFault) => Err(InputFail::Link),
        Err(NodeFault::NoMemory) => Err(InputFail::NoMemory),
    }
}

/// What a node of this file leads to.
fn serve_in<L: Links, C: Clock>(
    alloc: Global,
    call: &NodeCall,
    file: &ClusterFile,
    links: &mut L,
    clock: &mut C,
) -> Result<Ending, InputFail>
    requires { call.now.connections ≤ most_connections }
    ensures refused { IfErr (seated_at (station_in file.now call.now.seat)) (λ refusal.
        IfOk result (λ e. outcome_is e ≡ refusal)) }
    ensures idle { IfErr (seated_at (station_in file.now call.now.seat)) (λ _. links.new ≡ links.old) }
    ensures still { IfErr (seated_at (station_in file.now call.now.seat)) (λ _. clock.new ≡ clock.old) }
    ensures seated { IfOk (seated_at (station_in file.now call.now.seat)) (λ _.
        IfOk result (λ e. IsServed (outcome_is e))) }
    ensures served { (s : Station) (n : Node) → seated_at (station_in file.now call.now.seat) ≡ Ok s →
        Begins s (C.moments clock.old) (L.told links.old) n → IfOk result (λ e.
        EndsServed s call.now.connections n (C.moments clock.new) (L.told links.new)
        (L.faults links.old) (L.faults links.new) (outcome_is e)) }
    ensures whole { (s : Station) (n : Node) → seated_at (station_in file.now call.now.seat) ≡ Ok s →
        Begins s (C.moments clock.old) (L.told links.old) n → (Rose (L.faults links.old) (L.faults links.new) → ⊥) →
        IfOk result (λ e. EndsAt (serves_at s call.now.connections n) (C.moments clock.new) (L.told links.new)
        (outcome_is e)) }
    ensures stands { (s : Station) (n : Node) → seated_at (station_in file.now call.now.seat) ≡ Ok s →
        Begins s (C.moments clock.old) (L.told links.old) n →
        HasStopped s call.now.connections n (C.moments clock.new) (L.told links.new)
        (L.faults links.old) (L.faults links.new) (stop_in result) }
    ensures link { IsErrOf result InputFail.Link → Rose (L.faults links.old) (L.faults links.new) }
    ensures unread { IsErrOf result InputFail.Failed → ⊥ }
    ensures faults { L.faults links.old ≤ L.faults links.new }
{
    let served = serve_seat(alloc, file, &call.seat, links, clock, call.connections);
    told_of(alloc, served)
}

/// What a node whose file has these bytes leads to.
fn serve_file<L: Links, C: Clock>(
    alloc: Global,
    call: &NodeCall,
    bytes: &[u8],
    links: &mut L,
    clock: &mut C,
) -> Result<Ending, InputFail>
    requires { call.now.connections ≤ most_connections }
    ensures refused { IfErr (seated_in (cluster_in bytes.now) call.now.seat) (λ refusal.
        IfOk result (λ e. outcome_is e ≡ refusal)) }
    ensures idle { IfErr (seated_in (cluster_in bytes.now) call.now.seat) (λ _. links.new ≡ links.old) }
    ensures still { IfErr (seated_in (cluster_in bytes.now) call.now.seat) (λ _. clock.new ≡ clock.old) }
    ensures seated { IfOk (seated_in (cluster_in bytes.now) call.now.seat) (λ _.
        IfOk result (λ e. IsServed (outcome_is e))) }
    ensures served { (s : Station) (n : Node) → seated_in (cluster_in bytes.now) call.now.seat ≡ Ok s →
        Begins s (C.moments clock.old) (L.told links.old) n → IfOk result (λ e.
        EndsServed s call.now.connections n (C.moments clock.new) (L.told links.new)
        (L.faults links.old) (L.faults links.new) (outcome_is e)) }
    ensures whole { (s : Station) (n : Node) → seated_in (cluster_in bytes.now) call.now.seat ≡ Ok s →
        Begins s (C.moments clock.old) (L.told links.old) n → (Rose (L.faults links.old) (L.faults links.new) → ⊥) →
        IfOk result (λ e. EndsAt (serves_at s call.now.connections n) (C.moments clock.new) (L.told links.new)
        (outcome_is e)) }
    ensures stands { (s : Station) (n : Node) → seated_in (cluster_in bytes.now) call.now.seat ≡ Ok s →
        Begins s (C.moments clock.old) (L.told links.old) n →
        HasStopped s call.now.connections n (C.moments clock.new) (L.told links.new)
        (L.faults links.old) (L.faults links.new) (stop_in result) }
    ensures link { IsErrOf result InputFail.Link → Rose (L.faults links.old) (L.faults links.new) }
    ensures unread { IsErrOf result InputFail.Failed → ⊥ }
    ensures faults { L.faults links.old ≤ L.faults links.new }
{
    match read_cluster(alloc, bytes) {
        Ok(file) => serve_in(alloc, call, &file, links, clock),
        Err(FileFault::BadFile { reason }) => Ok(Ending::BadLine {
            line: 1,
            reason: file_reason(reason),
        }),
        Err(FileFault::NoMemory) => Err(InputFail::NoMemory),
    }
}

/// What a node whose file is the source leads to.
fn serve_source<S: Source, L: Links, C: Clock>(
    alloc: Global,
    call: &NodeCall,
    source: &mut S,
    links: &mut L,
    clock: &mut C,
) -> Result<Ending, InputFail>
    requires { call.now.connections ≤ most_connections }
    ensures refused { IfSome (S.left source.old) (λ bytes. IfErr (station_of call.now.seat bytes) (λ refusal.
        IfOk result (λ e. outcome_is e ≡ refusal))) }
    ensures idle { IfSome (S.left source.old) (λ bytes.
        IfErr (station_of call.now.seat bytes) (λ _. links.new ≡ links.old)) }
    ensures still { IfSome (S.left source.old) (λ bytes.
        IfErr (station_of call.now.seat bytes) (λ _. clock.new ≡ clock.old)) }
    ensures seated { IfSome (S.left source.old) (λ bytes. IfOk (station_of call.now.seat bytes) (λ _.
        IfOk result (λ e. IsServed (outcome_is e)))) }
    ensures served { (s : Station) (n : Node) → IfSome (S.left source.old) (λ bytes.
        station_of call.now.seat bytes ≡ Ok s → Begins s (C.moments clock.old) (L.told links.old) n →
        IfOk result (λ e. EndsServed s call.now.connections n (C.moments clock.new) (L.told links.new)
        (L.faults links.old) (L.faults links.new) (outcome_is e))) }
    ensures whole { (s : Station) (n : Node) → (Rose (L.faults links.old) (L.faults links.new) → ⊥) →
        IfSome (S.left source.old) (λ bytes.
        station_of call.now.seat bytes ≡ Ok s → Begins s (C.moments clock.old) (L.told links.old) n →
        IfOk result (λ e. EndsAt (serves_at s call.now.connections n) (C.moments clock.new) (L.told links.new)
        (outcome_is e))) }
    ensures stands { (s : Station) (n : Node) → IfSome (S.left source.old) (λ bytes.
        station_of call.now.seat bytes ≡ Ok s → Begins s (C.moments clock.old) (L.told links.old) n →
        HasStopped s call.now.connections n (C.moments clock.new) (L.told links.new)
        (L.faults links.old) (L.faults links.new) (stop_in result)) }
    ensures through { IfOk result (λ _. IfSome (S.left source.old) (λ bytes.
        IsReadThrough is_too_long bytes (S.left source.new))) }
    ensures soon { IfSome (S.left source.old) (λ bytes. StopsSoon is_too_long bytes (S.left source.new)) }
    ensures failed { IsErrOf result InputFail.Failed → Rose (S.faults source.old) (S.faults source.new) }
    ensures told { S.faults source.old < S.faults source.new → IsErrOf result InputFail.Failed }
    ensures link { IsErrOf result InputFail.Link → Rose (L.faults links.old) (L.faults links.new) }
    ensures faults { L.faults links.old ≤ L.faults links.new }
{
    match read_whole(alloc, source)? {
        Whole::Bytes(bytes) => serve_file(alloc, call, bytes.as_slice(), links, clock),
        Whole::TooLong => Ok(Ending::TooLong),
    }
}

/// Serves a node whose file is the source, and writes how many frames it was handed, or why it doesn't serve.
pub fn run_node<S: Source, K: Sink, L: Links, C: Clock>(
    alloc: Global,
    call: &NodeCall,
    source: &mut S,
    sink: &mut K,
    links: &mut L,
    clock: &mut C,
) -> Status
    requires { call.now.connections ≤ most_connections }
    ensures refused { let counts =
        counted (S.faults source.old) (S.faults source.new) (L.faults links.old) (L.faults links.new) in
        IfSome (S.left source.old) (λ bytes. IfErr (station_of call.now.seat bytes) (λ refusal.
        Answers result refusal counts (K.taken sink.old) (K.taken sink.new))) }
    ensures idle { IfSome (S.left source.old) (λ bytes.
        IfErr (station_of call.now.seat bytes) (λ _. links.new ≡ links.old)) }
    ensures still { IfSome (S.left source.old) (λ bytes.
        IfErr (station_of call.now.seat bytes) (λ _. clock.new ≡ clock.old)) }
    ensures seated { result ≡ Status.Done → IfSome (S.left source.old) (λ bytes.
        IfOk (station_of call.now.seat bytes) (λ _. HasWritten (K.taken sink.old) (K.taken sink.new))) }
    ensures served { (s : Station) (n : Node) → result ≡ Status.Done → IfSome (S.left source.old) (λ bytes.
        station_of call.now.seat bytes ≡ Ok s → Begins s (C.moments clock.old) (L.told links.old) n →
        WroteServed s call.now.connections n (C.moments clock.new) (L.told links.new)
        (L.faults links.old) (L.faults links.new) (K.taken sink.old) (K.taken sink.new)) }
    ensures whole { (s : Station) (n : Node) → (Rose (L.faults links.old) (L.faults links.new) → ⊥) →
        result ≡ Status.Done → IfSome (S.left source.old) (λ bytes.
        station_of call.now.seat bytes ≡ Ok s → Begins s (C.moments clock.old) (L.told links.old) n →
        WroteAt (serves_at s call.now.connections n) (C.moments clock.new) (L.told links.new)
        (K.taken sink.old) (K.taken sink.new)) }
    ensures stands { (s : Station) (n : Node) → IfSome (S.left source.old) (λ bytes.
        station_of call.now.seat bytes ≡ Ok s → Begins s (C.moments clock.old) (L.told links.old) n →
        HasStopped s call.now.connections n (C.moments clock.new) (L.told links.new)
        (L.faults links.old) (L.faults links.new) (stop_told result)) }
    ensures complete { (Rose (S.faults source.old) (S.faults source.new) → ⊥) →
        (Rose (K.faults sink.old) (K.faults sink.new) → ⊥) → (Rose (L.faults links.old) (L.faults links.new) → ⊥) →
        IfSome (S.left source.old) (λ bytes. IsNodeTold result (station_of call.now.seat bytes)) }
    ensures through { is_outcomes result ≡ true → IfSome (S.left source.old) (λ bytes.
        IsReadThrough is_too_long bytes (S.left source.new)) }
    ensures soon { IfSome (S.left source.old) (λ bytes. StopsSoon is_too_long bytes (S.left source.new)) }
    ensures arguments { result ≡ Status.BadWords → ⊥ }
    ensures read { result ≡ Status.ReadFault → Rose (S.faults source.old) (S.faults source.new) }
    ensures write { result ≡ Status.WriteFault → Rose (K.faults sink.old) (K.faults sink.new) }
    ensures link { result ≡ Status.LinkFault → Rose (L.faults links.old) (L.faults links.new) }
    ensures read_told { S.faults source.old < S.faults source.new →
        (result ≡ Status.ReadFault) ⊎ (result ≡ Status.WriteFault) }
    ensures write_told { K.faults sink.old < K.faults sink.new → result ≡ Status.WriteFault }
{
    match serve_source(alloc, call, source, links, clock) {
        Ok(ending) => write_ending(alloc, &ending, sink),
        Err(InputFail::Failed) => match sink.write(b"read fault\n") {
            Ok(()) => Status::ReadFault,
            Err(_) => Status::WriteFault,
        },
        Err(InputFail::Link) => match sink.write(b"link fault\n") {
            Ok(()) => Status::LinkFault,
            Err(_) => Status::WriteFault,
        },
        Err(InputFail::NoMemory) => Status::NoMemory,
    }
}

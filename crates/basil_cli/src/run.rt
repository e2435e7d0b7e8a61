//! The top call: all that the program does.

ghost use Rattle.std.specs.Prelude.{◌≡◌, ◌⊎◌, ◌<◌, ◌≤◌, ℕ, List, length, Bool, true, false};
ghost use Rattle.std.specs.Prelude.{Some, None, Ok, [], IfSome, IfOk, IfErr, map, string_bytes};
ghost use Rattle.std.specs.Result.{IsErrOf};
ghost use Rattle.basil_types.specs.Causes.{Rose};
ghost use Rattle.basil_types.specs.Links.{LinkState};
ghost use Rattle.node_link.specs.Connections.{Node};
ghost use Rattle.party_seat.specs.Serving.{Begins, HasStopped, serves_at};
ghost use Rattle.party_seat.specs.Stations.{Station};
ghost use Rattle.schedule_replay.specs.Outcomes as schedules;
ghost use Rattle.schedule_replay.specs.Roads.{Direct, Uses};
ghost use Rattle.command_ends.specs.Answers.{Answers, IsTold, TookFault, counted, is_outcomes};
ghost use Rattle.command_ends.specs.Endings.{outcome_is};
ghost use Rattle.command_ends.specs.Outcome.{is_too_long, longest_input};
ghost use Rattle.signature_commands.specs.Batches.{ToldReally};
ghost use Rattle.command_input.specs.Commands.{command_of, is_carried, runs, arguments_carried};
ghost use Rattle.command_input.specs.Commands.{arguments_read, reads, HasLeaf};
ghost use Rattle.schedule_commands.specs.Roads.{ByRoads};
ghost use Rattle.basil_cli.specs.Linked.{ByArguments};
ghost use Rattle.command_input.specs.Reading.{OfBytes, IsReadThrough, StopsSoon};
ghost use Rattle.party_commands.specs.Clients.{CallsNone, ClientStation, IsClientTold, ToldRun};
ghost use Rattle.party_commands.specs.Clients.{client_of, client_station};
ghost use Rattle.party_commands.specs.Nodes.{HasWritten, IsNodeTold, WroteAt, WroteServed, node_of, station_of};
ghost use Rattle.party_commands.specs.Nodes.{stop_told};
ghost use Rattle.schedule_commands.specs.Schedules.{load_text};
ghost use Rattle.basil_cli.specs.Output.{outcome_of, output_of};
ghost use Rattle.command_input.specs.Inputs.{is_link_fail};
ghost use Rattle.basil_cli.specs.ScheduleEnds.{IsBrokenEnd, LoadedInPart, LoadedSafely, WroteSafely, WroteSome};
ghost use Rattle.party_commands.specs.declared.client.ClientCall.{ClientCall};
ghost use Rattle.command_input.specs.declared.command.Claim.{Claim};
ghost use Rattle.command_input.specs.declared.command.LoadSize.{LoadSize};
ghost use Rattle.party_commands.specs.declared.node.NodeCall.{NodeCall};
ghost use Rattle.basil_cli.specs.Reading.{IsReadFor, StopsSoonFor, is_enough};

use basil_types::clock::Clock;
use basil_types::links::Links;
use basil_types::memory::NoMemory;
use basil_types::sink::Sink;
use basil_types::source::Source;
use batch_text::finding::findings_are_real;
use check_commands::audit::audit;
use check_commands::check::check;
use check_commands::confirm::confirm;
use command_ends::ending::Ending;
use command_ends::status::Status;
use command_ends::writing::{write_ending, write_usage};
use command_input::command::{Command, read_command};
use command_input::input::{InputFail, Whole, read_whole};
use party_commands::client::run_client;
use party_commands::node::run_node;
use party_commands::parties::{PartyCall, read_party};
use schedule_commands::replay::{generate, load, replay};
use schedule_replay::laws::{breaks_are_real, reports_are_safe};
use signature_commands::batches::{batch, unbatch};
use signature_commands::signatures::{hss_keys, hss_sign, hss_verify, keys, sign, verify};
use std::alloc::Global;

/// What a command leads to that runs no schedule, where its input isn't too long.
fn ending_of(alloc: Global, command: &Command, bytes: &[u8]) -> Result<Ending, NoMemory>
    requires leaf { HasLeaf command.now }
    requires other { runs command.now ≡ false }
    requires short { length bytes.now ≤ longest_input }
    ensures { IfOk result (λ e. (coming : List (List ℕ)) → outcome_is e ≡ output_of command.now coming bytes.now) }
{
    match command {
        Command::Replay { .. } => unreachable!(),
        Command::Generate { size } => generate(alloc, *size),
        Command::Load { size } => load(alloc, *size),
        Command::Keys { material } => keys(alloc, material),
        Command::Sign { signing } => sign(alloc, signing, bytes),
        Command::Verify { claim } => verify(alloc, claim, bytes),
        Command::HssKeys { material } => hss_keys(alloc, material),
        Command::HssSign { material, number } => hss_sign(alloc, material, *number, bytes),
        Command::HssVerify { claim } => hss_verify(alloc, claim, bytes),
        Command::Batch { signing } => batch(alloc, signing, bytes),
        Command::Unbatch { claim } => unbatch(alloc, claim, bytes),
        Command::Check => check(alloc, bytes),
        Command::Confirm => confirm(alloc, bytes),
        Command::Audit => audit(alloc, bytes),
    }
}

/// What a command leads to that runs no schedule.
fn ending_alone<S: Source>(
    alloc: Global,
    command: &Command,
    source: &mut S,
) -> Result<Ending, InputFail>
    requires leaf { HasLeaf command.now }
    requires other { runs command.now ≡ false }
    ensures outcome { IfOk result (λ e. OfBytes (S.left source.old) (λ bytes.
        (coming : List (List ℕ)) → outcome_is e ≡ output_of command.now coming bytes)) }
    ensures alone { reads command.now ≡ false → IfOk result (λ e.
        (coming : List (List ℕ)) → outcome_is e ≡ output_of command.now coming []) }
    ensures unread { reads command.now ≡ false → source.new ≡ source.old }
    ensures through { reads command.now ≡ true → IfOk result (λ _. IfSome (S.left source.old) (λ bytes.
        (coming : List (List ℕ)) → IsReadThrough (is_enough command.now coming) bytes (S.left source.new))) }
    ensures soon { IfSome (S.left source.old) (λ bytes.
        (coming : List (List ℕ)) → StopsSoon (is_enough command.now coming) bytes (S.left source.new)) }
    ensures failed { IsErrOf result InputFail.Failed → Rose (S.faults source.old) (S.faults source.new) }
    ensures told { S.faults source.old < S.faults source.new → IsErrOf result InputFail.Failed }
    ensures unlinked { is_link_fail result ≡ false }
{
    if !command.has_input() {
        return Ok(ending_of(alloc, command, &[])?);
    }
    match read_whole(alloc, source)? {
        Whole::Bytes(bytes) => Ok(ending_of(alloc, command, bytes.as_slice())?),
        Whole::TooLong => Ok(Ending::TooLong),
    }
}

/// What the command leads to.
fn ending_for<S: Source, L: Links>(
    alloc: Global,
    command: &Command,
    source: &mut S,
    links: &mut L,
) -> Result<Ending, InputFail>
    requires { HasLeaf command.now }
    ensures outcome { OfBytes (S.left source.old) (λ bytes.
        ByArguments (Some command.now) (L.told links.old) (L.told links.new) (λ coming.
        IfOk result (λ e. outcome_is e ≡ output_of command.now coming bytes))) }
    ensures alone { reads command.now ≡ false → IfOk result (λ e.
        (coming : List (List ℕ)) → outcome_is e ≡ output_of command.now coming []) }
    ensures unread { reads command.now ≡ false → source.new ≡ source.old }
    ensures through { reads command.now ≡ true → IfSome (S.left source.old) (λ bytes.
        ByArguments (Some command.now) (L.told links.old) (L.told links.new) (λ coming.
        IfOk result (λ _. IsReadThrough (is_enough command.now coming) bytes (S.left source.new)))) }
    ensures soon { IfSome (S.left source.old) (λ bytes.
        ByArguments (Some command.now) (L.told links.old) (L.told links.new) (λ coming.
        StopsSoon (is_enough command.now coming) bytes (S.left source.new))) }
    ensures failed { IsErrOf result InputFail.Failed → Rose (S.faults source.old) (S.faults source.new) }
    ensures told { S.faults source.old < S.faults source.new → IsErrOf result InputFail.Failed }
    ensures links { Uses (is_carried command.now) links.old links.new (L.faults links.old) (L.faults links.new)
        (is_link_fail result) }
{
    match command {
        Command::Replay { carried } => replay(alloc, source, links, *carried),
        _ => ending_alone(alloc, command, source),
    }
}

/// Does what the command asks, and writes what comes of it.
fn run_command<S: Source, K: Sink, L: Links>(
    alloc: Global,
    command: &Command,
    source: &mut S,
    sink: &mut K,
    links: &mut L,
) -> Status
    requires { HasLeaf command.now }
    ensures answers { let counts =
        counted (S.faults source.old) (S.faults source.new) (L.faults links.old) (L.faults links.new) in
        OfBytes (S.left source.old) (λ bytes.
        ByArguments (Some command.now) (L.told links.old) (L.told links.new) (λ coming.
        Answers result (output_of command.now coming bytes) counts (K.taken sink.old) (K.taken sink.new))) }
    ensures alone { let counts =
        counted (S.faults source.old) (S.faults source.new) (L.faults links.old) (L.faults links.new) in
        reads command.now ≡ false →
        Answers result (output_of command.now [] []) counts (K.taken sink.old) (K.taken sink.new) }
    ensures unread { reads command.now ≡ false → source.new ≡ source.old }
    ensures through { reads command.now ≡ true → is_outcomes result ≡ true → IfSome (S.left source.old) (λ bytes.
        ByArguments (Some command.now) (L.told links.old) (L.told links.new) (λ coming.
        IsReadThrough (is_enough command.now coming) bytes (S.left source.new))) }
    ensures soon { IfSome (S.left source.old) (λ bytes.
        ByArguments (Some command.now) (L.told links.old) (L.told links.new) (λ coming.
        StopsSoon (is_enough command.now coming) bytes (S.left source.new))) }
    ensures complete { (Rose (S.faults source.old) (S.faults source.new) → ⊥) →
        (Rose (K.faults sink.old) (K.faults sink.new) → ⊥) → (Rose (L.faults links.old) (L.faults links.new) → ⊥) →
        OfBytes (S.left source.old) (λ bytes.
        ByArguments (Some command.now) (L.told links.old) (L.told links.new) (λ coming.
        IsTold result (output_of command.now coming bytes))) }
    ensures arguments { result ≡ Status.BadWords → ⊥ }
    ensures read { result ≡ Status.ReadFault → Rose (S.faults source.old) (S.faults source.new) }
    ensures write { result ≡ Status.WriteFault → Rose (K.faults sink.old) (K.faults sink.new) }
    ensures link { result ≡ Status.LinkFault → Rose (L.faults links.old) (L.faults links.new) }
    ensures read_told { S.faults source.old < S.faults source.new →
        (result ≡ Status.ReadFault) ⊎ (result ≡ Status.WriteFault) }
    ensures link_told { L.faults links.old < L.faults links.new →
        (result ≡ Status.LinkFault) ⊎ (result ≡ Status.WriteFault) }
    ensures write_told { K.faults sink.old < K.faults sink.new → result ≡ Status.WriteFault }
    ensures unlinked { is_carried command.now ≡ false → links.new ≡ links.old }
{
    match ending_for(alloc, command, source, links) {
        Ok(ending) => write_ending(alloc, &ending, sink),
        Err(InputFail::Failed) => match sink.write(b"read fault\n") {
            Ok(()) => Status::ReadFault,
            Err(_) => Status::WriteFault,
        },
        Err(InputFail::Link) => match sink.write(b"link fault\n") {
            Ok(()) => Status::LinkFault,
            Err(_) => Status::WriteFault,
        },
        Err(InputFail::NoMemory) => Status::NoMemory,
    }
}

/// The same for arguments that call neither a node nor a client.
fn run_alone<S: Source, K: Sink, L: Links>(
    alloc: Global,
    arguments: &[String],
    source: &mut S,
    sink: &mut K,
    links: &mut L,
) -> Status
    ensures answers { let command = command_of (map string_bytes arguments.now) in let counts =
        counted (S.faults source.old) (S.faults source.new) (L.faults links.old) (L.faults links.new) in
        OfBytes (S.left source.old) (λ bytes. ByArguments command (L.told links.old) (L.told links.new) (λ coming.
        Answers result (outcome_of (map string_bytes arguments.now) coming bytes) counts
        (K.taken sink.old) (K.taken sink.new))) }
    ensures safe { (carried : Bool) → command_of (map string_bytes arguments.now) ≡ Some (Command.Replay carried) →
        result ≡ Status.Done → OfBytes (S.left source.old) (λ bytes.
        ByRoads carried (L.told links.old) (L.told links.new) (λ road.
        WroteSafely road bytes (K.taken sink.old) (K.taken sink.new))) }
    ensures safe_in_part { let counts =
        counted (S.faults source.old) (S.faults source.new) (L.faults links.old) (L.faults links.new) in
        (carried : Bool) → command_of (map string_bytes arguments.now) ≡ Some (Command.Replay carried) →
        result ≡ Status.WriteFault → OfBytes (S.left source.old) (λ bytes.
        ByRoads carried (L.told links.old) (L.told links.new) (λ road.
        WroteSome (schedules.outcome_on road bytes) road bytes (K.taken sink.old) (K.taken sink.new)
        ⊎ TookFault counts (K.taken sink.old) (K.taken sink.new))) }
    ensures broken { (carried : Bool) → command_of (map string_bytes arguments.now) ≡ Some (Command.Replay carried) →
        result ≡ Status.Broken → OfBytes (S.left source.old) (λ bytes.
        ByRoads carried (L.told links.old) (L.told links.new) (λ road.
        IsBrokenEnd road bytes (K.taken sink.old) (K.taken sink.new))) }
    ensures load_safe { (size : LoadSize) → command_of (map string_bytes arguments.now) ≡ Some (Command.Load size) →
        result ≡ Status.Done → LoadedSafely size (K.taken sink.old) (K.taken sink.new) }
    ensures load_safe_in_part { let counts =
        counted (S.faults source.old) (S.faults source.new) (L.faults links.old) (L.faults links.new) in
        (size : LoadSize) → command_of (map string_bytes arguments.now) ≡ Some (Command.Load size) →
        result ≡ Status.WriteFault → LoadedInPart (schedules.replay_of (load_text size)) size (K.taken sink.old)
        (K.taken sink.new) ⊎ TookFault counts (K.taken sink.old) (K.taken sink.new) }
    ensures load_broken { (size : LoadSize) → command_of (map string_bytes arguments.now) ≡ Some (Command.Load size) →
        result ≡ Status.Broken → IsBrokenEnd Direct (load_text size) (K.taken sink.old) (K.taken sink.new) }
    ensures unbatched { (claim : Claim) → command_of (map string_bytes arguments.now) ≡ Some (Command.Unbatch claim) →
        (result ≡ Status.Done) ⊎ (result ≡ Status.Broken) → OfBytes (S.left source.old) (λ bytes.
        ToldReally claim bytes (K.taken sink.old) (K.taken sink.new)) }
    ensures complete { let command = command_of (map string_bytes arguments.now) in
        (Rose (S.faults source.old) (S.faults source.new) → ⊥) →
        (Rose (K.faults sink.old) (K.faults sink.new) → ⊥) → (Rose (L.faults links.old) (L.faults links.new) → ⊥) →
        OfBytes (S.left source.old) (λ bytes. ByArguments command (L.told links.old) (L.told links.new) (λ coming.
        IsTold result (outcome_of (map string_bytes arguments.now) coming bytes))) }
    ensures alone { let counts =
        counted (S.faults source.old) (S.faults source.new) (L.faults links.old) (L.faults links.new) in
        arguments_read (command_of (map string_bytes arguments.now)) ≡ false →
        Answers result (outcome_of (map string_bytes arguments.now) [] []) counts
        (K.taken sink.old) (K.taken sink.new) }
    ensures unread { arguments_read (command_of (map string_bytes arguments.now)) ≡ false → source.new ≡ source.old }
    ensures through { let command = command_of (map string_bytes arguments.now) in
        arguments_read command ≡ true → is_outcomes result ≡ true → IfSome (S.left source.old) (λ bytes.
        ByArguments command (L.told links.old) (L.told links.new) (λ coming.
        IsReadFor command coming bytes (S.left source.new))) }
    ensures soon { let command = command_of (map string_bytes arguments.now) in
        IfSome (S.left source.old) (λ bytes. ByArguments command (L.told links.old) (L.told links.new) (λ coming.
        StopsSoonFor command coming bytes (S.left source.new))) }
    ensures arguments { result ≡ Status.BadWords → command_of (map string_bytes arguments.now) ≡ None }
    ensures other_arguments { command_of (map string_bytes arguments.now) ≡ None →
        (result ≡ Status.BadWords) ⊎ ((result ≡ Status.WriteFault) ⊎ (result ≡ Status.NoMemory)) }
    ensures read { result ≡ Status.ReadFault → Rose (S.faults source.old) (S.faults source.new) }
    ensures write { result ≡ Status.WriteFault → Rose (K.faults sink.old) (K.faults sink.new) }
    ensures link { result ≡ Status.LinkFault → Rose (L.faults links.old) (L.faults links.new) }
    ensures read_told { S.faults source.old < S.faults source.new →
        (result ≡ Status.ReadFault) ⊎ (result ≡ Status.WriteFault) }
    ensures link_told { L.faults links.old < L.faults links.new →
        (result ≡ Status.LinkFault) ⊎ (result ≡ Status.WriteFault) }
    ensures write_told { K.faults sink.old < K.faults sink.new → result ≡ Status.WriteFault }
    ensures links { arguments_carried (command_of (map string_bytes arguments.now)) ≡ false → links.new ≡ links.old }
{
    reports_are_safe();
    breaks_are_real();
    findings_are_real();
    match read_command(alloc, arguments) {
        Ok(Some(command)) => run_command(alloc, &command, source, sink, links),
        Ok(None) => write_usage(sink),
        Err(NoMemory) => Status::NoMemory,
    }
}

/// All that the program does, with the arguments behind its own name. Every text goes to the sink.
///
/// - `replay` reads a schedule from the source and writes the report of the run that its lines describe.
/// - `loopback` does the same for a run in which each delivery hands the node what the links' `carry` gave.
/// - `generate N COUNT` writes the schedule of so many transactions that is drawn from that number.
/// - `load N COUNT` runs that schedule and writes how many of its transactions committed, aborted and are open, and the
///   number of messages.
/// - `keys SET SEED IDENT` writes the LMS public key (RFC 8554) of that parameter set, SEED and identifier, in hex.
/// - `sign SET SEED IDENT Q` reads a message and writes its signature with leaf Q of that key, in hex.
/// - `verify PUBLIC SIGNATURE` reads a message and writes `accepted` where the signature is valid, else `refused R`.
/// - `hsskeys TOP BOTTOM SEED IDENT`, `hsssign TOP BOTTOM SEED IDENT P` and `hssverify PUBLIC SIGNATURE` do the same with
///   HSS keys of two levels, which sign with number P.
/// - `batch SET SEED IDENT Q` reads messages in hex, a line each, and writes a signature of each, all by one signature
///   with leaf Q of that key, in hex, a line each.
/// - `unbatch PUBLIC SIGNATURE` reads a message in hex and, behind it, nothing or a batch, as `batch` does. Where the
///   signature is valid it writes `accepted` or, with a batch, `in I`, the message's place in it, else `refused R`.
/// - `check` reads a header and a writeback's frame in hex and writes `commit` or `abort` where the certificate proves
///   it, else `refused R`.
/// - `confirm` reads a writeback's frame in hex and a cluster's file and does the same by the public keys of its parties.
/// - `audit` reads transactions with their reads and writes and writes `serial` where each read is of the version that
///   the serial order gives it, else the first that isn't, as `stray NAME KEY FOUND EXPECTED`.
/// - `node S R SEED LEAF CONNECTIONS` reads a cluster's file, serves so many connections as replica R of shard S, whose
///   key it makes of its SEED and uses from that leaf on, and writes `served F`, the number of frames that the replica
///   was handed.
/// - `client C SEED LEAF OP...` reads a cluster's file and, as client C, whose key it makes of its SEED and uses from
///   that leaf on, carries through a transaction of the reads `r:KEY` and the writes `w:KEY:VALUE`. It writes `commit`
///   or `abort`, and what it read.
/// - `form C SEED LEAF OP...` reads, forms and signs such a transaction, asks nothing more, and writes it with its
///   signature, both in hex.
/// - `recover C SEED LEAF TRANSACTION SIGNATURE` carries through, as client C, a transaction that it or another client
///   formed, and writes `commit` or `abort`.
/// - `certify C SEED LEAF TRANSACTION SIGNATURE` does the same, and writes the writeback's frame in hex, for `confirm`.
pub fn run<S: Source, K: Sink, L: Links, C: Clock>(
    alloc: Global,
    arguments: &[String],
    source: &mut S,
    sink: &mut K,
    links: &mut L,
    clock: &mut C,
) -> Status
    // The status and what was written are those of the arguments, the bytes, and what the links gave, for every command
    // but those of a node or a client; of a source that doesn't tell its bytes, there are some of which that holds.
    // After a fault of the sink it is some of that text, or, where another count rose, some of the text of its fault.
    ensures answers { let command = command_of (map string_bytes arguments.now) in let counts =
        counted (S.faults source.old) (S.faults source.new) (L.faults links.old) (L.faults links.new) in
        CallsNone (map string_bytes arguments.now) →
        OfBytes (S.left source.old) (λ bytes. ByArguments command (L.told links.old) (L.told links.new) (λ coming.
        Answers result (outcome_of (map string_bytes arguments.now) coming bytes) counts
        (K.taken sink.old) (K.taken sink.new))) }
    // Where a report was written, it is that of a run with at most f faulty replicas of each shard, in which each node
    // was handed each message as it is or, by `loopback`, what the links gave for it. No transaction has both a commit
    // and an abort certificate there, and each committed transaction of a correct client read, key by key, what the
    // latest committed writer before it wrote.
    ensures safe { (carried : Bool) → command_of (map string_bytes arguments.now) ≡ Some (Command.Replay carried) →
        result ≡ Status.Done → OfBytes (S.left source.old) (λ bytes.
        ByRoads carried (L.told links.old) (L.told links.new) (λ road.
        WroteSafely road bytes (K.taken sink.old) (K.taken sink.new))) }
    // So it is where any byte of a report was written before the sink failed.
    ensures safe_in_part { let counts =
        counted (S.faults source.old) (S.faults source.new) (L.faults links.old) (L.faults links.new) in
        (carried : Bool) → command_of (map string_bytes arguments.now) ≡ Some (Command.Replay carried) →
        result ≡ Status.WriteFault → OfBytes (S.left source.old) (λ bytes.
        ByRoads carried (L.told links.old) (L.told links.new) (λ road.
        WroteSome (schedules.outcome_on road bytes) road bytes (K.taken sink.old) (K.taken sink.new)
        ⊎ TookFault counts (K.taken sink.old) (K.taken sink.new))) }
    // Where a breach was told, it is the first of such a run, and real: of a correct party a signature that its key
    // accepts on words that it had not signed, or two texts that differ and have one SHA-256. Until there the run is
    // safe.
    ensures broken { (carried : Bool) → command_of (map string_bytes arguments.now) ≡ Some (Command.Replay carried) →
        result ≡ Status.Broken → OfBytes (S.left source.old) (λ bytes.
        ByRoads carried (L.told links.old) (L.told links.new) (λ road.
        IsBrokenEnd road bytes (K.taken sink.old) (K.taken sink.new))) }
    // Where the totals of a load were written, they are those of such a run by the load's schedule, where each message
    // was handed over as it is.
    ensures load_safe { (size : LoadSize) → command_of (map string_bytes arguments.now) ≡ Some (Command.Load size) →
        result ≡ Status.Done → LoadedSafely size (K.taken sink.old) (K.taken sink.new) }
    // So they are where some of them were written before the sink failed.
    ensures load_safe_in_part { let counts =
        counted (S.faults source.old) (S.faults source.new) (L.faults links.old) (L.faults links.new) in
        (size : LoadSize) → command_of (map string_bytes arguments.now) ≡ Some (Command.Load size) →
        result ≡ Status.WriteFault → LoadedInPart (schedules.replay_of (load_text size)) size (K.taken sink.old)
        (K.taken sink.new) ⊎ TookFault counts (K.taken sink.old) (K.taken sink.new) }
    // A breach that a load leads to is told and real as well.
    ensures load_broken { (size : LoadSize) → command_of (map string_bytes arguments.now) ≡ Some (Command.Load size) →
        result ≡ Status.Broken → IsBrokenEnd Direct (load_text size) (K.taken sink.old) (K.taken sink.new) }
    // Where `unbatch` tells a place, the message stands there in the batch that was kept, and where it tells two texts,
    // these differ and have one SHA-256.
    ensures unbatched { (claim : Claim) → command_of (map string_bytes arguments.now) ≡ Some (Command.Unbatch claim) →
        (result ≡ Status.Done) ⊎ (result ≡ Status.Broken) → OfBytes (S.left source.old) (λ bytes.
        ToldReally claim bytes (K.taken sink.old) (K.taken sink.new)) }
    // Where no count rose, the status is that of the arguments, the bytes, and what the links gave, or memory is
    // wanting: a valid schedule gives its whole report, and every other command its output or its refusal.
    ensures complete { let command = command_of (map string_bytes arguments.now) in
        CallsNone (map string_bytes arguments.now) →
        (Rose (S.faults source.old) (S.faults source.new) → ⊥) →
        (Rose (K.faults sink.old) (K.faults sink.new) → ⊥) → (Rose (L.faults links.old) (L.faults links.new) → ⊥) →
        OfBytes (S.left source.old) (λ bytes. ByArguments command (L.told links.old) (L.told links.new) (λ coming.
        IsTold result (outcome_of (map string_bytes arguments.now) coming bytes))) }
    // Arguments that aren't a command with an input decide alone, and nothing is read.
    ensures alone { let counts =
        counted (S.faults source.old) (S.faults source.new) (L.faults links.old) (L.faults links.new) in
        CallsNone (map string_bytes arguments.now) →
        arguments_read (command_of (map string_bytes arguments.now)) ≡ false →
        Answers result (outcome_of (map string_bytes arguments.now) [] []) counts
        (K.taken sink.old) (K.taken sink.new) }
    ensures unread { CallsNone (map string_bytes arguments.now) →
        arguments_read (command_of (map string_bytes arguments.now)) ≡ false → source.new ≡ source.old }
    // The status of an outcome is answered when the input was read to its end, or as far as it decides.
    ensures through { let command = command_of (map string_bytes arguments.now) in
        arguments_read command ≡ true → is_outcomes result ≡ true → IfSome (S.left source.old) (λ bytes.
        ByArguments command (L.told links.old) (L.told links.new) (λ coming.
        IsReadFor command coming bytes (S.left source.new))) }
    // Whatever is answered, fewer than a piece of the source's bytes were taken beyond those that decide.
    ensures soon { let command = command_of (map string_bytes arguments.now) in
        CallsNone (map string_bytes arguments.now) →
        IfSome (S.left source.old) (λ bytes. ByArguments command (L.told links.old) (L.told links.new) (λ coming.
        StopsSoonFor command coming bytes (S.left source.new))) }
    // The arguments alone decide on this answer.
    ensures arguments { result ≡ Status.BadWords → command_of (map string_bytes arguments.now) ≡ None }
    ensures no_call { result ≡ Status.BadWords → CallsNone (map string_bytes arguments.now) }
    ensures other_arguments { CallsNone (map string_bytes arguments.now) →
        command_of (map string_bytes arguments.now) ≡ None →
        (result ≡ Status.BadWords) ⊎ ((result ≡ Status.WriteFault) ⊎ (result ≡ Status.NoMemory)) }
    // A fault has its cause.
    ensures read { result ≡ Status.ReadFault → Rose (S.faults source.old) (S.faults source.new) }
    ensures write { result ≡ Status.WriteFault → Rose (K.faults sink.old) (K.faults sink.new) }
    ensures link { result ≡ Status.LinkFault → Rose (L.faults links.old) (L.faults links.new) }
    // A fault is told.
    ensures read_told { S.faults source.old < S.faults source.new →
        (result ≡ Status.ReadFault) ⊎ (result ≡ Status.WriteFault) }
    ensures link_told { CallsNone (map string_bytes arguments.now) → L.faults links.old < L.faults links.new →
        (result ≡ Status.LinkFault) ⊎ (result ≡ Status.WriteFault) }
    ensures write_told { K.faults sink.old < K.faults sink.new → result ≡ Status.WriteFault }
    // No command but `loopback` and those of a node or a client uses the links, and only the latter the clock.
    ensures links { CallsNone (map string_bytes arguments.now) →
        arguments_carried (command_of (map string_bytes arguments.now)) ≡ false → links.new ≡ links.old }
    ensures clock { CallsNone (map string_bytes arguments.now) → clock.new ≡ clock.old }
    // A node whose file or seat is refused answers that, as a node does whose file is too long to be read.
    ensures node_refused { let counts =
        counted (S.faults source.old) (S.faults source.new) (L.faults links.old) (L.faults links.new) in
        (call : NodeCall) → node_of (map string_bytes arguments.now) ≡ Some call →
        IfSome (S.left source.old) (λ bytes. IfErr (station_of call.seat bytes) (λ refusal.
        Answers result refusal counts (K.taken sink.old) (K.taken sink.new))) }
    // It neither listens nor looks at the clock.
    ensures node_idle { (call : NodeCall) → node_of (map string_bytes arguments.now) ≡ Some call →
        IfSome (S.left source.old) (λ bytes. IfErr (station_of call.seat bytes) (λ _. links.new ≡ links.old)) }
    ensures node_still { (call : NodeCall) → node_of (map string_bytes arguments.now) ≡ Some call →
        IfSome (S.left source.old) (λ bytes. IfErr (station_of call.seat bytes) (λ _. clock.new ≡ clock.old)) }
    // A node that is done has written how many frames its replica was handed.
    ensures node_written { (call : NodeCall) → node_of (map string_bytes arguments.now) ≡ Some call →
        result ≡ Status.Done → IfSome (S.left source.old) (λ bytes.
        IfOk (station_of call.seat bytes) (λ _. HasWritten (K.taken sink.old) (K.taken sink.new))) }
    // It has served so many connections, one after another: of the envelopes that each held, to the first place where
    // the rules end it, it handled all, or, where a read or write of it failed, some from the front; each at the
    // clock's next moment, by the replica's rule of answer. The links' count rose by at least as many as those that
    // ended so, or stands at its last value. It wrote each answer, but for the end of the last where a write failed,
    // and in the end how many envelopes it handled: of its key's leaves it used at most as many.
    ensures node_served { (call : NodeCall) (s : Station) (n : Node) →
        node_of (map string_bytes arguments.now) ≡ Some call → result ≡ Status.Done →
        IfSome (S.left source.old) (λ bytes.
        station_of call.seat bytes ≡ Ok s → Begins s (C.moments clock.old) (L.told links.old) n →
        WroteServed s call.connections n (C.moments clock.new) (L.told links.new)
        (L.faults links.old) (L.faults links.new) (K.taken sink.old) (K.taken sink.new)) }
    // Where the links' count didn't rise it handled all of them.
    ensures node_whole { (call : NodeCall) (s : Station) (n : Node) →
        node_of (map string_bytes arguments.now) ≡ Some call →
        (Rose (L.faults links.old) (L.faults links.new) → ⊥) → result ≡ Status.Done →
        IfSome (S.left source.old) (λ bytes.
        station_of call.seat bytes ≡ Ok s → Begins s (C.moments clock.old) (L.told links.old) n →
        WroteAt (serves_at s call.connections n) (C.moments clock.new) (L.told links.new)
        (K.taken sink.old) (K.taken sink.new)) }
    // Whatever is answered, the links and the clock are as after at most so many connections. The links' count rose by
    // at least as many as those that ended at a failed read or write, and by one more where a link fault is told: by a
    // failed listen or accept. For want of memory alone it may have stopped within a connection.
    ensures node_stands { (call : NodeCall) (s : Station) (n : Node) →
        node_of (map string_bytes arguments.now) ≡ Some call → IfSome (S.left source.old) (λ bytes.
        station_of call.seat bytes ≡ Ok s → Begins s (C.moments clock.old) (L.told links.old) n →
        HasStopped s call.connections n (C.moments clock.new) (L.told links.new)
        (L.faults links.old) (L.faults links.new) (stop_told result)) }
    // Where no count rose a node is done that gets its seat, and another tells its refusal, or memory is wanting.
    ensures node_complete { (call : NodeCall) → node_of (map string_bytes arguments.now) ≡ Some call →
        (Rose (S.faults source.old) (S.faults source.new) → ⊥) →
        (Rose (K.faults sink.old) (K.faults sink.new) → ⊥) → (Rose (L.faults links.old) (L.faults links.new) → ⊥) →
        IfSome (S.left source.old) (λ bytes. IsNodeTold result (station_of call.seat bytes)) }
    // Its file is read to the end, or until it is too long, and hardly further.
    ensures node_through { (call : NodeCall) → node_of (map string_bytes arguments.now) ≡ Some call →
        is_outcomes result ≡ true → IfSome (S.left source.old) (λ bytes.
        IsReadThrough is_too_long bytes (S.left source.new)) }
    ensures node_soon { (call : NodeCall) → node_of (map string_bytes arguments.now) ≡ Some call →
        IfSome (S.left source.old) (λ bytes. StopsSoon is_too_long bytes (S.left source.new)) }
    // A client whose file or seat is refused answers that, as a client does whose file is too long to be read.
    ensures client_refused { let counts =
        counted (S.faults source.old) (S.faults source.new) (L.faults links.old) (L.faults links.new) in
        (call : ClientCall) → client_of (map string_bytes arguments.now) ≡ Some call →
        IfSome (S.left source.old) (λ bytes. IfErr (client_station call.seat bytes) (λ refusal.
        Answers result refusal counts (K.taken sink.old) (K.taken sink.new))) }
    // It neither asks nor looks at the clock.
    ensures client_idle { (call : ClientCall) → client_of (map string_bytes arguments.now) ≡ Some call →
        IfSome (S.left source.old) (λ bytes. IfErr (client_station call.seat bytes) (λ _. links.new ≡ links.old)) }
    ensures client_still { (call : ClientCall) → client_of (map string_bytes arguments.now) ≡ Some call →
        IfSome (S.left source.old) (λ bytes. IfErr (client_station call.seat bytes) (λ _. clock.new ≡ clock.old)) }
    // A client in its seat begins a transaction at the clock's moment and makes the calls of its reads and writes, and
    // then those of the stages, or the one call that forms it; or it takes up a transaction that was formed, and makes
    // the calls of the later stages. Behind each call but the one that forms it asks all that it sends, at the file's
    // addresses, with all that comes of it. An ask is silent only where its bytes show it, or where a call of the links
    // failed: so many did as their count rose at least. What the client then holds is what it tells.
    ensures client_ran { let counts =
        counted (S.faults source.old) (S.faults source.new) (L.faults links.old) (L.faults links.new) in
        (call : ClientCall) (s : ClientStation) (moments : List ℕ) (state : LinkState) →
        client_of (map string_bytes arguments.now) ≡ Some call → is_outcomes result ≡ true →
        C.moments clock.old ≡ Some moments → L.told links.old ≡ Some state → IfSome (S.left source.old) (λ bytes.
        client_station call.seat bytes ≡ Ok s →
        ToldRun s call.task moments state (L.told links.new) counts result (K.taken sink.old) (K.taken sink.new)) }
    // Where no count of the source or the sink rose a client in its seat is done, undecided, or refused a call, and
    // another tells its refusal; or memory is wanting.
    ensures client_complete { (call : ClientCall) → client_of (map string_bytes arguments.now) ≡ Some call →
        (Rose (S.faults source.old) (S.faults source.new) → ⊥) →
        (Rose (K.faults sink.old) (K.faults sink.new) → ⊥) →
        IfSome (S.left source.old) (λ bytes. IsClientTold result (client_station call.seat bytes)) }
    // No fault of the links is told by it.
    ensures client_unlinked { (call : ClientCall) → client_of (map string_bytes arguments.now) ≡ Some call →
        result ≡ Status.LinkFault → ⊥ }
    // Its file is read to the end, or until it is too long, and hardly further.
    ensures client_through { (call : ClientCall) → client_of (map string_bytes arguments.now) ≡ Some call →
        is_outcomes result ≡ true → IfSome (S.left source.old) (λ bytes.
        IsReadThrough is_too_long bytes (S.left source.new)) }
    ensures client_soon { (call : ClientCall) → client_of (map string_bytes arguments.now) ≡ Some call →
        IfSome (S.left source.old) (λ bytes. StopsSoon is_too_long bytes (S.left source.new)) }
{
    match read_party(alloc, arguments) {
        Ok(Some(PartyCall::Node(call))) => run_node(alloc, &call, source, sink, links, clock),
        Ok(Some(PartyCall::Client(call))) => run_client(alloc, &call, source, sink, links, clock),
        Ok(None) => run_alone(alloc, arguments, source, sink, links),
        Err(NoMemory) => Status::NoMemory,
    }
}

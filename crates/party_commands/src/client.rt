//! `client`, `form`, `recover` and `certify`: a client of a cluster's file that carries one transaction through, or
//! only forms it, or carries through one that was formed.

ghost use Rattle.std.specs.Prelude.{◌≡◌, ◌⊎◌, ◌<◌, ◌≤◌, ℕ, List, length, true, Some, Ok, Err, IfOk, IfErr, IfSome};
ghost use Rattle.std.specs.Prelude.{map, string_bytes};
ghost use Rattle.std.specs.Result.{IsErrOf};
ghost use Rattle.basil_types.specs.Limits.{most_clients};
ghost use Rattle.basil_types.specs.Causes.{Rose};
ghost use Rattle.basil_types.specs.Links.{LinkState};
ghost use Rattle.cluster_file.specs.Text.{cluster_in};
ghost use Rattle.party_seat.specs.Clients.{client_in};
ghost use Rattle.line_fields.specs.Fields.{number_in};
ghost use Rattle.command_ends.specs.Answers.{Answers, counted, is_outcomes};
ghost use Rattle.party_commands.specs.Clients as clients;
ghost use Rattle.party_commands.specs.Clients.{ClientStation, IsClientTold, IsRunEnding, RanTo, SeatTold, SitsInFile};
ghost use Rattle.party_commands.specs.Clients.{RunsTask, ToldRun, client_seat_of, client_seated, client_seated_in};
ghost use Rattle.party_commands.specs.Clients.{client_call_of, client_station, formed_of, task_of, time_at, told_of};
ghost use Rattle.party_commands.specs.Clients.{end_of, outcome_of_run};
ghost use Rattle.client_link.specs.Having.{HasRun, OnEnd};
ghost use Rattle.client_link.specs.Running.{starting};
ghost use Rattle.client_core.specs.Shown.{own, ShowsClient};
ghost use Rattle.client_core.specs.Clients.{ClientValue};
ghost use Rattle.command_input.specs.Commands.{said};
ghost use Rattle.command_ends.specs.Outcome.{is_too_long};
ghost use Rattle.command_ends.specs.Endings.{outcome_is};
ghost use Rattle.command_input.specs.Reading.{IsReadThrough, StopsSoon};

use crate::node::read_first_leaf;
use basil_types::bytes::Bytes;
use basil_types::clock::Clock;
use basil_types::limits::MOST_CLIENTS;
use basil_types::links::Links;
use basil_types::memory::NoMemory;
use basil_types::sink::Sink;
use basil_types::source::Source;
use client_core::Client;
use client_link::{Aim, RunFault, Signed, client_finish, client_run};
use client_text::{Plan, certify, hand_over, read_plan, read_signed, report};
use cluster_file::{ClusterFile, FileFault, read_cluster};
use command_ends::ending::Ending;
use command_ends::status::Status;
use command_ends::writing::write_ending;
use command_input::command::read_seed;
use command_input::files::file_reason;
use command_input::input::{InputFail, Whole, read_whole};
use keyring::signer::Signer;
use keyring::verifier::Verifier;
use line_fields::fields::numbers::read_number_in;
use line_fields::reason::Reason;
use party_seat::{ClientSeat, SeatFault, client_of};
use std::alloc::Global;

/// What a client is to do.
#[derive(Drop)]
pub enum ClientTask {
    /// A transaction that reads and writes so is carried through.
    Transact { plan: Plan },
    /// Such a transaction is formed.
    Form { plan: Plan },
    /// A transaction that was formed is carried through.
    Recover { signed: Signed },
    /// The same, and its certificate is told.
    Certify { signed: Signed },
}

/// What a client is asked for: its seat, and what it is to do.
#[derive(Drop)]
pub struct ClientCall {
    pub seat: ClientSeat,
    pub task: ClientTask,
}

/// C: 1 to 16.
fn read_client_number(argument: &str) -> Option<u8>
    ensures value { result ≡ said (number_in 1 most_clients argument.now) }
    ensures range { IfSome result (λ number. (1 ≤ number) × (number ≤ most_clients)) }
{
    match read_number_in(argument.as_bytes(), 1, MOST_CLIENTS as u64) {
        Ok(number) => Some(number as u8),
        Err(_) => None,
    }
}

/// `C SEED LEAF`
fn read_client_seat(
    alloc: Global,
    number: &str,
    seed: &str,
    leaf: &str,
) -> Result<Option<ClientSeat>, NoMemory>
    ensures value { IfOk result (λ seat. seat ≡ client_seat_of number.now seed.now leaf.now) }
    ensures range { IfOk result (λ seat. IfSome seat (λ s. (1 ≤ s.number) × (s.number ≤ most_clients))) }
{
    let Some(number) = read_client_number(number) else {
        return Ok(None);
    };
    let Some(seed) = read_seed(alloc, seed)? else {
        return Ok(None);
    };
    match read_first_leaf(leaf) {
        Some(leaf) => Ok(Some(ClientSeat { number, seed, leaf })),
        None => Ok(None),
    }
}

/// `TRANSACTION SIGNATURE`
fn read_formed(alloc: Global, arguments: &[String]) -> Result<Option<Signed>, NoMemory>
    ensures { IfOk result (λ signed. signed ≡ formed_of (map string_bytes arguments.now)) }
{
    let [transaction, signature] = arguments else {
        return Ok(None);
    };
    read_signed(alloc, transaction.as_bytes(), signature.as_bytes())
}

/// What a client is to do, by its command and the arguments behind its seat.
fn read_task(
    alloc: Global,
    name: &str,
    arguments: &[String],
) -> Result<Option<ClientTask>, NoMemory>
    ensures { IfOk result (λ task. task ≡ task_of name.now (map string_bytes arguments.now)) }
{
    match name {
        "client" => match read_plan(alloc, arguments)? {
            Some(plan) => Ok(Some(ClientTask::Transact { plan })),
            None => Ok(None),
        },
        "form" => match read_plan(alloc, arguments)? {
            Some(plan) => Ok(Some(ClientTask::Form { plan })),
            None => Ok(None),
        },
        "recover" => match read_formed(alloc, arguments)? {
            Some(signed) => Ok(Some(ClientTask::Recover { signed })),
            None => Ok(None),
        },
        "certify" => match read_formed(alloc, arguments)? {
            Some(signed) => Ok(Some(ClientTask::Certify { signed })),
            None => Ok(None),
        },
        _ => Ok(None),
    }
}

/// `C SEED LEAF`, and what is to be done.
fn read_client_call(
    alloc: Global,
    name: &str,
    arguments: &[String],
) -> Result<Option<ClientCall>, NoMemory>
    ensures value { IfOk result (λ call. call ≡ client_call_of name.now (map string_bytes arguments.now)) }
    ensures range { IfOk result (λ call. IfSome call (λ c. (1 ≤ c.seat.number) × (c.seat.number ≤ most_clients))) }
{
    let [number, seed, leaf, arguments @ ..] = arguments else {
        return Ok(None);
    };
    let Some(task) = read_task(alloc, name, arguments)? else {
        return Ok(None);
    };
    match read_client_seat(alloc, number.as_str(), seed.as_str(), leaf.as_str())? {
        Some(seat) => Ok(Some(ClientCall { seat, task })),
        None => Ok(None),
    }
}

/// The call of a client that the arguments spell; none where they spell none.
pub(crate) fn read_client(
    alloc: Global,
    arguments: &[String],
) -> Result<Option<ClientCall>, NoMemory>
    ensures value { IfOk result (λ call. call ≡ clients.client_of (map string_bytes arguments.now)) }
    ensures range { IfOk result (λ call. IfSome call (λ c. (1 ≤ c.seat.number) × (c.seat.number ≤ most_clients))) }
{
    match arguments {
        [name, arguments @ ..] => read_client_call(alloc, name.as_str(), arguments),
        _ => Ok(None),
    }
}

/// Does what a client is to do, and answers the slot of its transaction. What it begins has the clock's moment, 1 at
/// least, as its time.
fn run_task<V: Verifier, S: Signer, L: Links, C: Clock>(
    alloc: Global,
    client: &mut Client<V, S>,
    number: u8,
    file: &ClusterFile,
    task: &ClientTask,
    links: &mut L,
    clock: &mut C,
) -> Result<u32, RunFault>
    requires number { number ≡ client.old.seat.number }
    requires cluster { client.old.seat.cluster ≡ file.now.cluster }
    ensures ran { (v : ClientValue) (moments : List ℕ) (state : LinkState) → ShowsClient client.old v →
        C.moments clock.old ≡ Some moments → L.told links.old ≡ Some state →
        OnEnd result (HasRun client.new (L.told links.new)
        (RunsTask (own client.old) file.now (time_at moments) task.now)
        (starting v state) (L.faults links.old) (L.faults links.new)) }
    ensures first { (v : ClientValue) → ShowsClient client.old v → length v.slots ≡ 0 →
        IfOk result (λ slot. slot ≡ 0) }
    ensures held { IfOk result (λ slot. slot < length client.new.held.slots.items) }
    ensures own { own client.new ≡ own client.old }
    ensures faults { L.faults links.old ≤ L.faults links.new }
{
    let time = clock.now().max(1);
    match task {
        ClientTask::Transact { plan } => client_run(
            alloc,
            client,
            number,
            file,
            time,
            Aim::Decision,
            plan.ops(),
            links,
        ),
        ClientTask::Form { plan } => client_run(
            alloc,
            client,
            number,
            file,
            time,
            Aim::Form,
            plan.ops(),
            links,
        ),
        ClientTask::Recover { signed } => client_finish(alloc, client, number, file, signed, links),
        ClientTask::Certify { signed } => client_finish(alloc, client, number, file, signed, links),
    }
}

/// What a client tells of the transaction in a slot, where it has done what it was to do.
fn tell<V: Verifier, S: Signer>(
    alloc: Global,
    client: &Client<V, S>,
    slot: u32,
    task: &ClientTask,
) -> Result<Bytes, NoMemory>
    requires { slot < length client.now.held.slots.items }
    ensures { (v : ClientValue) → ShowsClient client.now v → slot ≡ 0 →
        IfOk result (λ text. text ≡ told_of (own client.now) task.now v) }
{
    match task {
        ClientTask::Transact { plan } => report(alloc, client, slot, plan.ops()),
        ClientTask::Form { .. } => hand_over(alloc, client, slot),
        ClientTask::Recover { .. } => report(alloc, client, slot, &[]),
        ClientTask::Certify { .. } => certify(alloc, client, slot),
    }
}

/// What a run leads to.
fn ending_of<V: Verifier, S: Signer>(
    alloc: Global,
    client: &Client<V, S>,
    ran: Result<u32, RunFault>,
    task: &ClientTask,
) -> Result<Ending, InputFail>
    requires { IfOk ran (λ slot. slot < length client.now.held.slots.items) }
    ensures outcome { (v : ClientValue) → ShowsClient client.now v → IfOk ran (λ slot. slot ≡ 0) →
        IfOk result (λ e. outcome_is e ≡ outcome_of_run (own client.now) task.now v (end_of ran)) }
    ensures ending { IfOk result (λ e. IsRunEnding (outcome_is e)) }
    ensures wanting { IfErr result (λ fail. fail ≡ InputFail.NoMemory) }
    ensures fault { ran ≡ Err RunFault.NoMemory → result ≡ Err InputFail.NoMemory }
{
    match ran {
        Ok(slot) => match tell(alloc, client, slot, task) {
            Ok(text) => Ok(Ending::Written(text)),
            Err(_wanting) => Err(InputFail::NoMemory),
        },
        Err(RunFault::Undecided(replies)) => Ok(Ending::Undecided { replies }),
        Err(RunFault::Call(_)) => Ok(Ending::BadLine {
            line: 1,
            reason: Reason::RefusedCall,
        }),
        Err(RunFault::NoMemory) => Err(InputFail::NoMemory),
    }
}

/// What a client comes to that does what it is to do.
fn run_at<V: Verifier, S: Signer, L: Links, C: Clock>(
    alloc: Global,
    client: &mut Client<V, S>,
    number: u8,
    file: &ClusterFile,
    task: &ClientTask,
    links: &mut L,
    clock: &mut C,
) -> Result<Ending, InputFail>
    requires number { number ≡ client.old.seat.number }
    requires cluster { client.old.seat.cluster ≡ file.now.cluster }
    ensures ran { (s : ClientStation) (moments : List ℕ) (state : LinkState) → SitsInFile client.old file.now s →
        C.moments clock.old ≡ Some moments → L.told links.old ≡ Some state → IfOk result (λ e.
        RanTo s task.now moments state (L.told links.new) (L.faults links.old) (L.faults links.new) (outcome_is e)) }
    ensures ending { IfOk result (λ e. IsRunEnding (outcome_is e)) }
    ensures wanting { IfErr result (λ fail. fail ≡ InputFail.NoMemory) }
    ensures faults { L.faults links.old ≤ L.faults links.new }
{
    let ran = run_task(alloc, client, number, file, task, links, clock);
    ending_of(alloc, client, ran, task)
}

/// The reason of a seat that isn't given; none for want of memory.
fn seat_ending(fault: SeatFault) -> Result<Ending, InputFail>
    ensures told { SeatTold fault result }
    ensures wanting { IfErr result (λ fail. fail ≡ InputFail.NoMemory) }
{
    match fault {
        SeatFault::WrongKey => Ok(Ending::BadLine {
            line: 1,
            reason: Reason::WrongParty,
        }),
        SeatFault::WrongLeaf => Ok(Ending::BadLine {
            line: 1,
            reason: Reason::OutOfRange,
        }),
        SeatFault::NoMemory => Err(InputFail::NoMemory),
    }
}

/// What a client of this file comes to.
fn run_in<L: Links, C: Clock>(
    alloc: Global,
    call: &ClientCall,
    file: &ClusterFile,
    links: &mut L,
    clock: &mut C,
) -> Result<Ending, InputFail>
    requires { (1 ≤ call.now.seat.number) × (call.now.seat.number ≤ most_clients) }
    ensures refused { IfErr (client_seated file.now (client_in file.now call.now.seat)) (λ refusal.
        IfOk result (λ e. outcome_is e ≡ refusal)) }
    ensures idle { IfErr (client_seated file.now (client_in file.now call.now.seat)) (λ _. links.new ≡ links.old) }
    ensures still { IfErr (client_seated file.now (client_in file.now call.now.seat)) (λ _. clock.new ≡ clock.old) }
    ensures ran { (s : ClientStation) (moments : List ℕ) (state : LinkState) →
        client_seated file.now (client_in file.now call.now.seat) ≡ Ok s →
        C.moments clock.old ≡ Some moments → L.told links.old ≡ Some state → IfOk result (λ e.
        RanTo s call.now.task moments state (L.told links.new) (L.faults links.old) (L.faults links.new)
        (outcome_is e)) }
    ensures ending { IfOk (client_seated file.now (client_in file.now call.now.seat)) (λ _.
        IfOk result (λ e. IsRunEnding (outcome_is e))) }
    ensures wanting { IfErr result (λ fail. fail ≡ InputFail.NoMemory) }
    ensures faults { L.faults links.old ≤ L.faults links.new }
{
    match client_of(alloc, file, &call.seat) {
        Ok(seated) => {
            let mut client = seated;
            run_at(
                alloc,
                &mut client,
                call.seat.number,
                file,
                &call.task,
                links,
                clock,
            )
        }
        Err(fault) => seat_ending(fault),
    }
}

/// What a client whose file has these bytes comes to.
fn run_file<L: Links, C: Clock>(
    alloc: Global,
    call: &ClientCall,
    bytes: &[u8],
    links: &mut L,
    clock: &mut C,
) -> Result<Ending, InputFail>
    requires { (1 ≤ call.now.seat.number) × (call.now.seat.number ≤ most_clients) }
    ensures refused { IfErr (client_seated_in (cluster_in bytes.now) call.now.seat) (λ refusal.
        IfOk result (λ e. outcome_is e ≡ refusal)) }
    ensures idle { IfErr (client_seated_in (cluster_in bytes.now) call.now.seat) (λ _. links.new ≡ links.old) }
    ensures still { IfErr (client_seated_in (cluster_in bytes.now) call.now.seat) (λ _. clock.new ≡ clock.old) }
    ensures ran { (s : ClientStation) (moments : List ℕ) (state : LinkState) →
        client_seated_in (cluster_in bytes.now) call.now.seat ≡ Ok s →
        C.moments clock.old ≡ Some moments → L.told links.old ≡ Some state → IfOk result (λ e.
        RanTo s call.now.task moments state (L.told links.new) (L.faults links.old) (L.faults links.new)
        (outcome_is e)) }
    ensures ending { IfOk (client_seated_in (cluster_in bytes.now) call.now.seat) (λ _.
        IfOk result (λ e. IsRunEnding (outcome_is e))) }
    ensures wanting { IfErr result (λ fail. fail ≡ InputFail.NoMemory) }
    ensures faults { L.faults links.old ≤ L.faults links.new }
{
    match read_cluster(alloc, bytes) {
        Ok(file) => run_in(alloc, call, &file, links, clock),
        Err(FileFault::BadFile { reason }) => Ok(Ending::BadLine {
            line: 1,
            reason: file_reason(reason),
        }),
        Err(FileFault::NoMemory) => Err(InputFail::NoMemory),
    }
}

/// What a client whose file is the source comes to.
fn run_source<S: Source, L: Links, C: Clock>(
    alloc: Global,
    call: &ClientCall,
    source: &mut S,
    links: &mut L,
    clock: &mut C,
) -> Result<Ending, InputFail>
    requires { (1 ≤ call.now.seat.number) × (call.now.seat.number ≤ most_clients) }
    ensures refused { IfSome (S.left source.old) (λ bytes. IfErr (client_station call.now.seat bytes) (λ refusal.
        IfOk result (λ e. outcome_is e ≡ refusal))) }
    ensures idle { IfSome (S.left source.old) (λ bytes.
        IfErr (client_station call.now.seat bytes) (λ _. links.new ≡ links.old)) }
    ensures still { IfSome (S.left source.old) (λ bytes.
        IfErr (client_station call.now.seat bytes) (λ _. clock.new ≡ clock.old)) }
    ensures ran { (s : ClientStation) (moments : List ℕ) (state : LinkState) →
        C.moments clock.old ≡ Some moments → L.told links.old ≡ Some state → IfSome (S.left source.old) (λ bytes.
        client_station call.now.seat bytes ≡ Ok s → IfOk result (λ e.
        RanTo s call.now.task moments state (L.told links.new) (L.faults links.old) (L.faults links.new)
        (outcome_is e))) }
    ensures ending { IfSome (S.left source.old) (λ bytes. IfOk (client_station call.now.seat bytes) (λ _.
        IfOk result (λ e. IsRunEnding (outcome_is e)))) }
    ensures through { IfOk result (λ _. IfSome (S.left source.old) (λ bytes.
        IsReadThrough is_too_long bytes (S.left source.new))) }
    ensures soon { IfSome (S.left source.old) (λ bytes. StopsSoon is_too_long bytes (S.left source.new)) }
    ensures failed { IsErrOf result InputFail.Failed → Rose (S.faults source.old) (S.faults source.new) }
    ensures told { S.faults source.old < S.faults source.new → IsErrOf result InputFail.Failed }
    ensures unlinked { IsErrOf result InputFail.Link → ⊥ }
    ensures faults { L.faults links.old ≤ L.faults links.new }
{
    match read_whole(alloc, source)? {
        Whole::Bytes(bytes) => run_file(alloc, call, bytes.as_slice(), links, clock),
        Whole::TooLong => Ok(Ending::TooLong),
    }
}

/// Does what a client is to do, whose cluster's file is the source, and writes what came of it: what became of its
/// transaction and what that read, or, where it was only formed, the transaction and its signature, or its certificate;
/// or why it doesn't come so far.
pub fn run_client<S: Source, K: Sink, L: Links, C: Clock>(
    alloc: Global,
    call: &ClientCall,
    source: &mut S,
    sink: &mut K,
    links: &mut L,
    clock: &mut C,
) -> Status
    requires { (1 ≤ call.now.seat.number) × (call.now.seat.number ≤ most_clients) }
    ensures refused { let counts =
        counted (S.faults source.old) (S.faults source.new) (L.faults links.old) (L.faults links.new) in
        IfSome (S.left source.old) (λ bytes. IfErr (client_station call.now.seat bytes) (λ refusal.
        Answers result refusal counts (K.taken sink.old) (K.taken sink.new))) }
    ensures idle { IfSome (S.left source.old) (λ bytes.
        IfErr (client_station call.now.seat bytes) (λ _. links.new ≡ links.old)) }
    ensures still { IfSome (S.left source.old) (λ bytes.
        IfErr (client_station call.now.seat bytes) (λ _. clock.new ≡ clock.old)) }
    ensures ran { let counts =
        counted (S.faults source.old) (S.faults source.new) (L.faults links.old) (L.faults links.new) in
        (s : ClientStation) (moments : List ℕ) (state : LinkState) → is_outcomes result ≡ true →
        C.moments clock.old ≡ Some moments → L.told links.old ≡ Some state → IfSome (S.left source.old) (λ bytes.
        client_station call.now.seat bytes ≡ Ok s →
        ToldRun s call.now.task moments state (L.told links.new) counts result (K.taken sink.old) (K.taken sink.new)) }
    ensures complete { (Rose (S.faults source.old) (S.faults source.new) → ⊥) →
        (Rose (K.faults sink.old) (K.faults sink.new) → ⊥) →
        IfSome (S.left source.old) (λ bytes. IsClientTold result (client_station call.now.seat bytes)) }
    ensures through { is_outcomes result ≡ true → IfSome (S.left source.old) (λ bytes.
        IsReadThrough is_too_long bytes (S.left source.new)) }
    ensures soon { IfSome (S.left source.old) (λ bytes. StopsSoon is_too_long bytes (S.left source.new)) }
    ensures arguments { result ≡ Status.BadWords → ⊥ }
    ensures read { result ≡ Status.ReadFault → Rose (S.faults source.old) (S.faults source.new) }
    ensures write { result ≡ Status.WriteFault → Rose (K.faults sink.old) (K.faults sink.new) }
    ensures link { result ≡ Status.LinkFault → ⊥ }
    ensures read_told { S.faults source.old < S.faults source.new →
        (result ≡ Status.ReadFault) ⊎ (result ≡ Status.WriteFault) }
    ensures write_told { K.faults sink.old < K.faults sink.new → result ≡ Status.WriteFault }
{
    match run_source(alloc, call, source, links, clock) {
        Ok(ending) => write_ending(alloc, &ending, sink),
        Err(InputFail::Failed) => match sink.write(b"read fault\n") {
            Ok(()) => Status::ReadFault,
            Err(_) => Status::WriteFault,
        },
        Err(InputFail::Link) => unreachable!(),
        Err(InputFail::NoMemory) => Status::NoMemory,
    }
}

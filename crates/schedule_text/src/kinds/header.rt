//! The header of a schedule.

ghost use Rattle.std.specs.Prelude.{◌≡◌, option_copied, true, false};
ghost use Rattle.line_fields.specs.Tokens.{tokens_after};
ghost use Rattle.schedule_text.specs.Headers.{cluster_numbers, header_fields, journal_fields};
ghost use Rattle.schedule_text.specs.Headers.{seven_fields, eight_fields, cluster_of, header};
ghost use Rattle.line_fields.specs.Tokens.{seven_of, eight_of};

use crate::line::Line;
use basil_types::cluster::Cluster;
use line_fields::complaint::{Complaint, read_all4, read_both};
use line_fields::fields::spellings::{read_labelled_keys, read_labelled_number, read_literal};
use line_fields::keys_kind::KeysKind;
use line_fields::tokens::{eight, seven};

/// A cluster's numbers as a header spells them, before it is known whether there is such a cluster.
#[derive(Clone, Copy)]
pub struct ClusterNumbers {
    pub f: u64,
    pub shards: u64,
    pub reads: u64,
    pub delta: u64,
}

/// What a header's tokens say.
#[derive(Clone, Copy)]
pub struct HeaderFields {
    pub numbers: ClusterNumbers,
    pub clock: u64,
    pub keys: KeysKind,
    pub journal: bool,
}

#[tactic(auto, unfolding(crate::specs::Headers::cluster_numbers))]
/// `f=F shards=N reads=Q delta=D`
fn read_numbers(
    f: &[u8],
    shards: &[u8],
    reads: &[u8],
    delta: &[u8],
) -> Result<ClusterNumbers, Complaint>
    ensures { result ≡ cluster_numbers f.now shards.now reads.now delta.now }
{
    let numbers = read_all4(
        read_labelled_number(f, b"f="),
        read_labelled_number(shards, b"shards="),
        read_labelled_number(reads, b"reads="),
        read_labelled_number(delta, b"delta="),
    );
    match numbers {
        Ok((f, shards, reads, delta)) => Ok(ClusterNumbers {
            f,
            shards,
            reads,
            delta,
        }),
        Err(complaint) => Err(complaint),
    }
}

#[tactic(auto, unfolding(crate::specs::Headers::header_fields))]
/// `1 f=F shards=N reads=Q delta=D clock=T keys=K`
fn read_fields(
    tokens: (&[u8], &[u8], &[u8], &[u8], &[u8], &[u8], &[u8]),
    journal: bool,
) -> Result<HeaderFields, Complaint>
    ensures { result ≡ header_fields journal (
      tokens.entry.0.now,
      tokens.entry.1.now,
      tokens.entry.2.now,
      tokens.entry.3.now,
      tokens.entry.4.now,
      tokens.entry.5.now,
      tokens.entry.6.now,
    ) }
{
    let (version, f, shards, reads, delta, clock, keys) = tokens;
    let fields = read_all4(
        read_literal(version, b"1"),
        read_numbers(f, shards, reads, delta),
        read_labelled_number(clock, b"clock="),
        read_labelled_keys(keys, b"keys="),
    );
    match fields {
        Ok((_version, numbers, clock, keys)) => Ok(HeaderFields {
            numbers,
            clock,
            keys,
            journal,
        }),
        Err(complaint) => Err(complaint),
    }
}

#[tactic(auto, unfolding(crate::specs::Headers::journal_fields))]
/// The same with `journal` behind.
fn read_journal_fields(
    tokens: (&[u8], &[u8], &[u8], &[u8], &[u8], &[u8], &[u8], &[u8]),
) -> Result<HeaderFields, Complaint>
    ensures { result ≡ journal_fields (
      tokens.entry.0.now,
      tokens.entry.1.now,
      tokens.entry.2.now,
      tokens.entry.3.now,
      tokens.entry.4.now,
      tokens.entry.5.now,
      tokens.entry.6.now,
      tokens.entry.7.now,
    ) }
{
    let (version, f, shards, reads, delta, clock, keys, last) = tokens;
    let fields = read_fields((version, f, shards, reads, delta, clock, keys), true);
    let (_last, fields) = read_both(read_literal(last, b"journal"), fields)?;
    Ok(fields)
}

#[tactic(auto, unfolding(crate::specs::Headers::cluster_of))]
/// The cluster of these numbers, where it isn't refused.
fn read_cluster(numbers: ClusterNumbers) -> Result<Cluster, Complaint>
    ensures { result ≡ cluster_of numbers }
{
    if numbers.f > 6 || numbers.shards > 8 || numbers.reads > 25 {
        return Err(Complaint::Refused);
    }
    let cluster = Cluster::new(
        numbers.f as u8,
        numbers.shards as u8,
        numbers.reads as u8,
        numbers.delta,
    );
    match cluster {
        Ok(cluster) => Ok(cluster),
        Err(_) => Err(Complaint::Refused),
    }
}

/// The seven tokens of a header, or the eight of one with `journal`.
fn read_tokens(rest: Option<&[u8]>) -> Result<HeaderFields, Complaint>
    ensures { result ≡ seven_fields (eight_fields (eight_of (tokens_after (option_copied rest.entry))))
        (seven_of (tokens_after (option_copied rest.entry))) }
{
    if let Some(tokens) = seven(rest) {
        return read_fields(tokens, false);
    }
    match eight(rest) {
        Some(tokens) => read_journal_fields(tokens),
        None => Err(Complaint::Misspelt),
    }
}

#[tactic(auto, unfolding(crate::specs::Headers::header))]
/// `basil 1 f=F shards=N reads=Q delta=D clock=T keys=K`, with `journal` at its end or without.
pub fn read_header(rest: Option<&[u8]>) -> Result<Line, Complaint>
    ensures { result ≡ header (tokens_after (option_copied rest.entry)) }
{
    let fields = read_tokens(rest)?;
    let cluster = read_cluster(fields.numbers)?;
    Ok(Line::Header {
        cluster,
        clock: fields.clock,
        keys: fields.keys,
        journal: fields.journal,
    })
}

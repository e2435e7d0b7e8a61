//! What proves a decision: told by a client, and confirmed by whoever has the cluster's file.

use crate::frames::{ABORTING, CLIENT_SEED, FILE, PROOF, SIGNED, TAKING_UP, TRANSACTION, VOTELESS};
use crate::support::{Answer, Given, Hex, run_given};
use basil_cli::status::Status;
use std::alloc::Global;
use std::test::Fail;

const CERTIFY: &[&str] = &["certify", "1", CLIENT_SEED, "0", TRANSACTION, SIGNED];

/// A frame in hex, in a line.
fn line_of(alloc: Global, frame: Hex) -> Result<String, Fail> {
    let mut line = String::new(alloc);
    for piece in frame {
        line.push_str(piece)?;
    }
    line.push_str("\n")?;
    Ok(line)
}

/// What was handed over commits, and the frame that its replica is told is told here.
#[test]
fn a_client_tells_what_proves_its_decision(rt: HostRuntime) -> Result<(), Fail> {
    let answer = run_given(rt.alloc(), CERTIFY, FILE.as_bytes(), &Given::VOTED)?;
    let proof = line_of(rt.alloc(), PROOF)?;
    assert!(rt; answer.status == Status::Done);
    assert!(rt; answer.text.as_slice() == proof.as_bytes());
    Ok(())
}

#[test]
fn nothing_proves_what_is_undecided(rt: HostRuntime) -> Result<(), Fail> {
    let answer = run_given(rt.alloc(), CERTIFY, FILE.as_bytes(), &Given::SILENT)?;
    assert!(rt; answer.status == Status::Undecided { replies: 0 });
    assert!(rt; answer.text.as_slice() == b"undecided 0\n".as_slice());
    Ok(())
}

/// What stands in a text once, and what stands in its place instead.
type Change = (&'static str, &'static str);

/// None.
const AS_IT_IS: Change = ("0", "0");

/// What stands in the line.
#[derive(Clone, Copy)]
enum Shown {
    /// The frame of a writeback with a vote to commit.
    Committing,
    /// With a vote to abort.
    Aborting,
    /// With no vote.
    Voteless,
    /// The frame of a recovery.
    TakingUp,
    Nothing,
}

use Shown::{Aborting, Committing, Nothing, TakingUp, Voteless};

/// What stands in the line, a change of it, a change of the file behind it, and the exit status and text that are
/// answered.
type Row = (Shown, Change, Change, u8, &'static str);

const ROWS: &[Row] = &[
    (Committing, AS_IT_IS, AS_IT_IS, 0, "commit\n"),
    (Aborting, AS_IT_IS, AS_IT_IS, 0, "abort\n"),
    // The file comes first: it isn't JSON, it has 33 shards, a replica is missing, or a public key isn't hex.
    (Committing, ("07", "0G"), ("{", "["), 3, "line 2 reason 2\n"),
    (
        Committing,
        ("07", "0G"),
        ("\"shards\": 1", "\"shards\": 33"),
        3,
        "line 2 reason 1\n",
    ),
    (
        Committing,
        AS_IT_IS,
        (
            "\"f\": 0, \"shards\": 1, \"reads\": 1",
            "\"f\": 1, \"shards\": 1, \"reads\": 2",
        ),
        3,
        "line 2 reason 3\n",
    ),
    (
        Committing,
        AS_IT_IS,
        ("0000000500000003a2", "000000050000000xa2"),
        3,
        "line 2 reason 8\n",
    ),
    // Then the line: it isn't lower-case hex, it is empty, or there is no replica 1.
    (Committing, ("07", "0G"), AS_IT_IS, 3, "line 1 reason 8\n"),
    (Committing, ("0a", "0A"), AS_IT_IS, 3, "line 1 reason 8\n"),
    (Nothing, AS_IT_IS, AS_IT_IS, 3, "line 1 reason 8\n"),
    (
        Committing,
        ("01000100092c", "01000101092c"),
        AS_IT_IS,
        3,
        "line 1 reason 8\n",
    ),
    // It is the frame of a recovery.
    (TakingUp, AS_IT_IS, AS_IT_IS, 3, "line 1 reason 2\n"),
    // Then the form of the transaction: it neither reads nor writes.
    (
        Committing,
        ("0a010001016100027831", "0a010000"),
        AS_IT_IS,
        8,
        "refused 7\n",
    ),
    // Then the certificate: it is another transaction's, it has no vote, or not its replica's signature.
    (Committing, ("7831", "7832"), AS_IT_IS, 8, "refused 1\n"),
    (Voteless, AS_IT_IS, AS_IT_IS, 8, "refused 4\n"),
    (
        Committing,
        ("2e50a010", "2e50a011"),
        AS_IT_IS,
        8,
        "refused 6\n",
    ),
    (
        Committing,
        AS_IT_IS,
        ("de022084", "de022085"),
        8,
        "refused 6\n",
    ),
];

fn frame_of(shown: Shown) -> Hex {
    match shown {
        Committing => PROOF,
        Aborting => ABORTING,
        Voteless => VOTELESS,
        TakingUp => TAKING_UP,
        Nothing => &[],
    }
}

/// What `confirm` answers to a line with a frame, and the file behind it, changed so.
fn confirmed(
    alloc: Global,
    shown: Shown,
    in_line: Change,
    in_file: Change,
) -> Result<Answer, Fail> {
    let line = line_of(alloc, frame_of(shown))?;
    let mut input = line.as_str().replacen(alloc, in_line.0, in_line.1, 1)?;
    let file = FILE.replacen(alloc, in_file.0, in_file.1, 1)?;
    input.push_str(file.as_str())?;
    run_given(alloc, &["confirm"], input.as_bytes(), &Given::NOTHING)
}

#[test]
fn whoever_has_the_file_confirms_a_decision(rt: HostRuntime) -> Result<(), Fail> {
    for &(shown, in_line, in_file, code, text) in ROWS {
        let answer = confirmed(rt.alloc(), shown, in_line, in_file)?;
        let told = answer.status.code() == code && answer.text.as_slice() == text.as_bytes();
        assert!(rt; told, "{text}");
    }
    Ok(())
}

/// Without a file behind the line there is none.
#[test]
fn a_file_must_follow(rt: HostRuntime) -> Result<(), Fail> {
    let proof = line_of(rt.alloc(), PROOF)?;
    for input in ["", "\n", "07", proof.as_str()] {
        let answer = run_given(rt.alloc(), &["confirm"], input.as_bytes(), &Given::NOTHING)?;
        assert!(rt;
            answer.text.as_slice() == b"line 2 reason 2\n".as_slice(),
            "{input}"
        );
    }
    Ok(())
}

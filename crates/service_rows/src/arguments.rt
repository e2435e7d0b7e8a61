//! Arguments that call neither a node nor a client, nor are another command.

use crate::frames::{FILE, SEED, TRANSACTION};
use crate::support::{Given, run_given};
use basil_cli::status::Status;
use std::test::Fail;

/// A key of 65 bytes.
const LONG_KEY: &str = "w:aaaaaaaaaaaaaaaaaaaaaaaaaaaaaaaaaaaaaaaaaaaaaaaaaaaaaaaaaaaaaaaaa:x1";

const ROWS: &[&[&str]] = &[
    // A word is missing, or one too many.
    &["node"],
    &["node", "0", "0", SEED, "0"],
    &["node", "0", "0", SEED, "0", "2", "2"],
    // S and R are 0 to 255.
    &["node", "256", "0", SEED, "0", "2"],
    &["node", "0", "256", SEED, "0", "2"],
    &["node", "-1", "0", SEED, "0", "2"],
    &["node", "00", "0", SEED, "0", "2"],
    &["node", "0", "", SEED, "0", "2"],
    // SEED has 64 lower-case hex digits.
    &["node", "0", "0", "a1", "0", "2"],
    &[
        "node",
        "0",
        "0",
        "A1a1a1a1a1a1a1a1a1a1a1a1a1a1a1a1a1a1a1a1a1a1a1a1a1a1a1a1a1a1a1a1",
        "0",
        "2",
    ],
    // LEAF is 0 to 1,024.
    &["node", "0", "0", SEED, "1025", "2"],
    &["node", "0", "0", SEED, "x", "2"],
    // CONNECTIONS are 1 to 1,000,000.
    &["node", "0", "0", SEED, "0", "0"],
    &["node", "0", "0", SEED, "0", "1000001"],
    // Another name.
    &["nodes", "0", "0", SEED, "0", "2"],
    &["Node", "0", "0", SEED, "0", "2"],
    // A client without a word, and one without a read or write.
    &["client"],
    &["client", "1", SEED, "0"],
    // C is 1 to 16.
    &["client", "0", SEED, "0", "r:a"],
    &["client", "17", SEED, "0", "r:a"],
    &["client", "01", SEED, "0", "r:a"],
    // SEED and LEAF as above.
    &["client", "1", "c1", "0", "r:a"],
    &["client", "1", SEED, "1025", "r:a"],
    // A write has a value, and a key has 1 to 64 bytes.
    &["client", "1", SEED, "0", "w:a:"],
    &["client", "1", SEED, "0", "w:a"],
    &["client", "1", SEED, "0", "w::x1"],
    &["client", "1", SEED, "0", LONG_KEY],
    &["client", "1", SEED, "0", "r:"],
    // Neither a read nor a write.
    &["client", "1", SEED, "0", "r"],
    &["client", "1", SEED, "0", "d:a"],
    &["client", "1", SEED, "0", "r:a", ""],
    // The same of a transaction that is only formed.
    &["form"],
    &["form", "1", SEED, "0"],
    &["form", "17", SEED, "0", "r:a"],
    &["form", "1", SEED, "0", "d:a"],
    // What is taken up has both words, and none behind them.
    &["recover", "1", SEED, "0"],
    &["recover", "1", SEED, "0", TRANSACTION],
    &["recover", "1", SEED, "0", TRANSACTION, "5a", "5a"],
    &["recover", "17", SEED, "0", TRANSACTION, "5a"],
    &["recover", "1", SEED, "1025", TRANSACTION, "5a"],
    // Its transaction is whole, and nothing follows it; both words are lower-case hex.
    &[
        "recover",
        "1",
        SEED,
        "0",
        "01000000000000000a0100010161000278",
        "5a",
    ],
    &[
        "recover",
        "1",
        SEED,
        "0",
        "01000000000000000a01000101610002783100",
        "5a",
    ],
    &[
        "recover",
        "1",
        SEED,
        "0",
        "03000000000000000a010001016100027831",
        "5a",
    ],
    &[
        "recover",
        "1",
        SEED,
        "0",
        "01000000000000000A010001016100027831",
        "5a",
    ],
    &["recover", "1", SEED, "0", "", "5a"],
    &["recover", "1", SEED, "0", TRANSACTION, ""],
    &["recover", "1", SEED, "0", TRANSACTION, "5"],
    &["recover", "1", SEED, "0", TRANSACTION, "5A"],
    // The same of a certificate that is to be told.
    &["certify", "1", SEED, "0", TRANSACTION],
    &["certify", "17", SEED, "0", TRANSACTION, "5a"],
    &["certify", "1", SEED, "0", TRANSACTION, "5A"],
    &["certify", "1", SEED, "0", "w:a:x1"],
    // Nobody confirms by words.
    &["confirm", "5a"],
    // Another name.
    &["clients", "1", SEED, "0", "r:a"],
    &["forms", "1", SEED, "0", "r:a"],
    &["recovers", "1", SEED, "0", TRANSACTION, "5a"],
    &["certifies", "1", SEED, "0", TRANSACTION, "5a"],
];

#[test]
fn other_arguments_are_no_party(rt: HostRuntime) -> Result<(), Fail> {
    for arguments in ROWS {
        let answer = run_given(rt.alloc(), arguments, FILE.as_bytes(), &Given::NOTHING)?;
        assert!(rt; answer.status == Status::BadWords, "{arguments:?}");
        assert!(rt; answer.text.as_slice() == b"usage\n".as_slice());
    }
    Ok(())
}

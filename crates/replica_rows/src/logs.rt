//! What a replica has logged, and when it changes.

use basil_types::party::Decision;
use decision_log::{LogCell, LogFault, adopt, enter, log_first};

fn abort_in(decided: u64, current: u64) -> Option<LogCell> {
    Some(LogCell {
        decision: Decision::Abort,
        decided,
        current,
    })
}

fn commit_in(decided: u64, current: u64) -> LogCell {
    LogCell {
        decision: Decision::Commit,
        decided,
        current,
    }
}

#[test]
fn a_commit_is_adopted_in_a_later_view(rt: HostRuntime) {
    let rows = [
        (abort_in(1, 2), 1, Err(LogFault::StaleView(2))),
        (abort_in(2, 2), 2, Err(LogFault::AlreadyDecidedIn(2))),
        (abort_in(1, 2), 2, Ok(commit_in(2, 2))),
        (None, 3, Ok(commit_in(3, 3))),
    ];
    for (cell, view, adopted) in rows {
        assert!(rt;
            adopt(cell, Decision::Commit, view) == adopted,
            "view {view}"
        );
    }
}

#[test]
fn a_first_log_and_a_later_view(rt: HostRuntime) {
    let first = log_first(Decision::Commit);
    assert!(rt; first == commit_in(0, 0));
    assert!(rt; enter(first, 3) == commit_in(0, 3));
}

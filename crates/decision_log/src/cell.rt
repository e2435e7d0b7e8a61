//! The logged decision of one transaction.

ghost use Rattle.std.specs.Prelude.{◌≡◌, ◌<◌, None, Some, IfErr, IfOk, IfSome, MatchResult, OnOk};
ghost use Rattle.decision_log.specs.Cells.{first_cell, cell_of, entered, adopt_fault, IsOrdered};
ghost use Rattle.decision_log.specs.Runs.{Enter, Adopt, after};

use basil_types::party::Decision;

/// What a replica of the log shard has logged for a transaction.
#[derive(Clone, Copy, PartialEq, Eq)]
pub struct LogCell {
    /// The logged decision.
    pub decision: Decision,
    /// The view in which it was decided: 0 where the client's tallies decided it, a later view where its leader did.
    pub decided: u64,
    /// The view that the replica is in.
    pub current: u64,
}

/// Why a replica doesn't adopt a decision.
#[derive(Clone, Copy, Debug, PartialEq, Eq)]
pub enum LogFault {
    /// The view is below the one that the replica is in, which is told.
    StaleView(u64),
    /// The view isn't above the one in which the logged decision was decided, which is told.
    AlreadyDecidedIn(u64),
}

/// The cell of a decision that is logged for the first time, in view 0.
pub fn log_first(decision: Decision) -> LogCell
    ensures value { result ≡ first_cell decision }
    ensures ordered { IsOrdered result }
    ensures step { after None (Adopt decision 0) ≡ Some result }
{
    LogCell {
        decision,
        decided: 0,
        current: 0,
    }
}

/// The cell in a view above its current one. The decision and the view in which it was decided stay.
pub fn enter(cell: LogCell, view: u64) -> LogCell
    requires { cell.current < view }
    ensures value { result ≡ entered cell view }
    ensures ordered { IsOrdered cell → IsOrdered result }
    ensures step { after (Some cell) (Enter view) ≡ Some result }
{
    LogCell {
        current: view,
        ..cell
    }
}

/// The cell that the decision of a view's leader leaves, made anew if there was none; or why the decision isn't adopted
/// (Basil, fallback): the view is above the one in which the logged decision was decided, and not below the current
/// one.
pub fn adopt(cell: Option<LogCell>, decision: Decision, view: u64) -> Result<LogCell, LogFault>
    ensures value { IfOk result (λ new. new ≡ cell_of decision view) }
    ensures lawful { OnOk result (adopt_fault cell view ≡ None) }
    ensures refused { IfErr result (λ fault. adopt_fault cell view ≡ Some fault) }

    // what layers above rest on
    ensures ordered { IfOk result IsOrdered }
    ensures one_decision_per_view { IfOk result (λ new. IfSome cell (λ old. old.decided < new.decided)) }
    ensures step { MatchResult result
        (λ new. after cell (Adopt decision view) ≡ Some new) (λ _. after cell (Adopt decision view) ≡ cell) }
{
    if let Some(cell) = cell {
        if view < cell.current {
            return Err(LogFault::StaleView(cell.current));
        }
        if view <= cell.decided {
            return Err(LogFault::AlreadyDecidedIn(cell.decided));
        }
    }
    Ok(LogCell {
        decision,
        decided: view,
        current: view,
    })
}

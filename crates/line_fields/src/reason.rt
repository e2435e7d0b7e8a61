//! Why a line is refused.

ghost use Rattle.std.specs.Prelude.{◌≡◌, Some, decimal};
ghost use Rattle.line_fields.specs.Complaints.{reason_number};

use std::fmt;

/// Why a line of a schedule, or of an audit's input, is refused: the tables of `docs/formats.md` say where.
#[derive(Clone, Copy, Debug, PartialEq, Eq)]
pub enum Reason {
    /// 1: the first line that isn't skipped is no header whose cluster is accepted.
    NoHeader,
    /// 2: an unknown token, a wrong number of tokens, a misspelt token, or a second header.
    Misspelt,
    /// 3: a number that isn't canonical or is out of range.
    OutOfRange,
    /// 4: a name that isn't begun, is begun twice, or isn't formed where it must be.
    WrongName,
    /// 5: a faulty party that is named too late or twice, or is one too many of its shard.
    CannotBeFaulty,
    /// 6: a line for a faulty party names a correct one, or the other way round.
    WrongParty,
    /// 7: a message that isn't there.
    NoMessage,
    /// 8: a line, a line's number, a frame, a key or a value above its limit.
    OutOfSize,
    /// 9: a call that is refused, a key without a leaf, or a listed transaction that can't stand.
    RefusedCall,
    /// 11: a disk is stopped where no replica has a journal.
    NoJournal,
}

impl Reason {
    /// Its number: 1 to 9, or 11. The number 10 is free.
    pub fn number(self) -> u8
        ensures { result ≡ reason_number self }
    {
        match self {
            Reason::NoHeader => 1,
            Reason::Misspelt => 2,
            Reason::OutOfRange => 3,
            Reason::WrongName => 4,
            Reason::CannotBeFaulty => 5,
            Reason::WrongParty => 6,
            Reason::NoMessage => 7,
            Reason::OutOfSize => 8,
            Reason::RefusedCall => 9,
            Reason::NoJournal => 11,
        }
    }
}

/// Its number, in decimal.
impl fmt::Display for Reason {
    ghost output = { λ reason. Some (decimal (reason_number reason)) };

    fn fmt<W: fmt::Write>(&self, f: &mut fmt::Formatter<W>) -> fmt::Result {
        let number = self.number();
        write!(f, "{number}")
    }
}

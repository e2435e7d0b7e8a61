//! Why a token or a line isn't read.

ghost use Rattle.std.specs.Prelude.{◌≡◌};
ghost use Rattle.line_fields.specs.Complaints.{reason_of, first_of, both, all3, all4, all5};

use crate::reason::Reason;

/// Why a token or a line isn't read. Where there are several, the one with the least reason counts.
#[derive(Clone, Copy, Debug, PartialEq, Eq)]
pub enum Complaint {
    /// Reason 1: a header whose tokens are right, and whose cluster is refused.
    Refused,
    /// Reason 2: an unknown token, a wrong number of tokens, or a misspelt token.
    Misspelt,
    /// Reason 3: a number that isn't canonical or is out of range.
    OutOfRange,
    /// Reason 8: a line, a line's number, a frame, a key or a value above its limit.
    OutOfSize,
}

impl Complaint {
    /// Why a line with it is refused.
    pub fn reason(self) -> Reason
        ensures { result ≡ reason_of self }
    {
        match self {
            Complaint::Refused => Reason::NoHeader,
            Complaint::Misspelt => Reason::Misspelt,
            Complaint::OutOfRange => Reason::OutOfRange,
            Complaint::OutOfSize => Reason::OutOfSize,
        }
    }

    /// Of two complaints the one with the lesser reason.
    pub fn or_earlier(self, other: Complaint) -> Complaint
        ensures { result ≡ first_of self other }
    {
        if self.reason().number() <= other.reason().number() {
            self
        } else {
            other
        }
    }
}

/// Two values where both are read, else the first complaint.
pub fn read_both<A: Drop, B: Drop>(
    a: Result<A, Complaint>,
    b: Result<B, Complaint>,
) -> Result<(A, B), Complaint>
    ensures { result ≡ both a b }
{
    match (a, b) {
        (Ok(a), Ok(b)) => Ok((a, b)),
        (Ok(_), Err(complaint)) => Err(complaint),
        (Err(complaint), Ok(_)) => Err(complaint),
        (Err(complaint), Err(other)) => Err(complaint.or_earlier(other)),
    }
}

#[tactic(auto, unfolding(crate::specs::Complaints::all3))]
/// The same of three values.
pub fn read_all3<A: Drop, B: Drop, C: Drop>(
    a: Result<A, Complaint>,
    b: Result<B, Complaint>,
    c: Result<C, Complaint>,
) -> Result<(A, B, C), Complaint>
    ensures { result ≡ all3 a b c }
{
    match read_both(a, read_both(b, c)) {
        Ok((a, (b, c))) => Ok((a, b, c)),
        Err(complaint) => Err(complaint),
    }
}

#[tactic(auto, unfolding(crate::specs::Complaints::all4))]
/// The same of four values.
pub fn read_all4<A: Drop, B: Drop, C: Drop, D: Drop>(
    a: Result<A, Complaint>,
    b: Result<B, Complaint>,
    c: Result<C, Complaint>,
    d: Result<D, Complaint>,
) -> Result<(A, B, C, D), Complaint>
    ensures { result ≡ all4 a b c d }
{
    match read_both(a, read_all3(b, c, d)) {
        Ok((a, (b, c, d))) => Ok((a, b, c, d)),
        Err(complaint) => Err(complaint),
    }
}

#[tactic(auto, unfolding(crate::specs::Complaints::all5))]
/// The same of five values.
pub fn read_all5<A: Drop, B: Drop, C: Drop, D: Drop, E: Drop>(
    a: Result<A, Complaint>,
    b: Result<B, Complaint>,
    c: Result<C, Complaint>,
    d: Result<D, Complaint>,
    e: Result<E, Complaint>,
) -> Result<(A, B, C, D, E), Complaint>
    ensures { result ≡ all5 a b c d e }
{
    match read_both(a, read_all4(b, c, d, e)) {
        Ok((a, (b, c, d, e))) => Ok((a, b, c, d, e)),
        Err(complaint) => Err(complaint),
    }
}

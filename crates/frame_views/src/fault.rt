//! Why bytes are no frame.

ghost use Rattle.std.specs.Prelude.{◌≡◌};
ghost use Rattle.frame_views.specs.Placed.{placed};

use basil_types::reading::Fault;

/// Why bytes are no frame of the grammar. A number is the offset of the field at fault, the first from left to right;
/// too great a length comes before all other faults.
#[derive(Clone, Copy, Debug, PartialEq, Eq)]
pub enum BadFrame {
    /// The frame ends inside the field that begins at this offset.
    Short(usize),
    /// The first byte names no kind.
    Kind,
    /// The frame has more than `FRAME_LIMIT` bytes.
    Length,
    /// The field at this offset isn't above the one before it in its list.
    Order(usize),
    /// The field at this offset is out of range.
    Range(usize),
    /// Bytes are left behind the body, the first of them at this offset.
    Trailing(usize),
}

impl BadFrame {
    ghost use Rattle.frame_views.specs.Numbers.{number_of};

    /// The number of the fault, from 1 to 6.
    pub fn number(&self) -> u8
        ensures { result ≡ number_of self.now }
    {
        match self {
            BadFrame::Short(_) => 1,
            BadFrame::Kind => 2,
            BadFrame::Length => 3,
            BadFrame::Order(_) => 4,
            BadFrame::Range(_) => 5,
            BadFrame::Trailing(_) => 6,
        }
    }
}

/// Where a field's fault lies in a frame of this length.
pub(crate) fn place(fault: Fault, len: usize) -> BadFrame
    ensures { result ≡ placed len fault }
{
    match fault {
        Fault::Short(left) => BadFrame::Short(len.saturating_sub(left)),
        Fault::Range(left) => BadFrame::Range(len.saturating_sub(left)),
        Fault::Order(left) => BadFrame::Order(len.saturating_sub(left)),
    }
}

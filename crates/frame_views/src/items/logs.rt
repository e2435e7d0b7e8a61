//! Log replies of a logged certificate, in borrowed bytes.

ghost use Rattle.std.specs.Prelude.{IsTrue};
ghost use Rattle.basil_types.specs.Lists.{items_at, is_whole};
ghost use Rattle.frame_views.specs.Fitting.{widest, after_log};
ghost use Rattle.frame_views.specs.Grammar.{log_at};
ghost use Rattle.frame_views.specs.Lists.{spells_logs, logs_in};

use crate::bounds::{Bounds, WIDEST};
use crate::fields::{next_number, number_from, signature_like};
use basil_types::reading::{Fault, byte};

/// A log reply of a certificate: the replica, its current view and its signature.
#[derive(Clone, Copy)]
pub struct LogItem<'a> {
    pub replica: u8,
    /// At least the view of the decision.
    pub current: u64,
    /// 1 to `SIGNATURE_LIMIT` bytes.
    pub signature: &'a [u8],
}

/// Logs in bytes that were checked, ascending strictly by replica.
#[derive(Clone, Copy)]
pub struct LogsView<'a> {
    count: u8,
    bytes: &'a [u8],
    ghost whole: { IsTrue (spells_logs count bytes.now) },
}

/// The logs that are left of a list, one after the other.
#[derive(Drop)]
pub struct LogsIter<'a> {
    left: u8,
    floor: u16,
    /// The length of the signature before.
    usual: usize,
    rest: &'a [u8],
    ghost whole: { IsTrue (is_whole (items_at (log_at widest 0) after_log left floor rest.now)) },
}

impl<'a> LogItem<'a> {
    ghost use Rattle.std.specs.Prelude.{◌≡◌};
    ghost use Rattle.basil_types.specs.Steps.{Gives};
    ghost use Rattle.frame_views.specs.Fitting.{Within};
    ghost use Rattle.frame_views.specs.Items.{log_of};

    /// One log whose replica is at least `floor`.
    #[tactic(auto, unfolding(crate::specs::Grammar::log_at))]
    pub(super) fn read(
        bounds: Bounds,
        decided: u64,
        floor: u16,
        usual: usize,
        bytes: &'a [u8],
    ) -> Result<(LogItem<'a>, &'a [u8]), Fault>
        ensures { Gives (λ x. (log_of x.0, x.1.now)) result (log_at bounds decided floor bytes.now) }
    {
        let (replica, rest) = next_number(bounds.replicas, floor, bytes)?;
        let (current, rest) = number_from(decided, rest)?;
        let (signature, rest) = signature_like(usual, rest)?;
        Ok((
            LogItem {
                replica,
                current,
                signature,
            },
            rest,
        ))
    }
}

impl<'a> LogsView<'a> {
    ghost use Rattle.std.specs.Prelude.{◌≡◌, length, option_map, slice_get};
    ghost use Rattle.basil_types.specs.Steps.{Gives};
    ghost use Rattle.frame_views.specs.Fitting.{Within};
    ghost use Rattle.frame_views.specs.Grammar.{logs_at};
    ghost use Rattle.frame_views.specs.Items.{log_of, logs_of, logs_left};

    /// So many items, which these bytes spell.
    pub(crate) fn new(count: u8, bytes: &'a [u8]) -> LogsView<'a>
        requires { IsTrue (spells_logs count bytes.now) }
        ensures { logs_of result ≡ logs_in count bytes.now }
    {
        LogsView { count, bytes }
    }

    /// Logs behind their number.
    #[tactic(auto, unfolding(crate::specs::Grammar::logs_at))]
    pub(crate) fn read(
        bounds: Bounds,
        decided: u64,
        bytes: &'a [u8],
    ) -> Result<(LogsView<'a>, &'a [u8]), Fault>
        requires { Within bounds widest }
        ensures { Gives (λ x. (logs_of x.0, x.1.now)) result (logs_at bounds decided bytes.now) }
    {
        let (count, rest) = byte(bytes)?;
        LogsView::read_some(bounds, decided, count, rest)
    }

    /// So many logs, one after the other.
    fn read_some(
        bounds: Bounds,
        decided: u64,
        count: u8,
        bytes: &'a [u8],
    ) -> Result<(LogsView<'a>, &'a [u8]), Fault>
        requires { Within bounds widest }
        ensures { Gives (λ x. (logs_of x.0, x.1.now)) result
            (items_at (log_at bounds decided) after_log count 0 bytes.now) }
    {
        let mut rest = bytes;
        let mut floor = 0u16;
        let mut usual = 0usize;
        for _ in 0..count {
            let (item, after) = LogItem::read(bounds, decided, floor, usual, rest)?;
            floor = item.replica as u16 + 1;
            usual = item.signature.len();
            rest = after;
        }
        Ok((
            LogsView::new(count, &bytes[..bytes.len() - rest.len()]),
            rest,
        ))
    }

    /// The number of items.
    pub fn len(&self) -> usize
        ensures { result ≡ length (logs_of self.now) }
    {
        self.count as usize
    }

    /// The log at a place, from 0. None exactly past the end.
    pub fn at(&self, place: usize) -> Option<LogItem<'a>>
        ensures { option_map log_of result ≡ slice_get (logs_of self.now) place }
    {
        let mut floor = 0u16;
        let mut usual = 0usize;
        let mut rest = self.bytes;
        for i in 0..self.count {
            match LogItem::read(WIDEST, 0, floor, usual, rest) {
                Ok((item, after)) => {
                    if i as usize == place {
                        return Some(item);
                    }
                    floor = item.replica as u16 + 1;
                    usual = item.signature.len();
                    rest = after;
                }
                Err(_) => return None,
            }
        }
        None
    }

    /// The logs one after the other.
    pub fn iter(&self) -> LogsIter<'a>
        ensures { logs_left result ≡ logs_of self.now }
    {
        LogsIter {
            left: self.count,
            floor: 0,
            usual: 0,
            rest: self.bytes,
        }
    }
}

impl<'a> Iterator for LogsIter<'a> {
    type Item = LogItem<'a>;

    ghost use Rattle.std.specs.Iterator.{YieldsFirstBy, item_count};
    ghost use Rattle.frame_views.specs.Items.{log_of, logs_left};

    ghost next_gives = { YieldsFirstBy log_of logs_left };

    ghost remaining = { item_count logs_left };

    fn next(&mut self) -> Option<LogItem<'a>> {
        if self.left == 0 {
            return None;
        }
        match LogItem::read(WIDEST, 0, self.floor, self.usual, self.rest) {
            Ok((item, after)) => {
                self.left -= 1;
                self.floor = item.replica as u16 + 1;
                self.usual = item.signature.len();
                self.rest = after;
                Some(item)
            }
            Err(_) => unreachable!(),
        }
    }
}

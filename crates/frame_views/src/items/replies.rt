//! Log replies of an invoke, in borrowed bytes.

ghost use Rattle.std.specs.Prelude.{IsTrue};
ghost use Rattle.basil_types.specs.Lists.{items_at, is_whole};
ghost use Rattle.frame_views.specs.Fitting.{widest, after_reply};
ghost use Rattle.frame_views.specs.Grammar.{reply_at};
ghost use Rattle.frame_views.specs.Lists.{spells_replies, replies_in};

use crate::bounds::{Bounds, WIDEST};
use crate::fields::{decision, next_number, number_from, signature_like};
use basil_types::party::Decision;
use basil_types::reading::{Fault, byte, in_range, u64_at};

/// A log reply of an invoke: the replica, its decision, the view in which it was decided, its current view and its
/// signature.
#[derive(Clone, Copy)]
pub struct InvokeItem<'a> {
    pub replica: u8,
    pub decision: Decision,
    pub decided: u64,
    /// At least `decided`.
    pub current: u64,
    /// 1 to `SIGNATURE_LIMIT` bytes.
    pub signature: &'a [u8],
}

/// Replies in bytes that were checked, ascending strictly by replica.
#[derive(Clone, Copy)]
pub struct InvokesView<'a> {
    count: u8,
    bytes: &'a [u8],
    ghost whole: { IsTrue (spells_replies count bytes.now) },
}

/// The replies that are left of a list, one after the other.
#[derive(Drop)]
pub struct InvokesIter<'a> {
    left: u8,
    floor: u16,
    /// The length of the signature before.
    usual: usize,
    rest: &'a [u8],
    ghost whole: { IsTrue (is_whole (items_at (reply_at widest) after_reply left floor rest.now)) },
}

impl<'a> InvokeItem<'a> {
    ghost use Rattle.std.specs.Prelude.{◌≡◌};
    ghost use Rattle.basil_types.specs.Steps.{Gives};
    ghost use Rattle.frame_views.specs.Fitting.{Within};
    ghost use Rattle.frame_views.specs.Items.{reply_of};

    /// One reply whose replica is at least `floor`.
    #[tactic(auto, unfolding(crate::specs::Grammar::reply_at))]
    pub(super) fn read(
        bounds: Bounds,
        floor: u16,
        usual: usize,
        bytes: &'a [u8],
    ) -> Result<(InvokeItem<'a>, &'a [u8]), Fault>
        ensures { Gives (λ x. (reply_of x.0, x.1.now)) result (reply_at bounds floor bytes.now) }
    {
        let (replica, rest) = next_number(bounds.replicas, floor, bytes)?;
        let (decision, rest) = decision(rest)?;
        let (decided, rest) = u64_at(rest)?;
        let (current, rest) = number_from(decided, rest)?;
        let (signature, rest) = signature_like(usual, rest)?;
        Ok((
            InvokeItem {
                replica,
                decision,
                decided,
                current,
                signature,
            },
            rest,
        ))
    }
}

impl<'a> InvokesView<'a> {
    ghost use Rattle.std.specs.Prelude.{◌≡◌, length, option_map, slice_get};
    ghost use Rattle.std.specs.Prelude.{◌∷◌};
    ghost use Rattle.frame_views.specs.Spelling.{counted, reply_bytes};
    ghost use Rattle.basil_types.specs.Steps.{Gives};
    ghost use Rattle.frame_views.specs.Fitting.{Within};
    ghost use Rattle.frame_views.specs.Grammar.{replies_at};
    ghost use Rattle.frame_views.specs.Items.{reply_of, replies_of, replies_left};

    /// So many items, which these bytes spell.
    pub(crate) fn new(count: u8, bytes: &'a [u8]) -> InvokesView<'a>
        requires { IsTrue (spells_replies count bytes.now) }
        ensures { replies_of result ≡ replies_in count bytes.now }
    {
        InvokesView { count, bytes }
    }

    /// Replies behind their number.
    #[tactic(auto, unfolding(crate::specs::Grammar::replies_at))]
    pub(crate) fn read(
        bounds: Bounds,
        bytes: &'a [u8],
    ) -> Result<(InvokesView<'a>, &'a [u8]), Fault>
        requires { Within bounds widest }
        ensures { Gives (λ x. (replies_of x.0, x.1.now)) result (replies_at bounds bytes.now) }
    {
        let (count, rest) = byte(bytes)?;
        InvokesView::read_some(bounds, count, rest)
    }

    /// So many replies, one after the other.
    fn read_some(
        bounds: Bounds,
        count: u8,
        bytes: &'a [u8],
    ) -> Result<(InvokesView<'a>, &'a [u8]), Fault>
        requires { Within bounds widest }
        ensures { Gives (λ x. (replies_of x.0, x.1.now)) result
            (items_at (reply_at bounds) after_reply count 0 bytes.now) }
    {
        let mut rest = bytes;
        let mut floor = 0u16;
        let mut usual = 0usize;
        for _ in 0..count {
            let (item, after) = InvokeItem::read(bounds, floor, usual, rest)?;
            floor = item.replica as u16 + 1;
            usual = item.signature.len();
            rest = after;
        }
        Ok((
            InvokesView::new(count, &bytes[..bytes.len() - rest.len()]),
            rest,
        ))
    }

    /// The number of items.
    pub fn len(&self) -> usize
        ensures { result ≡ length (replies_of self.now) }
    {
        self.count as usize
    }

    /// The reply at a place, from 0. None exactly past the end.
    pub fn at(&self, place: usize) -> Option<InvokeItem<'a>>
        ensures { option_map reply_of result ≡ slice_get (replies_of self.now) place }
    {
        let mut floor = 0u16;
        let mut usual = 0usize;
        let mut rest = self.bytes;
        for i in 0..self.count {
            match InvokeItem::read(WIDEST, floor, usual, rest) {
                Ok((item, after)) => {
                    if i as usize == place {
                        return Some(item);
                    }
                    floor = item.replica as u16 + 1;
                    usual = item.signature.len();
                    rest = after;
                }
                Err(_) => return None,
            }
        }
        None
    }

    /// The bytes behind the number of items, and that number: together the spelling of the list.
    pub fn spelled(&self) -> (u8, &'a [u8])
        ensures { result.0 ∷ result.1.now ≡ counted reply_bytes (replies_of self.now) }
    {
        (self.count, in_range(self.bytes))
    }

    /// The replies one after the other.
    pub fn iter(&self) -> InvokesIter<'a>
        ensures { replies_left result ≡ replies_of self.now }
    {
        InvokesIter {
            left: self.count,
            floor: 0,
            usual: 0,
            rest: self.bytes,
        }
    }
}

impl<'a> Iterator for InvokesIter<'a> {
    type Item = InvokeItem<'a>;

    ghost use Rattle.std.specs.Iterator.{YieldsFirstBy, item_count};
    ghost use Rattle.frame_views.specs.Items.{reply_of, replies_left};

    ghost next_gives = { YieldsFirstBy reply_of replies_left };

    ghost remaining = { item_count replies_left };

    fn next(&mut self) -> Option<InvokeItem<'a>> {
        if self.left == 0 {
            return None;
        }
        match InvokeItem::read(WIDEST, self.floor, self.usual, self.rest) {
            Ok((item, after)) => {
                self.left -= 1;
                self.floor = item.replica as u16 + 1;
                self.usual = item.signature.len();
                self.rest = after;
                Some(item)
            }
            Err(_) => unreachable!(),
        }
    }
}

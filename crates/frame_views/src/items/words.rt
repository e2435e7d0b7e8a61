//! Election words, in borrowed bytes.

ghost use Rattle.std.specs.Prelude.{IsTrue};
ghost use Rattle.basil_types.specs.Lists.{items_at, is_whole};
ghost use Rattle.frame_views.specs.Fitting.{widest, after_word};
ghost use Rattle.frame_views.specs.Grammar.{word_at};
ghost use Rattle.frame_views.specs.Lists.{spells_elects, elects_in};

use crate::bounds::{Bounds, WIDEST};
use crate::fields::{decision, next_number, signature_like};
use basil_types::party::Decision;
use basil_types::reading::{Fault, byte, in_range};

/// An election word: the replica, its decision and its signature.
#[derive(Clone, Copy)]
pub struct ElectItem<'a> {
    pub replica: u8,
    pub decision: Decision,
    /// 1 to `SIGNATURE_LIMIT` bytes.
    pub signature: &'a [u8],
}

/// Words in bytes that were checked, ascending strictly by replica.
#[derive(Clone, Copy)]
pub struct ElectsView<'a> {
    count: u8,
    bytes: &'a [u8],
    ghost whole: { IsTrue (spells_elects count bytes.now) },
}

/// The words that are left of a list, one after the other.
#[derive(Drop)]
pub struct ElectsIter<'a> {
    left: u8,
    floor: u16,
    /// The length of the signature before.
    usual: usize,
    rest: &'a [u8],
    ghost whole: { IsTrue (is_whole (items_at (word_at widest) after_word left floor rest.now)) },
}

impl<'a> ElectItem<'a> {
    ghost use Rattle.std.specs.Prelude.{◌≡◌};
    ghost use Rattle.basil_types.specs.Steps.{Gives};
    ghost use Rattle.frame_views.specs.Fitting.{Within};
    ghost use Rattle.frame_views.specs.Items.{elect_of};

    /// One word whose replica is at least `floor`.
    #[tactic(auto, unfolding(crate::specs::Grammar::word_at))]
    pub(super) fn read(
        bounds: Bounds,
        floor: u16,
        usual: usize,
        bytes: &'a [u8],
    ) -> Result<(ElectItem<'a>, &'a [u8]), Fault>
        ensures { Gives (λ x. (elect_of x.0, x.1.now)) result (word_at bounds floor bytes.now) }
    {
        let (replica, rest) = next_number(bounds.replicas, floor, bytes)?;
        let (decision, rest) = decision(rest)?;
        let (signature, rest) = signature_like(usual, rest)?;
        Ok((
            ElectItem {
                replica,
                decision,
                signature,
            },
            rest,
        ))
    }
}

impl<'a> ElectsView<'a> {
    ghost use Rattle.std.specs.Prelude.{◌≡◌, length, option_map, slice_get};
    ghost use Rattle.std.specs.Prelude.{◌∷◌};
    ghost use Rattle.frame_views.specs.Spelling.{counted, word_bytes};
    ghost use Rattle.basil_types.specs.Steps.{Gives};
    ghost use Rattle.frame_views.specs.Fitting.{Within};
    ghost use Rattle.frame_views.specs.Grammar.{words_at};
    ghost use Rattle.frame_views.specs.Items.{elect_of, elects_of, elects_left};

    /// So many items, which these bytes spell.
    pub(crate) fn new(count: u8, bytes: &'a [u8]) -> ElectsView<'a>
        requires { IsTrue (spells_elects count bytes.now) }
        ensures { elects_of result ≡ elects_in count bytes.now }
    {
        ElectsView { count, bytes }
    }

    /// Words behind their number.
    #[tactic(auto, unfolding(crate::specs::Grammar::words_at))]
    pub(crate) fn read(bounds: Bounds, bytes: &'a [u8]) -> Result<(ElectsView<'a>, &'a [u8]), Fault>
        requires { Within bounds widest }
        ensures { Gives (λ x. (elects_of x.0, x.1.now)) result (words_at bounds bytes.now) }
    {
        let (count, rest) = byte(bytes)?;
        ElectsView::read_some(bounds, count, rest)
    }

    /// So many words, one after the other.
    fn read_some(
        bounds: Bounds,
        count: u8,
        bytes: &'a [u8],
    ) -> Result<(ElectsView<'a>, &'a [u8]), Fault>
        requires { Within bounds widest }
        ensures { Gives (λ x. (elects_of x.0, x.1.now)) result
            (items_at (word_at bounds) after_word count 0 bytes.now) }
    {
        let mut rest = bytes;
        let mut floor = 0u16;
        let mut usual = 0usize;
        for _ in 0..count {
            let (item, after) = ElectItem::read(bounds, floor, usual, rest)?;
            floor = item.replica as u16 + 1;
            usual = item.signature.len();
            rest = after;
        }
        Ok((
            ElectsView::new(count, &bytes[..bytes.len() - rest.len()]),
            rest,
        ))
    }

    /// The number of items.
    pub fn len(&self) -> usize
        ensures { result ≡ length (elects_of self.now) }
    {
        self.count as usize
    }

    /// The word at a place, from 0. None exactly past the end.
    pub fn at(&self, place: usize) -> Option<ElectItem<'a>>
        ensures { option_map elect_of result ≡ slice_get (elects_of self.now) place }
    {
        let mut floor = 0u16;
        let mut usual = 0usize;
        let mut rest = self.bytes;
        for i in 0..self.count {
            match ElectItem::read(WIDEST, floor, usual, rest) {
                Ok((item, after)) => {
                    if i as usize == place {
                        return Some(item);
                    }
                    floor = item.replica as u16 + 1;
                    usual = item.signature.len();
                    rest = after;
                }
                Err(_) => return None,
            }
        }
        None
    }

    /// The bytes behind the number of items, and that number: together the spelling of the list.
    pub fn spelled(&self) -> (u8, &'a [u8])
        ensures { result.0 ∷ result.1.now ≡ counted word_bytes (elects_of self.now) }
    {
        (self.count, in_range(self.bytes))
    }

    /// The words one after the other.
    pub fn iter(&self) -> ElectsIter<'a>
        ensures { elects_left result ≡ elects_of self.now }
    {
        ElectsIter {
            left: self.count,
            floor: 0,
            usual: 0,
            rest: self.bytes,
        }
    }
}

impl<'a> Iterator for ElectsIter<'a> {
    type Item = ElectItem<'a>;

    ghost use Rattle.std.specs.Iterator.{YieldsFirstBy, item_count};
    ghost use Rattle.frame_views.specs.Items.{elect_of, elects_left};

    ghost next_gives = { YieldsFirstBy elect_of elects_left };

    ghost remaining = { item_count elects_left };

    fn next(&mut self) -> Option<ElectItem<'a>> {
        if self.left == 0 {
            return None;
        }
        match ElectItem::read(WIDEST, self.floor, self.usual, self.rest) {
            Ok((item, after)) => {
                self.left -= 1;
                self.floor = item.replica as u16 + 1;
                self.usual = item.signature.len();
                self.rest = after;
                Some(item)
            }
            Err(_) => unreachable!(),
        }
    }
}

//! Votes by shards, in borrowed bytes.

ghost use Rattle.std.specs.Prelude.{IsTrue};
ghost use Rattle.basil_types.specs.Lists.{items_at, is_whole};
ghost use Rattle.frame_views.specs.Fitting.{widest, after_tally};
ghost use Rattle.frame_views.specs.Grammar.{tally_at};
ghost use Rattle.frame_views.specs.Lists.{spells_tallies, tallies_in};

use super::votes::VotesView;
use crate::bounds::{Bounds, WIDEST};
use crate::fields::next_number;
use basil_types::reading::{Fault, byte, in_range};

/// The votes of one shard.
#[derive(Clone, Copy)]
pub struct ShardItem<'a> {
    pub shard: u8,
    pub votes: VotesView<'a>,
}

/// Tallies in bytes that were checked, ascending strictly by shard.
#[derive(Clone, Copy)]
pub struct TalliesView<'a> {
    count: u8,
    bytes: &'a [u8],
    ghost whole: { IsTrue (spells_tallies count bytes.now) },
}

/// The tallies that are left of a list, one after the other.
#[derive(Drop)]
pub struct TalliesIter<'a> {
    left: u8,
    floor: u16,
    rest: &'a [u8],
    ghost whole: { IsTrue (is_whole (items_at (tally_at widest) after_tally left floor rest.now)) },
}

impl<'a> ShardItem<'a> {
    ghost use Rattle.std.specs.Prelude.{◌≡◌};
    ghost use Rattle.basil_types.specs.Steps.{Gives};
    ghost use Rattle.frame_views.specs.Fitting.{Within};
    ghost use Rattle.frame_views.specs.Items.{tally_of};

    /// One shard whose shard is at least `floor`.
    #[tactic(auto, unfolding(crate::specs::Grammar::tally_at))]
    pub(super) fn read(
        bounds: Bounds,
        floor: u16,
        bytes: &'a [u8],
    ) -> Result<(ShardItem<'a>, &'a [u8]), Fault>
        requires { Within bounds widest }
        ensures { Gives (λ x. (tally_of x.0, x.1.now)) result (tally_at bounds floor bytes.now) }
    {
        let (shard, rest) = next_number(bounds.shards, floor, bytes)?;
        let (votes, rest) = VotesView::read(bounds, rest)?;
        Ok((ShardItem { shard, votes }, rest))
    }
}

impl<'a> TalliesView<'a> {
    ghost use Rattle.std.specs.Prelude.{◌≡◌, length, option_map, slice_get};
    ghost use Rattle.std.specs.Prelude.{◌∷◌};
    ghost use Rattle.frame_views.specs.Spelling.{counted, tally_bytes};
    ghost use Rattle.basil_types.specs.Steps.{Gives};
    ghost use Rattle.frame_views.specs.Fitting.{Within};
    ghost use Rattle.frame_views.specs.Grammar.{tallies_at};
    ghost use Rattle.frame_views.specs.Items.{tally_of, tallies_of, tallies_left};

    /// So many items, which these bytes spell.
    pub(crate) fn new(count: u8, bytes: &'a [u8]) -> TalliesView<'a>
        requires { IsTrue (spells_tallies count bytes.now) }
        ensures { tallies_of result ≡ tallies_in count bytes.now }
    {
        TalliesView { count, bytes }
    }

    /// Tallies behind their number.
    #[tactic(auto, unfolding(crate::specs::Grammar::tallies_at))]
    pub(crate) fn read(
        bounds: Bounds,
        bytes: &'a [u8],
    ) -> Result<(TalliesView<'a>, &'a [u8]), Fault>
        requires { Within bounds widest }
        ensures { Gives (λ x. (tallies_of x.0, x.1.now)) result (tallies_at bounds bytes.now) }
    {
        let (count, rest) = byte(bytes)?;
        TalliesView::read_some(bounds, count, rest)
    }

    /// So many tallies, one after the other.
    fn read_some(
        bounds: Bounds,
        count: u8,
        bytes: &'a [u8],
    ) -> Result<(TalliesView<'a>, &'a [u8]), Fault>
        requires { Within bounds widest }
        ensures { Gives (λ x. (tallies_of x.0, x.1.now)) result
            (items_at (tally_at bounds) after_tally count 0 bytes.now) }
    {
        let mut rest = bytes;
        let mut floor = 0u16;
        for _ in 0..count {
            let (item, after) = ShardItem::read(bounds, floor, rest)?;
            floor = item.shard as u16 + 1;
            rest = after;
        }
        Ok((
            TalliesView::new(count, &bytes[..bytes.len() - rest.len()]),
            rest,
        ))
    }

    /// The number of items.
    pub fn len(&self) -> usize
        ensures { result ≡ length (tallies_of self.now) }
    {
        self.count as usize
    }

    /// The shard at a place, from 0. None exactly past the end.
    pub fn at(&self, place: usize) -> Option<ShardItem<'a>>
        ensures { option_map tally_of result ≡ slice_get (tallies_of self.now) place }
    {
        let mut floor = 0u16;
        let mut rest = self.bytes;
        for i in 0..self.count {
            match ShardItem::read(WIDEST, floor, rest) {
                Ok((item, after)) => {
                    if i as usize == place {
                        return Some(item);
                    }
                    floor = item.shard as u16 + 1;
                    rest = after;
                }
                Err(_) => return None,
            }
        }
        None
    }

    /// The bytes behind the number of items, and that number: together the spelling of the list.
    pub fn spelled(&self) -> (u8, &'a [u8])
        ensures { result.0 ∷ result.1.now ≡ counted tally_bytes (tallies_of self.now) }
    {
        (self.count, in_range(self.bytes))
    }

    /// The tallies one after the other.
    pub fn iter(&self) -> TalliesIter<'a>
        ensures { tallies_left result ≡ tallies_of self.now }
    {
        TalliesIter {
            left: self.count,
            floor: 0,
            rest: self.bytes,
        }
    }
}

impl<'a> TalliesIter<'a> {
    ghost use Rattle.std.specs.Prelude.{◌≡◌, []};
    ghost use Rattle.frame_views.specs.Items.{tallies_left};

    /// Nothing left.
    #[tactic(auto, unfolding(basil_types::specs::Lists::items_at))]
    pub(crate) fn none() -> TalliesIter<'a>
        ensures { tallies_left result ≡ [] }
    {
        TalliesIter {
            left: 0,
            floor: 0,
            rest: &[],
        }
    }
}

impl<'a> Iterator for TalliesIter<'a> {
    type Item = ShardItem<'a>;

    ghost use Rattle.std.specs.Iterator.{YieldsFirstBy, item_count};
    ghost use Rattle.frame_views.specs.Items.{tally_of, tallies_left};

    ghost next_gives = { YieldsFirstBy tally_of tallies_left };

    ghost remaining = { item_count tallies_left };

    fn next(&mut self) -> Option<ShardItem<'a>> {
        if self.left == 0 {
            return None;
        }
        match ShardItem::read(WIDEST, self.floor, self.rest) {
            Ok((item, after)) => {
                self.left -= 1;
                self.floor = item.shard as u16 + 1;
                self.rest = after;
                Some(item)
            }
            Err(_) => unreachable!(),
        }
    }
}

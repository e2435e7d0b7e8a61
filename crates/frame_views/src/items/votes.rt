//! Votes of replicas, in borrowed bytes.

ghost use Rattle.std.specs.Prelude.{IsTrue};
ghost use Rattle.basil_types.specs.Lists.{items_at, is_whole};
ghost use Rattle.frame_views.specs.Fitting.{widest, after_vote};
ghost use Rattle.frame_views.specs.Grammar.{vote_at};
ghost use Rattle.frame_views.specs.Lists.{spells_votes, votes_in};

use crate::bounds::{Bounds, WIDEST};
use crate::fields::{next_number, signature_like};
use basil_types::reading::{Fault, byte};

/// A vote in a list: the replica and its signature.
#[derive(Clone, Copy)]
pub struct VoteItem<'a> {
    pub replica: u8,
    /// 1 to `SIGNATURE_LIMIT` bytes.
    pub signature: &'a [u8],
}

/// Votes in bytes that were checked, ascending strictly by replica.
#[derive(Clone, Copy)]
pub struct VotesView<'a> {
    count: u8,
    bytes: &'a [u8],
    ghost whole: { IsTrue (spells_votes count bytes.now) },
}

/// The votes that are left of a list, one after the other.
#[derive(Drop)]
pub struct VotesIter<'a> {
    left: u8,
    floor: u16,
    /// The length of the signature before.
    usual: usize,
    rest: &'a [u8],
    ghost whole: { IsTrue (is_whole (items_at (vote_at widest) after_vote left floor rest.now)) },
}

impl<'a> VoteItem<'a> {
    ghost use Rattle.std.specs.Prelude.{◌≡◌};
    ghost use Rattle.basil_types.specs.Steps.{Gives};
    ghost use Rattle.frame_views.specs.Fitting.{Within};
    ghost use Rattle.frame_views.specs.Items.{vote_of};

    /// One vote whose replica is at least `floor`.
    #[tactic(auto, unfolding(crate::specs::Grammar::vote_at))]
    pub(super) fn read(
        bounds: Bounds,
        floor: u16,
        usual: usize,
        bytes: &'a [u8],
    ) -> Result<(VoteItem<'a>, &'a [u8]), Fault>
        ensures { Gives (λ x. (vote_of x.0, x.1.now)) result (vote_at bounds floor bytes.now) }
    {
        let (replica, rest) = next_number(bounds.replicas, floor, bytes)?;
        let (signature, rest) = signature_like(usual, rest)?;
        Ok((VoteItem { replica, signature }, rest))
    }
}

impl<'a> VotesView<'a> {
    ghost use Rattle.std.specs.Prelude.{◌≡◌, length, option_map, slice_get};
    ghost use Rattle.basil_types.specs.Steps.{Gives};
    ghost use Rattle.frame_views.specs.Fitting.{Within};
    ghost use Rattle.frame_views.specs.Grammar.{votes_at};
    ghost use Rattle.frame_views.specs.Items.{vote_of, votes_of, votes_left};

    /// So many items, which these bytes spell.
    pub(crate) fn new(count: u8, bytes: &'a [u8]) -> VotesView<'a>
        requires { IsTrue (spells_votes count bytes.now) }
        ensures { votes_of result ≡ votes_in count bytes.now }
    {
        VotesView { count, bytes }
    }

    /// Votes behind their number.
    #[tactic(auto, unfolding(crate::specs::Grammar::votes_at))]
    pub(crate) fn read(bounds: Bounds, bytes: &'a [u8]) -> Result<(VotesView<'a>, &'a [u8]), Fault>
        requires { Within bounds widest }
        ensures { Gives (λ x. (votes_of x.0, x.1.now)) result (votes_at bounds bytes.now) }
    {
        let (count, rest) = byte(bytes)?;
        VotesView::read_some(bounds, count, rest)
    }

    /// So many votes, one after the other.
    fn read_some(
        bounds: Bounds,
        count: u8,
        bytes: &'a [u8],
    ) -> Result<(VotesView<'a>, &'a [u8]), Fault>
        requires { Within bounds widest }
        ensures { Gives (λ x. (votes_of x.0, x.1.now)) result (items_at (vote_at bounds) after_vote count 0 bytes.now) }
    {
        let mut rest = bytes;
        let mut floor = 0u16;
        let mut usual = 0usize;
        for _ in 0..count {
            let (item, after) = VoteItem::read(bounds, floor, usual, rest)?;
            floor = item.replica as u16 + 1;
            usual = item.signature.len();
            rest = after;
        }
        Ok((
            VotesView::new(count, &bytes[..bytes.len() - rest.len()]),
            rest,
        ))
    }

    /// The number of items.
    pub fn len(&self) -> usize
        ensures { result ≡ length (votes_of self.now) }
    {
        self.count as usize
    }

    /// The vote at a place, from 0. None exactly past the end.
    pub fn at(&self, place: usize) -> Option<VoteItem<'a>>
        ensures { option_map vote_of result ≡ slice_get (votes_of self.now) place }
    {
        let mut floor = 0u16;
        let mut usual = 0usize;
        let mut rest = self.bytes;
        for i in 0..self.count {
            match VoteItem::read(WIDEST, floor, usual, rest) {
                Ok((item, after)) => {
                    if i as usize == place {
                        return Some(item);
                    }
                    floor = item.replica as u16 + 1;
                    usual = item.signature.len();
                    rest = after;
                }
                Err(_) => return None,
            }
        }
        None
    }

    /// The votes one after the other.
    pub fn iter(&self) -> VotesIter<'a>
        ensures { votes_left result ≡ votes_of self.now }
    {
        VotesIter {
            left: self.count,
            floor: 0,
            usual: 0,
            rest: self.bytes,
        }
    }
}

impl<'a> VotesIter<'a> {
    ghost use Rattle.std.specs.Prelude.{◌≡◌, []};
    ghost use Rattle.frame_views.specs.Items.{votes_left};

    /// Nothing left.
    #[tactic(auto, unfolding(basil_types::specs::Lists::items_at))]
    pub(crate) fn none() -> VotesIter<'a>
        ensures { votes_left result ≡ [] }
    {
        VotesIter {
            left: 0,
            floor: 0,
            usual: 0,
            rest: &[],
        }
    }
}

impl<'a> Iterator for VotesIter<'a> {
    type Item = VoteItem<'a>;

    ghost use Rattle.std.specs.Iterator.{YieldsFirstBy, item_count};
    ghost use Rattle.frame_views.specs.Items.{vote_of, votes_left};

    ghost next_gives = { YieldsFirstBy vote_of votes_left };

    ghost remaining = { item_count votes_left };

    fn next(&mut self) -> Option<VoteItem<'a>> {
        if self.left == 0 {
            return None;
        }
        match VoteItem::read(WIDEST, self.floor, self.usual, self.rest) {
            Ok((item, after)) => {
                self.left -= 1;
                self.floor = item.replica as u16 + 1;
                self.usual = item.signature.len();
                self.rest = after;
                Some(item)
            }
            Err(_) => unreachable!(),
        }
    }
}

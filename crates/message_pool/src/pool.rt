//! The pool of a run.

ghost use Rattle.std.specs.Prelude.{◌≡◌, ℕ, ◌+◌, ◌-◌, ◌<◌, ◌≤◌, ◌++◌, ◌∷◌, ◌&&◌, [], true, false, Some, OnErr};
ghost use Rattle.std.specs.Prelude.{OnOk, drop, length, nat_le, option_map, position, slice_get, slice_set};
ghost use Rattle.message_pool.specs.declared.posted.Fate.TheVariants as fates;
ghost use Rattle.message_pool.specs.declared.posted.Posted.{Posted};
ghost use Rattle.message_pool.specs.Posts as pools;
ghost use Rattle.message_pool.specs.Posts.{have_passed, is_waiting, pool_bytes, sent};

use crate::posted::{Fate, Posted};
use basil_types::bytes::Bytes;
use basil_types::memory::NoMemory;
use basil_types::party::Party;
use std::alloc::Global;
use std::marker::Model;

/// How many messages, and how many bytes of their frames.
#[derive(Clone, Copy)]
pub struct Room {
    pub messages: u64,
    pub bytes: u64,
}

impl Room {
    /// Whether so many messages, with so many bytes together, have room.
    pub fn has(&self, messages: u64, bytes: u64) -> bool
        ensures { result ≡ (nat_le messages self.now.messages && nat_le bytes self.now.bytes) }
    {
        messages <= self.messages && bytes <= self.bytes
    }
}

/// Every message that was sent, numbered from 1, within the limits of the pool.
#[derive(Drop)]
pub struct Pool {
    posts: Vec<Posted>,
    limits: Room,
    // How many bytes still enter.
    left: u64,
    // None of so many first messages waits.
    passed: usize,
    ghost few: { length posts.items ≤ limits.messages },
    ghost counted: { left + pool_bytes posts.items ≡ limits.bytes },
    ghost passes: { have_passed passed posts.items ≡ true },
    ghost among: { passed ≤ length posts.items },
}

impl Model for Pool {
    ghost use Rattle.message_pool.specs.Posts.{PoolValue};

    ghost Value = { PoolValue };

    ghost view = { λ p. record { posts = p.posts.items; limits = p.limits } };
}

/// The place of the first message that waits.
fn first_waiting(posts: &[Posted]) -> Option<usize>
    ensures { result ≡ position (λ (p : Posted). is_waiting p.fate) posts.now }
{
    posts.iter().position(|p| p.waits())
}

/// The place of the first message from this place on that waits.
fn waiting_in(posts: &[Posted], start: usize) -> Option<usize>
    ensures { result ≡ option_map (λ place. start + place)
        (position (λ (p : Posted). is_waiting p.fate) (drop start posts.now)) }
{
    if posts.len() < start {
        return None;
    }
    match first_waiting(&posts[start..]) {
        Some(place) => Some(start + place),
        None => None,
    }
}

/// The number of the first message behind so many that waits.
fn number_in(posts: &[Posted], before: usize) -> Option<u64>
    ensures { result ≡ pools.waiting_behind before posts.now }
{
    match waiting_in(posts, before) {
        Some(place) => Some(place as u64 + 1),
        None => None,
    }
}

/// How many first messages don't wait, where none of so many does.
fn passed_from(posts: &[Posted], passed: usize) -> usize
    requires passed { have_passed passed posts.now ≡ true }
    requires few { passed ≤ length posts.now }
    ensures passes { have_passed result posts.now ≡ true }
    ensures among { result ≤ length posts.now }
{
    match waiting_in(posts, passed) {
        Some(place) => place,
        None => posts.len(),
    }
}

/// Something else becomes of the message at this place.
fn set_fate(posts: &mut [Posted], place: usize, fate: Fate)
    requires { place < length posts.old }
    ensures set { (p : Posted) → slice_get posts.old place ≡ Some p →
        posts.new ≡ slice_set posts.old place (record p { fate = fate }) }
    ensures count { length posts.new ≡ length posts.old }
    ensures bytes { pool_bytes posts.new ≡ pool_bytes posts.old }
    ensures passes { (count : ℕ) → is_waiting fate ≡ false → have_passed count posts.old ≡ true →
        have_passed count posts.new ≡ true }
{
    posts[place].fate = fate;
}

/// What a message comes to once it is lost.
fn lost(fate: Fate) -> Fate
    ensures exact { result ≡ pools.lost fate }
    ensures passed { is_waiting result ≡ false }
{
    match fate {
        Fate::Waiting => Fate::Lost,
        Fate::Delivered => Fate::Delivered,
        Fate::Lost => Fate::Lost,
    }
}

/// The message at this place is lost, if it waits.
fn lose_in(posts: &mut [Posted], place: usize)
    requires { place < length posts.old }
    ensures set { (p : Posted) → slice_get posts.old place ≡ Some p →
        posts.new ≡ slice_set posts.old place (record p { fate = pools.lost p.fate }) }
    ensures count { length posts.new ≡ length posts.old }
    ensures bytes { pool_bytes posts.new ≡ pool_bytes posts.old }
    ensures passes { (count : ℕ) → have_passed count posts.old ≡ true → have_passed count posts.new ≡ true }
{
    let fate = lost(posts[place].fate);
    set_fate(posts, place, fate);
}

impl Pool {
    /// A pool without messages, for at most so many, with so many bytes of their frames.
    pub fn new(alloc: Global, limits: Room) -> Pool
        ensures posts { result.posts ≡ [] }
        ensures limits { result.limits ≡ limits }
    {
        Pool {
            posts: Vec::new(alloc),
            limits,
            left: limits.bytes,
            passed: 0,
        }
    }

    /// How many messages it has.
    pub fn len(&self) -> u64
        ensures { result ≡ length self.now.posts }
    {
        self.posts.len() as u64
    }

    /// How many bytes the frames of its messages have.
    pub fn bytes(&self) -> u64
        ensures { result ≡ pool_bytes self.now.posts }
    {
        self.limits.bytes - self.left
    }

    /// What still enters.
    pub fn room(&self) -> Room
        ensures messages { result.messages + length self.now.posts ≡ self.now.limits.messages }
        ensures bytes { result.bytes + pool_bytes self.now.posts ≡ self.now.limits.bytes }
    {
        Room {
            messages: self.limits.messages - self.posts.len() as u64,
            bytes: self.left,
        }
    }

    /// The message of a number, from 1 on.
    pub fn at(&self, number: u64) -> Option<&Posted>
        ensures { option_map (λ p. p.now) result ≡ pools.posted_at self.now.posts number }
    {
        if number == 0 {
            None
        } else {
            self.posts.get((number - 1) as usize)
        }
    }

    /// The least number, of this and later ones, of a message that is neither delivered nor lost.
    pub fn next_waiting(&self, from: u64) -> Option<u64>
        ensures { result ≡ pools.next_waiting from self.now.posts }
    {
        let before = from.saturating_sub(1) as usize;
        if before < self.passed {
            number_in(&self.posts, self.passed)
        } else {
            number_in(&self.posts, before)
        }
    }

    /// A message for which there is room enters, and waits; or memory is wanting, and the pool is as before.
    pub fn enter(&mut self, from: Party, to: Party, frame: Bytes) -> Result<(), NoMemory>
        requires few { length self.old.posts < self.old.limits.messages }
        requires small { pool_bytes self.old.posts + length frame ≤ self.old.limits.bytes }
        ensures posts { OnOk result (self.new.posts ≡ self.old.posts ++ sent from to frame ∷ []) }
        ensures as_before { OnErr result (self.new ≡ self.old) }
        ensures limits { self.new.limits ≡ self.old.limits }
    {
        self.posts.reserve(1)?;
        self.left -= frame.as_slice().len() as u64;
        self.posts.push_reserved(Posted {
            from,
            to,
            frame,
            fate: Fate::Waiting,
        });
        Ok(())
    }

    /// A message is delivered: rounds pass over it from now on.
    pub fn deliver(&mut self, number: u64)
        requires from { 1 ≤ number }
        requires to { number ≤ length self.old.posts }
        ensures posts { (p : Posted) → pools.posted_at self.old.posts number ≡ Some p →
            self.new.posts ≡ slice_set self.old.posts (number - 1) (record p { fate = fates.Delivered }) }
        ensures limits { self.new.limits ≡ self.old.limits }
    {
        let place = (number - 1) as usize;
        set_fate(&mut self.posts, place, Fate::Delivered);
        self.passed = passed_from(&self.posts, self.passed);
    }

    /// A message that waits is lost: rounds pass over it from now on. One that was delivered stays so.
    pub fn lose(&mut self, number: u64)
        requires from { 1 ≤ number }
        requires to { number ≤ length self.old.posts }
        ensures posts { (p : Posted) → pools.posted_at self.old.posts number ≡ Some p →
            self.new.posts ≡ slice_set self.old.posts (number - 1) (record p { fate = pools.lost p.fate }) }
        ensures limits { self.new.limits ≡ self.old.limits }
    {
        let place = (number - 1) as usize;
        lose_in(&mut self.posts, place);
        self.passed = passed_from(&self.posts, self.passed);
    }
}

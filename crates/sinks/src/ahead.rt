//! Threads that make the texts of parts before they are written.
ghost use Rattle.std.specs.Prelude.{◌≡◌, ◌+◌, ◌<◌, ◌≤◌, ◌^◌, IfOk, IfSome, length};
ghost use Rattle.sinks.specs.Followed.{Follow};
ghost use Rattle.sinks.specs.TextParts.{are_texts, texts_in};

use crate::parts::Parts;
use crate::shares::{Begun, Made, Share, make_share};
use std::alloc::Global;
use std::collections::VecDeque;
use std::thread::{Scope, Threads};

/// Threads that make the texts of the parts from `done` on, in order, up to `next`, behind which no part is begun.
#[derive(Drop)]
pub(crate) struct Ahead<'a, P: Parts> {
    parts: &'a P,
    threads: VecDeque<Begun<'a, P>>,
    pub(crate) done: usize,
    pub(crate) next: usize,
}

impl<'a, P: Parts> Ahead<'a, P> {
    /// None yet, and room for `threads` of them, if there is memory.
    pub(crate) fn new(alloc: Global, parts: &'a P, threads: usize) -> Self
        ensures parts { result.parts.now ≡ parts.now }
        ensures follow { Follow parts.now result.done result.threads.items result.next }
        ensures none { (result.done ≡ 0) × (result.next ≡ 0) }
    {
        let room = VecDeque::with_capacity(alloc, threads);
        Ahead {
            parts,
            threads: room.unwrap_or(VecDeque::new(alloc)),
            done: 0,
            next: 0,
        }
    }

    /// Starts threads, each for `step` of `all` parts, as long as there is room for them.
    pub(crate) fn start<E>(&mut self, scope: &Scope<'a, E>, alloc: Global, step: usize, all: usize)
        requires step { 0 < step }
        requires all { (all ≡ length (P.texts self.old.parts.now)) × (all < 2 ^ 24) }
        requires follow { Follow self.old.parts.now self.old.done self.old.threads.items self.old.next }
        requires within { self.old.next ≤ all }
        ensures parts { self.new.parts.now ≡ self.old.parts.now }
        ensures follow { Follow self.new.parts.now self.new.done self.new.threads.items self.new.next }
        ensures done { self.new.done ≡ self.old.done }
        ensures within { self.new.next ≤ all }
    {
        while self.next < all && self.threads.len() < self.threads.capacity() {
            if self.start_one(scope, alloc, step, all).is_none() {
                break;
            }
        }
    }

    /// Starts a thread for the next `step` of `all` parts. It doesn't if none can be made.
    fn start_one<E>(
        &mut self,
        scope: &Scope<'a, E>,
        alloc: Global,
        step: usize,
        all: usize,
    ) -> Option<()>
        requires step { 0 < step }
        requires all { (all ≡ length (P.texts self.old.parts.now)) × (all < 2 ^ 24) }
        requires follow { Follow self.old.parts.now self.old.done self.old.threads.items self.old.next }
        requires within { self.old.next < all }
        ensures parts { self.new.parts.now ≡ self.old.parts.now }
        ensures follow { Follow self.new.parts.now self.new.done self.new.threads.items self.new.next }
        ensures done { self.new.done ≡ self.old.done }
        ensures within { self.new.next ≤ all }
        ensures more { IfSome result (λ _. self.old.next < self.new.next) }
    {
        let (parts, first) = (self.parts, self.next);
        let count = step.min(all - first);
        let share = Share {
            parts,
            first,
            count,
        };
        let make = move || -> Made
            requires within { first + count ≤ length (P.texts parts.now) }
            requires few { length (P.texts parts.now) < 2 ^ 24 }
            ensures { IfOk result (λ texts.
                are_texts texts.items ≡ texts_in (P.texts parts.entry.now) first count) }
        { make_share(alloc, parts, first, count) };
        let Ok(thread) = scope.spawn_with(share, make) else {
            return None;
        };
        let Ok(()) = self.threads.push_back(Begun { thread, count }) else {
            return None;
        };
        self.next = first + count;
        Some(())
    }

    /// The texts of the next parts, and how many these are. The caller makes those of one if no thread makes them.
    pub(crate) fn take<R: Threads>(&mut self, rt: &R, alloc: Global, all: usize) -> (usize, Made)
        requires all { (all ≡ length (P.texts self.old.parts.now)) × (all < 2 ^ 24) }
        requires follow { Follow self.old.parts.now self.old.done self.old.threads.items self.old.next }
        requires some { self.old.done < all }
        requires within { self.old.next ≤ all }
        ensures parts { self.new.parts.now ≡ self.old.parts.now }
        ensures follow { Follow self.new.parts.now self.new.done self.new.threads.items self.new.next }
        ensures done { self.new.done ≡ self.old.done + result.0 }
        ensures some { 0 < result.0 }
        ensures within { (self.new.done ≤ all) × (self.new.next ≤ all) }
        ensures made { IfOk result.1 (λ texts.
            are_texts texts.items ≡ texts_in (P.texts self.old.parts.now) self.old.done result.0) }
    {
        let first = self.done;
        match self.threads.pop_front() {
            Some(Begun { thread, count }) => {
                self.done = first + count;
                (count, thread.join(rt))
            }
            None => {
                self.done = first + 1;
                self.next = first + 1;
                (1, make_share(alloc, self.parts, first, 1))
            }
        }
    }
}

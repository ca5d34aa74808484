ghost use Rattle.std.specs.{Prelude.{◌≡◌, ◌≤◌, ◌+◌, ◌-◌, ◌^◌, ◌==◌, min, true, false}, Vec.vec_capacity};
ghost use Rattle.slab.specs.Slab.{slab_len};
ghost use Rattle.office_http.specs.{Held.most_held, Lines.{held_by, IsAdded}};

use crate::held::{MOST_HELD, widen};
use crate::line::{Line, Ready};
use crate::site::Site;
use mio::Registry;
use slab::Slab;
use std::alloc::{AllocError, Global};
use std::mem::replace;
use std::time::{Duration, Instant};

/// How many connections are open at once, at most.
pub(crate) const MOST_OPEN: usize = 256;

/// How many milliseconds old a connection is at least when it gives way to another.
const GRACE: u64 = 100;

/// How long it may take till one is old enough to give way to another.
pub(crate) fn grace() -> Duration {
    Duration::from_millis(GRACE)
}

/// How many bytes are read at once, at most.
const BUFFER: usize = 65_536;

/// Which connection is sought to be given up.
#[derive(Clone, Copy)]
enum Sought {
    /// One that holds bytes, but not that of this key.
    Holding(Option<usize>),
    /// One that is old enough to give way, by that moment.
    Aged(Instant),
}

/// The connections that are open, side by side.
#[derive(Drop)]
pub(crate) struct Lines {
    alloc: Global,
    slots: Slab<Line>,
    /// By way of which all are read.
    buffer: Vec<u8>,
}

impl Lines {
    /// None is open.
    pub(crate) fn new(alloc: Global) -> Result<Lines, AllocError> {
        Ok(Lines {
            alloc,
            slots: Slab::new(alloc),
            buffer: vec![in alloc; 0; BUFFER]?,
        })
    }

    /// How many are open.
    pub(crate) fn len(&self) -> usize
        ensures { result ≡ slab_len self.now.slots }
    {
        self.slots.len()
    }

    /// Whether none is open.
    pub(crate) fn is_empty(&self) -> bool
        ensures { result ≡ (slab_len self.now.slots == 0) }
    {
        self.slots.is_empty()
    }

    /// One more is open. False: memory is refused, and it is closed.
    pub(crate) fn add(&mut self, line: Line) -> bool
        ensures added { result ≡ true → IsAdded line self.old.slots self.new.slots }
        ensures refused { result ≡ false → self.new.slots.slots ≡ self.old.slots.slots }
    {
        match self.slots.insert(line) {
            Ok(_) => true,
            Err(_) => false,
        }
    }

    /// Something has changed at the socket of a key.
    pub(crate) fn wake(&mut self, key: usize) {
        if let Some(line) = self.slots.get_mut(key) {
            line.wake();
        }
    }

    /// Takes the one out that was accepted first of those that can be served.
    pub(crate) fn take_ready(&mut self) -> Option<Ready> {
        let key = self.first_ready()?;
        match self.slots.try_remove(key)? {
            Line::Ready(ready) => Some(ready),
            _ => None,
        }
    }

    /// Of those that can be served the one that was accepted first.
    fn first_ready(&self) -> Option<usize> {
        let mut found: Option<(u32, usize)> = None;
        for key in 0..self.slots.capacity() {
            if let Some(Line::Ready(ready)) = self.slots.get(key) {
                found = match found {
                    Some(first) if first.0 <= ready.place() => found,
                    _ => Some((ready.place(), key)),
                };
            }
        }
        match found {
            Some((_, key)) => Some(key),
            None => None,
        }
    }

    /// How long nothing has to be done for any. None: none is open.
    pub(crate) fn left(&self, now: Instant) -> Option<Duration> {
        let mut least = None;
        for key in 0..self.slots.capacity() {
            if let Some(line) = self.slots.get(key) {
                let left = line.left(now);
                least = Some(match least {
                    Some(least) => left.min(least),
                    None => left,
                });
            }
        }
        least
    }

    /// Has each connection read and write what it can. One that took too long by the moment when the system was last asked is
    /// given up: what has come since isn't known.
    pub(crate) fn advance(
        &mut self,
        site: &Site,
        registry: &Registry,
        now: Instant,
        heard: Instant,
    ) {
        for key in 0..self.slots.capacity() {
            let is_due = match self.slots.get(key) {
                Some(line) => line.left(heard).is_zero(),
                None => false,
            };
            if is_due {
                self.widen_one(key);
                self.advance_one(key, site, registry, now, heard);
            }
        }
    }

    /// Has one read and write what it can.
    fn advance_one(
        &mut self,
        key: usize,
        site: &Site,
        registry: &Registry,
        now: Instant,
        heard: Instant,
    ) {
        let alloc = self.alloc;
        let Some(slot) = self.slots.get_mut(key) else {
            return;
        };
        let buffer = self.buffer.as_mut_slice();
        let mut line = replace(slot, Line::Over).advanced(alloc, site, buffer, now, heard);
        if line.watch(registry, key).is_err() {
            line = line.given_up(alloc);
        }
        let is_over = matches!(line, Line::Over);
        *slot = line;
        if is_over {
            let _ = self.slots.try_remove(key);
        }
    }

    /// Has more held of one, if it wants that and the bound of all allows it.
    fn widen_one(&mut self, key: usize) {
        let Some(size) = self.wider(key) else {
            return;
        };
        if self.make_room(Some(key), size, 0) {
            let held = self.held();
            if let Some(line) = self.slots.get_mut(key) {
                line.widen(size, held);
            }
        }
    }

    /// How many bytes the one of a key wants to be held.
    fn wider(&self, key: usize) -> Option<usize> {
        match self.slots.get(key) {
            Some(line) => line.wider(),
            None => None,
        }
    }

    /// Widens what is held beside them to `size` bytes, where `beside` are held besides. False, if the bound of all doesn't allow
    /// that or memory is refused.
    pub(crate) fn widen(&mut self, bytes: &mut Vec<u8>, size: usize, beside: usize) -> bool
        ensures items { bytes.new.items ≡ bytes.old.items }
        ensures bound { result ≡ true
            → held_by self.new.slots + beside + vec_capacity bytes.old + size ≤ most_held }
        ensures room { result ≡ true → size ≤ vec_capacity bytes.new }
        ensures refused { result ≡ false → vec_capacity bytes.new ≡ vec_capacity bytes.old }
    {
        let beside = beside.saturating_add(bytes.capacity());
        self.make_room(None, size, beside) && widen(bytes, size, self.held().saturating_add(beside))
    }

    /// Gives up those that have been silent longest, but not that one, till `size` bytes more may be held. False: no other holds
    /// any.
    fn make_room(&mut self, except: Option<usize>, size: usize, beside: usize) -> bool
        ensures { result ≡ true → size ≤ most_held - (held_by self.new.slots + beside) }
    {
        'others: for _ in 0..=MOST_OPEN {
            let held = self.held().saturating_add(beside);
            if size <= MOST_HELD.saturating_sub(held) {
                return true;
            }
            if !self.give_up(Sought::Holding(except)) {
                return false;
            }
        }
        false
    }

    /// How many bytes are held.
    #[tactic(auto, using(crate::proofs::HeldLemmas::held_more, crate::proofs::HeldLemmas::held_all))]
    fn held(&self) -> usize
        ensures { result ≡ min (held_by self.now.slots) (2 ^ 64 - 1) }
    {
        let mut held: usize = 0;
        'keys: for key in 0..self.slots.capacity() {
            if let Some(line) = self.slots.get(key) {
                held = held.saturating_add(line.held());
            }
        }
        held
    }

    /// Gives the one up that has been silent longest, of those that were old enough at that moment.
    pub(crate) fn give_way(&mut self, heard: Instant) {
        let _ = self.give_up(Sought::Aged(heard));
    }

    /// Gives the one up that has been silent longest of those that are sought. False: there is none.
    fn give_up(&mut self, sought: Sought) -> bool {
        let alloc = self.alloc;
        let Some(key) = self.most_silent(sought) else {
            return false;
        };
        let Some(slot) = self.slots.get_mut(key) else {
            return false;
        };
        let line = replace(slot, Line::Over).given_up(alloc);
        let is_over = matches!(line, Line::Over);
        *slot = line;
        if is_over {
            let _ = self.slots.try_remove(key);
        }
        true
    }

    /// The one that has been silent longest of those that are sought.
    fn most_silent(&self, sought: Sought) -> Option<usize> {
        let mut found: Option<(Instant, usize)> = None;
        for key in 0..self.slots.capacity() {
            if let Some(line) = self.slots.get(key) {
                if let Some(moved) = line.silent_since() {
                    let is_sought = match sought {
                        Sought::Holding(except) => line.held() > 0 && except != Some(key),
                        Sought::Aged(heard) => line.is_as_old(grace(), heard),
                    };
                    found = match found {
                        Some(first) if !is_sought || first.0 <= moved => found,
                        None if !is_sought => None,
                        _ => Some((moved, key)),
                    };
                }
            }
        }
        match found {
            Some((_, key)) => Some(key),
            None => None,
        }
    }
}

// The messages that were handed over.
ghost use Rattle.std.specs.Prelude.{◌≡◌, ℕ, ◌+◌, ◌≤◌, ◌<◌, IfSome, None, length};
ghost use Rattle.std.specs.Iterator.{at_most};
ghost use Rattle.random_votes_state.specs.Pool.{kept_of};

use crate::message::{Kind, Message};
use crate::seats::BOARDS;
use arrayvec::ArrayVec;

// The most messages that a vote keeps.
const MOST: usize = 2048;

// The used length after the call in which a board took a message, or none where it did not, in four bytes, since memory is fixed: it is kept as one more, and 0
// is none. A used length of 4,294,967,295 or more stands as 4,294,967,294.
#[derive(Clone, Copy, Default)]
struct Taken {
    kept: u32,
}

impl Taken {
    // A board took it, in a call that left this used length.
    fn at(used: usize) -> Taken
        ensures exact { used < 4294967295 → result.kept ≡ used + 1 }
        ensures longest { 4294967295 ≤ used → result.kept ≡ 4294967295 }
    {
        if used < u32::MAX as usize {
            Taken {
                kept: (used + 1) as u32,
            }
        } else {
            Taken { kept: u32::MAX }
        }
    }

    fn used(self) -> Option<usize>
        ensures used { IfSome result (λ used. self.kept ≡ used + 1) }
        ensures none { result ≡ None → self.kept ≡ 0 }
    {
        (self.kept as usize).checked_sub(1)
    }
}

// A message handed over, its sender, whether the sender's wire module forgot it since, and for each board whether and when it took it.
#[derive(Drop, Default)]
pub struct Handed {
    pub message: Message,
    pub sender: usize,
    pub is_gone: bool,
    taken: [Taken; BOARDS],
}

impl Handed {
    // A message that no board took yet.
    fn new(message: &[u8], sender: usize) -> Handed {
        Handed {
            message: Message::from(message),
            sender,
            is_gone: false,
            taken: [Taken::default(); BOARDS],
        }
    }

    // Whether a board took it, in a call not lost.
    pub fn is_taken(&self, b: usize) -> bool {
        self.taken_at(b).is_some()
    }

    // The used length after the call in which a board took it.
    fn taken_at(&self, b: usize) -> Option<usize> {
        self.taken.get(b)?.used()
    }

    // A board took it, in a call that left this used length, or had taken it before.
    fn take(&mut self, b: usize, used: usize)
        ensures exact { b < 16 → kept_of self.old b ≡ 0 → used < 4294967295 → kept_of self.new b ≡ used + 1 }
        ensures longest { b < 16 → kept_of self.old b ≡ 0 → 4294967295 ≤ used → kept_of self.new b ≡ 4294967295 }
        ensures before { 0 < kept_of self.old b → self.new ≡ self.old }
        ensures others { (c : ℕ) → (c ≡ b → ⊥) → kept_of self.new c ≡ kept_of self.old c }
    {
        if b < BOARDS && self.taken[b].used().is_none() {
            self.taken[b] = Taken::at(used);
        }
    }

    // A cut left so many bytes of a board's journal: if its record is not in them, the board did not take it.
    fn lose(&mut self, b: usize, left: usize)
        ensures lost { b < 16 → left + 1 < kept_of self.old b → kept_of self.new b ≡ 0 }
        ensures stays { kept_of self.old b ≤ left + 1 → self.new ≡ self.old }
        ensures others { (c : ℕ) → (c ≡ b → ⊥) → kept_of self.new c ≡ kept_of self.old c }
    {
        if b < BOARDS && self.taken[b].used().is_some_and(|used| left < used) {
            self.taken[b] = Taken::default();
        }
    }

    // Whether a sound board has not taken it.
    fn is_awaited(&self, sound: &[bool; BOARDS]) -> bool {
        self.taken
            .iter()
            .zip(sound)
            .any(|(taken, is_sound)| *is_sound && taken.used().is_none())
    }
}

// All of them, with room for the most.
#[derive(Drop)]
pub struct Pool {
    handed: ArrayVec<Handed, MOST>,
}

impl Pool {
    pub fn new() -> Pool {
        Pool {
            handed: ArrayVec::new(),
        }
    }

    pub fn clear(&mut self) {
        self.handed.clear();
    }

    pub fn as_slice(&self) -> &[Handed] {
        self.handed.as_slice()
    }

    pub fn len(&self) -> usize {
        self.as_slice().len()
    }

    pub fn is_empty(&self) -> bool {
        self.len() == 0
    }

    // The i-th message, if it is not forgotten.
    pub fn get(&self, i: usize) -> Option<&Handed> {
        self.as_slice().get(i).filter(|handed| !handed.is_gone)
    }

    // A message can be taken from now on, also where it was forgotten.
    pub fn keep(&mut self, message: &[u8], sender: usize) {
        for handed in self.handed.iter_mut() {
            if handed.sender == sender && handed.message.as_slice() == message {
                handed.is_gone = false;
                return;
            }
        }
        let _ = self.handed.try_push(Handed::new(message, sender));
    }

    // A board took the i-th message, in a call that left this used length, or had taken it before.
    pub fn take(&mut self, b: usize, i: usize, used: usize) {
        if let Some(handed) = self.handed.get_mut(i) {
            handed.take(b, used);
        }
    }

    // A cut left so many bytes of a board's journal: takes whose records are not in them are lost.
    pub fn lose_taken(&mut self, b: usize, left: usize) {
        for handed in self.handed.iter_mut() {
            handed.lose(b, left);
        }
    }

    // A sender's wire module forgets its messages; how many of them a sound board still awaits.
    pub fn forget(&mut self, sender: usize, sound: &[bool; BOARDS]) -> usize {
        let mut lost = 0usize;
        for handed in self.handed.iter_mut() {
            if handed.sender == sender && !handed.is_gone {
                handed.is_gone = true;
                if handed.is_awaited(sound) {
                    lost = lost.saturating_add(1);
                }
            }
        }
        lost
    }
}

// The messages of a buffer, one behind the other, of an agreement whose number has so many bytes.
#[derive(Drop)]
pub struct Messages<'a> {
    rest: &'a [u8],
    number_length: usize,
}

impl<'a> Messages<'a> {
    pub fn new(bytes: &'a [u8], number_length: usize) -> Messages<'a> {
        Messages {
            rest: bytes,
            number_length,
        }
    }

    // How many bytes the first of them has: the agreement number, level, kind and, but for a centre, value.
    fn first_length(&self) -> usize {
        let centre = Kind::Centre.number();
        match self.rest.get(self.number_length.saturating_add(1)) {
            Some(kind) if usize::from(*kind) == centre => self.number_length.saturating_add(2),
            _ => self.number_length.saturating_add(3),
        }
    }
}

impl<'a> Iterator for Messages<'a> {
    type Item = &'a [u8];

    ghost remaining = { λ s. at_most (length s.rest.now) };

    fn next(&mut self) -> Option<&'a [u8]> {
        if self.rest.is_empty() {
            return None;
        }
        let length = self.first_length().max(1).min(self.rest.len());
        let (message, rest) = self.rest.split_at(length);
        self.rest = rest;
        Some(message)
    }
}

#[cfg(test)]
mod tests {
    use super::*;

    // Whether a cut that leaves so many bytes keeps the take of a message that left this used length.
    fn is_kept(used: usize, left: usize) -> bool {
        let mut pool = Pool::new();
        pool.keep(&[1, 2, 3], 0);
        pool.take(4, 0, used);
        pool.lose_taken(4, left);
        pool.get(0).is_some_and(|handed| handed.is_taken(4))
    }

    // A take is lost just where less is left, though its used length be longer than any journal's.
    #[test]
    fn loses_takes(rt: HostRuntime) {
        for used in [1, 24576, 65536, 70000, 4294967294] {
            assert!(rt; is_kept(used, used));
            assert!(rt; !is_kept(used, used - 1));
        }
        assert!(rt; is_kept(0, 0));
        assert!(rt; is_kept(usize::MAX, 4294967294));
        assert!(rt; !is_kept(usize::MAX, 4294967293));
    }
}

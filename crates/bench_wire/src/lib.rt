// The messages handed over, in order, each with its maker.
#![tactic(auto)]

ghost use Rattle.std.specs.Prelude.{◌≡◌, [], ◌++◌, ◌-◌, ◌==◌, length, slice_get};
ghost use Rattle.bench_wire.specs.Wire.{message_room, messages_in};

use arrayvec::ArrayVec;
use level::Level;
use message::{Body, Message};
use std::marker::Model;

// The messages of all boards, whoever is faulty.
const MESSAGES: usize = base::MAX_BOARDS as usize
    * base::SENDING_LEVELS as usize
    * Level::MESSAGES_WORST as usize;

// A message that was handed over, and its maker.
#[derive(Clone, Copy)]
pub struct Handed {
    pub maker: u8,
    pub message: Message,
}

// What the room is filled with before anything is handed over.
impl Default for Handed {
    fn default() -> Handed {
        Handed {
            maker: 0,
            message: Message {
                number: 0,
                level: 0,
                body: Body::Centre,
            },
        }
    }
}

// Room for all of them.
#[derive(Drop)]
pub struct Wire {
    handed: ArrayVec<Handed, MESSAGES>,
}

// Clauses see the messages, in order.
impl Model for Wire {
    ghost use Rattle.std.specs.Prelude.{List};
    ghost use Rattle.bench_wire.specs.declared.Handed.{Handed};

    ghost Value = { List Handed };

    ghost view = { λ w. w.handed.items };
}

impl Wire {
    // Nothing is handed over yet.
    pub fn new() -> Wire
        ensures { result ≡ [] }
    {
        Wire {
            handed: ArrayVec::new(),
        }
    }

    // How many messages were handed over.
    pub fn len(&self) -> usize
        ensures { result ≡ length self.now }
    {
        self.handed.len()
    }

    // Was nothing handed over?
    pub fn is_empty(&self) -> bool
        ensures { result ≡ (length self.now == 0) }
    {
        self.handed.is_empty()
    }

    // Message k, if so many were handed over.
    pub fn get(&self, k: usize) -> Option<Handed>
        ensures { result ≡ slice_get self.now k }
    {
        self.handed.as_slice().get(k).copied()
    }

    // The messages that stand in these bytes one after the other are handed over. There is room for all that boards make (bench/proofs/Room.antt).
    pub fn hand_over(&mut self, maker: u8, bytes: &[u8])
        ensures { self.new ≡ self.old ++ messages_in (message_room - length self.old) maker bytes.now 0 }
    {
        let mut at = 0;
        // a `while`: messages have many lengths, so their places are no counted range
        while !self.handed.is_full() {
            let Ok(read) = message::read_at(bytes, at) else {
                return;
            };
            self.handed.push(Handed {
                maker,
                message: read.value,
            });
            at = read.next;
        }
    }
}

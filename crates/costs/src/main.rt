// A fixed run of every call, for tools/costs to count the instructions of each: sound boards take every message of a vote, then each board is
// restored and read, and gets calls that find nothing to do. Standard input: n, t, the plan's length in two bytes (the low one first), the
// plan, and each board's input in three bytes. Where the compiler makes a call a part of its caller, the tool counts that step of this program.
#![tactic(auto)]

use bench_wire::{Handed, Wire};
use party::Party;
use std::io;
use std::io::Read;

const BOARDS: usize = base::MAX_BOARDS as usize;
// What sound boards send: at most seven messages a level each.
const MESSAGES: usize = BOARDS * base::SENDING_LEVELS as usize * 7;
// A board's journal: its start, and those messages.
const JOURNAL: usize = journal::RECORD_SIZE * (1 + MESSAGES);
// The vote's number.
const AGREEMENT: u32 = 7;
// Where the plan begins, and how many bytes an input has.
const PLAN: usize = 4;

const INPUT: usize = 3;
// The outgoing buffer.
type Out = [u8; level_limits::OUTGOING];
// How many counts make a step.
const STEP_SIZE: u32 = 2;

// The byte at a place, or 0.
fn byte_at(s: &[u8], at: usize) -> u8 {
    s.get(at).copied().unwrap_or(0)
}

// The settings of the vote, its plan, and the boards' inputs.
#[derive(Clone, Copy)]
struct Vote<'a> {
    boards: u8,
    faults: u8,
    plan: &'a [u8],
    inputs: &'a [u8],
}

impl<'a> Vote<'a> {
    // The vote that the input asks for.
    fn read(s: &'a [u8]) -> Vote<'a> {
        let end = PLAN + usize::from(byte_at(s, 2)) + 256 * usize::from(byte_at(s, 3));
        // a plan that the input does not hold has no bytes
        let end = if end <= s.len() { end } else { PLAN };
        Vote {
            boards: byte_at(s, 0),
            faults: byte_at(s, 1),
            plan: s.get(PLAN..end).unwrap_or(&[]),
            inputs: s.get(end..).unwrap_or(&[]),
        }
    }

    fn input(self, i: u8) -> i64 {
        let at = INPUT * usize::from(i);
        i64::from(byte_at(self.inputs, at))
            + 256 * i64::from(byte_at(self.inputs, at + 1))
            + 65536 * i64::from(byte_at(self.inputs, at + 2))
    }

    // A board, or no party.
    fn set_up(self, own: u8) -> Party {
        board::set_up(
            u32::from(self.boards),
            u32::from(self.faults),
            u32::from(own),
            AGREEMENT,
            self.plan,
        )
        .unwrap_or(no_party())
    }

    // A board from its journal, with the used length; or no party.
    fn restore(self, own: u8, journal: &[u8], out: &mut Out) -> (Party, usize) {
        match board::restore(
            u32::from(self.boards),
            u32::from(self.faults),
            u32::from(own),
            AGREEMENT,
            self.plan,
            journal,
            out,
        ) {
            Ok(back) => (back.party, back.used),
            Err(_) => (no_party(), 0),
        }
    }
}

// What every call refuses.
// A party and no Option: a refused board gets every call all the same, so that the same calls are counted.
fn no_party() -> Party {
    Party::new(0, 0, 0, 0, plan::no_plan())
}

// A board's party, its journal and the used length.
// The used length stands beside the journal: both are parameters of the calls (README).
#[derive(Clone, Copy)]
struct Seat {
    party: Party,
    journal: [u8; JOURNAL],
    used: usize,
}

impl Seat {
    // The board starts. How many bytes it sent.
    fn start(&mut self, party: Party, input: i64, out: &mut Out) -> usize {
        let called = board::start(party, input, &mut self.journal, 0, out);
        self.party = called.party;
        self.used = called.used;
        called.sent
    }

    // A message is taken. How many bytes the board sent.
    // bench_calls lends each take an empty journal, where this one goes on: one function would lend either, and is no plainer.
    fn take(&mut self, handed: Handed, out: &mut Out) -> usize {
        let mut bytes = [0u8; base::MESSAGE_SIZE];
        let size = message::write(&mut bytes, handed.message).unwrap_or(0);
        let message = bytes.get(..size).unwrap_or(&[]);
        let called = board::take(
            self.party,
            u32::from(handed.maker),
            message,
            &mut self.journal,
            self.used,
            out,
        );
        self.party = called.party;
        self.used = called.used;
        called.sent
    }

    // The board is restored from its journal, takes the first message again, and starts again: calls that find nothing to do.
    fn call_again(&mut self, v: Vote<'_>, own: u8, first: Option<Handed>, out: &mut Out) {
        let journal = self.journal.get(..self.used).unwrap_or(&[]);
        (self.party, self.used) = v.restore(own, journal, out);
        if let Some(handed) = first {
            self.take(handed, out);
        }
        let called = board::start(self.party, 0, &mut self.journal, self.used, out);
        self.party = called.party;
        self.used = called.used;
    }

    // A board that has not started starts by a count, between two bytes written.
    fn start_count(&mut self, rt: &impl Print, party: Party, out: &mut Out) -> io::Result<()> {
        rt.write_all(b"<")?;
        let started = board::start_count(party, STEP_SIZE, 0, &mut self.journal, 0, out);
        match started.called.verdict {
            Ok(()) => rt.write_all(b">"),
            Err(_) => rt.write_all(b"-"),
        }
    }
}

// Every message goes to every board.
fn give_all(seats: &mut [Seat; BOARDS], boards: u8, wire: &mut Wire, out: &mut Out) {
    for k in 0..MESSAGES {
        let Some(handed) = wire.get(k) else {
            return;
        };
        for (i, seat) in (0..boards).zip(seats.iter_mut()) {
            let sent = seat.take(handed, out);
            wire.hand_over(i, out.get(..sent).unwrap_or(&[]));
        }
    }
}

// A reading, between two bytes written, since the compiler may make it a part of this function; is there an answer?
fn read(rt: &impl Print, p: Party) -> io::Result<bool> {
    rt.write_all(b"(")?;
    let answer = board::read_answer(p);
    rt.write_all(b")")?;
    Ok(matches!(answer, Ok(Some(_))))
}

// A reading of a pair, likewise: the party, and the same under another number.
fn read_pair(rt: &impl Print, p: Party) -> io::Result<()> {
    let second = Party {
        agreement: AGREEMENT + 1,
        ..p
    };
    rt.write_all(b"[")?;
    match board::read_pair(p, second) {
        Ok(Some(_)) => rt.write_all(b"]"),
        _ => rt.write_all(b"-"),
    }
}

// A reading of the answer as a count, likewise.
fn read_count(rt: &impl Print, p: Party) -> io::Result<()> {
    rt.write_all(b"{")?;
    match board::read_count(p, STEP_SIZE, 0) {
        Ok(Some(_)) => rt.write_all(b"}"),
        _ => rt.write_all(b"-"),
    }
}

// The board gets calls that find nothing to do, and is read; then it is restored from an empty journal, starts by a count, and is read as it was before that.
// How many of the two readings have an answer.
fn visit(
    rt: &impl Print,
    v: Vote<'_>,
    seat: &mut Seat,
    own: u8,
    first: Option<Handed>,
    out: &mut Out,
) -> io::Result<u64> {
    seat.call_again(v, own, first, out);
    read_pair(rt, seat.party)?;
    read_count(rt, seat.party)?;
    let restored = read(rt, seat.party)?;
    let (empty, _) = v.restore(own, &[], out);
    seat.start_count(rt, empty, out)?;
    let began = read(rt, empty)?;
    Ok(u64::from(restored) + u64::from(began))
}

// The whole run.
fn run(rt: &impl Print, v: Vote<'_>) -> io::Result<()> {
    let mut seats = [Seat {
        party: no_party(),
        journal: [0; JOURNAL],
        used: 0,
    }; BOARDS];
    let mut wire = Wire::new();
    let mut out = [0; level_limits::OUTGOING];
    for (i, seat) in (0..v.boards).zip(seats.iter_mut()) {
        let sent = seat.start(v.set_up(i), v.input(i), &mut out);
        wire.hand_over(i, out.get(..sent).unwrap_or(&[]));
    }
    give_all(&mut seats, v.boards, &mut wire, &mut out);
    let sent = wire.len();
    let used = seats[0].used;
    let first = wire.get(0);
    let mut answers = 0u64;
    for (i, seat) in (0..v.boards).zip(seats.iter_mut()) {
        answers = answers.saturating_add(visit(rt, v, seat, i, first, &mut out)?);
    }
    println!(rt; "sent {sent} answers {answers} used {used}")
}

// The input is one read.
fn main(rt: HostRuntime) -> io::Result<()> {
    let mut input = [0u8; 4096];
    let size = rt.stdin().read(&mut input)?;
    let v = Vote::read(input.get(..size).unwrap_or(&[]));
    if size < PLAN || v.boards < 1 || base::MAX_BOARDS < u32::from(v.boards) {
        return Ok(());
    }
    run(&rt, v)
}

// The worked example of README.md, run through the calls: each call's journal record, its messages and its rules, in hexadecimal bytes.
#![tactic(auto)]

use board::Called;
use party::Party;
use std::io;

fn print_bytes(rt: &impl Print, bytes: &[u8]) -> io::Result<()> {
    for b in bytes {
        print!(rt; "{b:02X} ")?;
    }
    Ok(())
}

// What a call left: its record, its messages and its rules.
fn print_call(rt: &impl Print, record: &[u8], messages: &[u8], rules: u32) -> io::Result<()> {
    print!(rt; "record ")?;
    print_bytes(rt, record)?;
    print!(rt; "messages ")?;
    print_bytes(rt, messages)?;
    println!(rt; "rules {rules}")
}

// A board: its party, its journal with the used length, and the outgoing buffer.
// The used length stands beside the journal: both are parameters of the calls (README).
#[derive(Drop)]
struct Board {
    party: Party,
    journal: [u8; 64],
    used: usize,
    out: [u8; level_limits::OUTGOING],
}

impl Board {
    // What a call gave is printed and kept.
    fn keep(&mut self, rt: &impl Print, called: Called) -> io::Result<()> {
        let record = self.journal.get(self.used..called.used).unwrap_or(&[]);
        let messages = self.out.get(..called.sent).unwrap_or(&[]);
        print_call(rt, record, messages, called.rules)?;
        self.party = called.party;
        self.used = called.used;
        Ok(())
    }

    fn start(&mut self, rt: &impl Print, input: i64) -> io::Result<()> {
        let called = board::start(
            self.party,
            input,
            &mut self.journal,
            self.used,
            &mut self.out,
        );
        self.keep(rt, called)
    }

    // The board takes its own message back.
    fn take_own(&mut self, rt: &impl Print, message: [u8; 4]) -> io::Result<()> {
        let called = board::take(
            self.party,
            0,
            &message,
            &mut self.journal,
            self.used,
            &mut self.out,
        );
        self.keep(rt, called)
    }
}

// Is the answer 1?
fn print_answer(rt: &impl Print, p: Party) -> io::Result<()> {
    match board::read_answer(p) {
        Ok(Some(1)) => println!(rt; "answer 1"),
        Ok(Some(_)) => println!(rt; "another answer"),
        _ => println!(rt; "no answer"),
    }
}

// Power went after the second record and tore the third.
fn print_restored(rt: &impl Print) -> io::Result<()> {
    let mut out = [0; level_limits::OUTGOING];
    let left = [1, 1, 1, 2, 0, 1, 0, 1, 0, 2, 0, 1];
    let Ok(back) = board::restore(1, 0, 0, 1, &[2, 0, 2], &left, &mut out) else {
        return println!(rt; "not restored");
    };
    print!(rt; "restored {} messages ", back.used)?;
    print_bytes(rt, out.get(..back.sent).unwrap_or(&[]))?;
    println!(rt; "rules {}", back.rules)
}

fn main(rt: HostRuntime) -> io::Result<()> {
    let Ok(party) = board::set_up(1, 0, 0, 1, &[2, 0, 2]) else {
        return println!(&rt; "not set up");
    };
    let mut board = Board {
        party,
        journal: [0; 64],
        used: 0,
        out: [0; level_limits::OUTGOING],
    };
    board.start(&rt, 1)?;
    board.take_own(&rt, [1, 0, 1, 0])?;
    board.take_own(&rt, [1, 0, 2, 0])?;
    board.take_own(&rt, [1, 0, 3, 0])?;
    board.take_own(&rt, [1, 0, 4, 0])?;
    print_answer(&rt, board.party)?;
    print_restored(&rt)
}

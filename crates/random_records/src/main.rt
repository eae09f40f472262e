// Question 19 and calls on records that no history reaches: records of boards in random votes, with
// a few numbers changed so that they just pass or just fail, in the library and in a second
// implementation.
#![tactic(auto)]

mod calls;
mod refused;
mod report;
mod tally;
mod trial;
mod walk;

use party::Party;
use random_buffers::Both;
use random_calls::{part, word};
use random_records_draw::vote::Vote;
use random_records_draw::{lead, plans};
use random_report::count;
use second::Settings;
use second_plan::table::Table;
use std::io;
use tally::Tally;
use trial::Run;

// How many votes a run has, and the states of the pseudo-random numbers before each run's first.
const VOTES: usize = 400;

const SEED: usize = 88172645463325252;

const OTHER_SEED: usize = 362436069123456789;

impl Run {
    // The vote's settings, of board 0.
    pub fn settings(&self) -> Settings {
        Settings {
            boards: word(self.vote.boards),
            faults: word(self.vote.faults),
            own: 0,
            number: word(self.vote.number),
        }
    }

    // The next call of the vote; the messages made are kept.
    fn step(&mut self, p: Party, t: &mut Table, i: usize, both: &mut Both) -> Party {
        let call = lead::draw_call(&mut self.vote, t, i);
        let (next, outcome) = self.call(p, t, Ok(()), &call, both);
        lead::keep_sent(&mut self.vote, part(&both.first.out, 0, outcome.sent));
        next
    }

    // Now and then the record is compared as a whole, changed and tried.
    fn look(&mut self, p: &Party, t: &Table, both: &mut Both) {
        if self.vote.random.once_in(4) {
            self.check(p, t);
            self.trial(p, t, both);
            self.trial(p, t, both);
        }
    }

    // One vote from a party before its start, on a table of its own.
    fn lead(&mut self, p: Party, t: &mut Table, both: &mut Both) {
        let mut p = p;
        for i in 0..self.vote.steps {
            p = self.step(p, t, i, both);
            self.look(&p, t, both);
        }
        count(&mut self.tally.votes);
    }

    // One vote; that both accept its settings and its plan is compared.
    fn vote(&mut self, plan: &[u8], both: &mut Both) {
        let s = self.settings();
        let mut t = Table::new();
        let second = second::set_up(&mut t, &s, plan);
        match board::set_up(s.boards, s.faults, s.own, s.number, plan) {
            Ok(p) if second.is_ok() => self.lead(p, &mut t, both),
            _ => self.tally.compare(false),
        }
    }

    // A vote is drawn and run, after a set-up and a restore that may be refused.
    fn run_one(&mut self, both: &mut Both) {
        lead::draw_settings(&mut self.vote);
        let plan = plans::draw(&mut self.vote);
        let spoilt = self.spoilt(plan.as_slice());
        self.set_up(&spoilt, both);
        self.restore(&spoilt, both);
        self.vote(plan.as_slice(), both);
    }
}

// A run of votes from a seed.
fn run(rt: &impl Print, seed: usize, both: &mut Both) -> io::Result<()> {
    let mut run = Run {
        vote: Vote::new(seed),
        tally: Tally::new(),
    };
    println!(rt; "seed {seed}")?;
    for _ in 0..VOTES {
        run.run_one(both);
    }
    report::write(rt, &run.tally)
}

// Two runs.
fn main(rt: HostRuntime) -> io::Result<()> {
    let mut both = Both::new();
    run(&rt, SEED, &mut both)?;
    run(&rt, OTHER_SEED, &mut both)
}

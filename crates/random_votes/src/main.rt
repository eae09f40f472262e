// Random votes on the library and on a second implementation of the rules: each call is made on both and compared, and the answers are held to demand 3. Two
// votes run side by side, and their boards are read as pairs; in votes by counts they start by counts, and count answers are read.
#![tactic(auto)]

mod beside;
mod calls;
mod first;
mod limits;
mod report;
mod run;

use random_votes_state::both::{Journal, Outgoing};
use random_votes_state::random::Random;
use random_votes_state::seats::SEATS;
use random_votes_state::totals::Totals;
use random_votes_state::vote::Vote;
use run::Run;
use std::io;

// How many votes are run from each seed, and the states of the pseudo-random numbers before the first of them; and of those by which pairs are read.
const VOTES: usize = 2000;

const SEED: usize = 88172645463325252;

const OTHER_SEED: usize = 362436069123456789;

const PAIR_SEED: usize = 521288629546311223;

// The seeds.
fn write_seeds(rt: &impl Print) -> io::Result<()> {
    println!(rt; "seed {SEED}")?;
    println!(rt; "seed {OTHER_SEED}")?;
    println!(rt; "seed {PAIR_SEED}")
}

// The cases at the limits, the votes, and what they came to: the votes of the first seed and, side by side with them and numbered on, those of the second.
fn main(rt: HostRuntime) -> io::Result<()> {
    let mut first = Vote::new(Random::new(0), 0);
    limits::write(&rt, &mut first)?;
    first.random = Random::new(SEED);
    let mut second = Vote::new(Random::new(OTHER_SEED), VOTES);
    write_seeds(&rt)?;
    let nobody = calls::nobody();
    let mut members = [nobody; SEATS];
    let mut other_members = [nobody; SEATS];
    let journal = Journal::filled(7);
    let mut journals = [journal; SEATS];
    let mut other_journals = [journal; SEATS];
    let mut run = Run {
        random: Random::new(PAIR_SEED),
        totals: Totals::default(),
        out: Outgoing::filled(0),
    };
    for _ in 0..VOTES {
        run.run_two(
            &mut first,
            &mut members,
            &mut journals,
            &mut second,
            &mut other_members,
            &mut other_journals,
        );
    }
    report::write(&rt, &run.totals, &first.firsts, &second.firsts)
}

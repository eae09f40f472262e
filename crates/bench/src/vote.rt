// The vote so far.
use crate::print;
use bench_calls::Call;
use bench_settings::Settings;
use bench_wire::Wire;
use party::Party;
use script::Step;
use std::io;

const BOARDS: usize = base::MAX_BOARDS as usize;

// The settings, the parties of the boards, whether a start was accepted, and the messages handed over. It has the outgoing buffer that every call is lent.
// While a setting is missing the parties are records of no party, which fail 19, so that every call is made and refused by it.
#[derive(Drop)]
pub struct Vote {
    settings: Settings,
    parties: [Party; BOARDS],
    started: bool,
    wire: Wire,
    out: [u8; level_limits::OUTGOING],
}

// A record of no party.
fn no_party() -> Party {
    Party::new(0, 0, 0, 0, plan::no_plan())
}

impl Vote {
    // Before the first line.
    pub fn new() -> Vote {
        Vote {
            settings: Settings::default(),
            parties: [no_party(); BOARDS],
            started: false,
            wire: Wire::new(),
            out: [0; level_limits::OUTGOING],
        }
    }

    // Other settings, by which every board is set up anew, unless a start was accepted.
    fn set(&mut self, settings: Settings) {
        if self.started {
            return;
        }
        self.settings = settings;
        let nobody = no_party();
        for (own, party) in (0..base::MAX_BOARDS).zip(self.parties.iter_mut()) {
            match settings.set_up(own) {
                Some(made) => *party = made,
                None => *party = nobody,
            }
        }
    }

    // A call on board b. The messages of an accepted one are handed over.
    fn call(&mut self, b: u32, call: Call) {
        let Some(party) = self.parties.get_mut(b as usize) else {
            return;
        };
        let called = call.make(*party, &mut self.out);
        *party = called.party;
        if called.verdict.is_err() {
            return;
        }
        self.started = true;
        if let Some(sent) = self.out.get(..called.sent) {
            self.wire.hand_over(b as u8, sent);
        }
    }

    // `give m b`, if message m was handed over.
    fn give(&mut self, m: u32, b: u32) {
        if let Some(handed) = self.wire.get(m as usize) {
            self.call(b, Call::Take(handed));
        }
    }

    // One step of the script.
    pub fn step(&mut self, step: Step) {
        let settings = self.settings;
        match step {
            Step::Boards(n, t) => self.set(settings.with_boards(n, t)),
            Step::Agreement(a) => self.set(settings.with_agreement(a)),
            Step::Range(low, high) => self.set(settings.with_range(low, high)),
            Step::Start(b, r) => self.call(b, Call::Start(bench_settings::value(r))),
            Step::Give(m, b) => self.give(m, b),
        }
    }

    // Boards, t and the messages handed over, then each board with its answer.
    pub fn report(&self, rt: &impl Print) -> io::Result<()> {
        let Settings { n, t, .. } = self.settings;
        println!(rt; "boards {n} faults {t} sent {}", self.wire.len())?;
        for (i, party) in (0..n).zip(&self.parties) {
            print::board(rt, i, *party)?;
        }
        Ok(())
    }
}

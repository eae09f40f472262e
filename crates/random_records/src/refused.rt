// Refused set-ups and restores.
use crate::trial::Run;
use party::Party;
use random_buffers::{Both, OUTGOING};
use random_calls::{is_same_verdict, lent, part, word};
use random_numbers::Random;
use random_report::count;
use second::Settings;
use second::record::Done;
use second_plan::question::Refusal;
use second_plan::table::Table;
use second_wire::room;
use second_wire::room::Room;

// What a set-up or a restore is given.
#[derive(Drop)]
pub struct Terms {
    settings: Settings,
    plan: Room,
}

// The record of no party.
fn no_record() -> Party {
    Party::new(0, 0, 0, 0, plan::no_plan())
}

// What is wrong with settings or a plan, if anything is.
#[derive(Clone, Copy, Debug, PartialEq, Eq)]
enum Spoiling {
    NoBoards,
    ManyBoards,
    ManyFaults,
    OwnBeyond,
    CutPlan,
    LongPlan,
    Nothing,
}

impl Spoiling {
    // One thing, or nothing.
    fn draw(random: &mut Random) -> Spoiling {
        match random.below(8) {
            0 => Spoiling::NoBoards,
            1 => Spoiling::ManyBoards,
            2 => Spoiling::ManyFaults,
            3 => Spoiling::OwnBeyond,
            4 => Spoiling::CutPlan,
            5 => Spoiling::LongPlan,
            _ => Spoiling::Nothing,
        }
    }
}

impl Run {
    // Settings that 1 to 3 refuse, or the vote's own.
    fn spoilt_settings(&self, spoiling: Spoiling) -> Settings {
        let settings = self.settings();
        match spoiling {
            Spoiling::NoBoards => Settings {
                boards: 0,
                ..settings
            },
            Spoiling::ManyBoards => Settings {
                boards: 17,
                ..settings
            },
            Spoiling::ManyFaults => Settings {
                faults: word((self.vote.boards / 3).saturating_add(1)),
                ..settings
            },
            Spoiling::OwnBeyond => Settings {
                own: settings.boards,
                ..settings
            },
            Spoiling::CutPlan | Spoiling::LongPlan | Spoiling::Nothing => settings,
        }
    }

    // A plan of fewer bytes, of one more, or as it is.
    fn spoilt_plan(&mut self, plan: &[u8], spoiling: Spoiling) -> Room {
        let length = match spoiling {
            Spoiling::CutPlan => self.vote.random.below(plan.len()),
            _ => plan.len(),
        };
        let mut spoilt = Room::new();
        for byte in plan.iter().take(length) {
            room::put(&mut spoilt, *byte);
        }
        if spoiling == Spoiling::LongPlan {
            room::put(&mut spoilt, 0);
        }
        spoilt
    }

    // Settings, or a plan, that 1 to 11 refuse, or the vote's own: then only the journal of a restore
    // can be refused.
    pub fn spoilt(&mut self, plan: &[u8]) -> Terms {
        let spoiling = Spoiling::draw(&mut self.vote.random);
        let settings = self.spoilt_settings(spoiling);
        let plan = self.spoilt_plan(plan, spoiling);
        Terms { settings, plan }
    }

    // A set-up that may be refused.
    pub fn set_up(&mut self, terms: &Terms, both: &mut Both) {
        let s = &terms.settings;
        let plan = terms.plan.as_slice();
        let mut t = Table::new();
        let first = board::set_up(s.boards, s.faults, s.own, s.number, plan);
        let second = second::set_up(&mut t, s, plan);
        self.tally.compare(is_same_verdict(&first, &second));
        if second.is_err() {
            count(&mut self.tally.set_ups);
            self.no_party(no_record(), &mut t, both);
        }
    }

    // A restore that may be refused, from a few bytes of an earlier vote's journal.
    pub fn restore(&mut self, terms: &Terms, both: &mut Both) {
        let left = self.vote.random.below(12);
        let mut t = Table::new();
        let first = first_restore(terms, left, both);
        let second = second_restore(&mut t, terms, left, both);
        self.tally.compare(is_same_verdict(&first, &second));
        if second.is_err() {
            count(&mut self.tally.restores);
            self.no_party(no_record(), &mut t, both);
        }
    }
}

// A restore of the library from the first bytes of its journal.
fn first_restore(
    terms: &Terms,
    left: usize,
    both: &mut Both,
) -> Result<board::Restored, base::Refusal> {
    let s = &terms.settings;
    let journal = part(&both.first.journal, 0, left);
    let out = lent(&mut both.first.out, 0, OUTGOING);
    board::restore(
        s.boards,
        s.faults,
        s.own,
        s.number,
        terms.plan.as_slice(),
        journal,
        out,
    )
}

// The same of the second implementation.
fn second_restore(
    t: &mut Table,
    terms: &Terms,
    left: usize,
    both: &mut Both,
) -> Result<Done, Refusal> {
    let journal = part(&both.second.journal, 0, left);
    let out = lent(&mut both.second.out, 0, OUTGOING);
    second::restore(t, &terms.settings, terms.plan.as_slice(), journal, out)
}

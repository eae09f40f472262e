// The vote written a second time from the sentences of documents 01 and 02, with plain tables and
// loops over all boards, values, positions and edges. It is compared with the first implementation
// byte for byte; of itself it is proved only that it is safe and ends.
#![tactic(auto)]

pub mod ask;
pub mod pair;
pub mod reading;
pub mod record;

use record::Done;
use second_plan::question::{Question, Refusal};
use second_plan::table::Table;
use second_plan::{plans, table};
use second_wire::reader::Reader;
use second_wire::room::{OUTGOING, Room};
use second_wire::wire::Record;
use second_wire::{room, wire};

// The settings of a vote: n, t, the board's own number and the agreement number.
#[derive(Clone, Copy, Debug, PartialEq, Eq)]
pub struct Settings {
    pub boards: u32,
    pub faults: u32,
    pub own: u32,
    pub number: u32,
}

// Keeps n, the three thresholds and the agreement number.
fn keep_settings(table: &mut Table, settings: &Settings) {
    let n = settings.boards as usize;
    let t = settings.faults as usize;
    table.set(table::VOTE, table::BOARDS, n);
    table.set(table::VOTE, table::FEW, t + 1);
    table.set(table::VOTE, table::MANY, 2 * t + 1);
    table.set(table::VOTE, table::MOST, n.saturating_sub(t));
    table.set(table::VOTE, table::NUMBER, settings.number as usize);
}

// Questions 1 to 11, which fill the table anew.
fn prepare(table: &mut Table, settings: &Settings, plan: &[u8]) -> Result<(), Refusal> {
    *table = Table::new();
    ask::settings(settings)?;
    keep_settings(table, settings);
    plans::read(plan, table)
}

// Set-up: questions 1 to 11. The table that is lent becomes the party's; a refused set-up leaves no
// party: its table is empty.
pub fn set_up(table: &mut Table, settings: &Settings, plan: &[u8]) -> Result<(), Refusal> {
    let prepared = prepare(table, settings, plan);
    if prepared.is_err() {
        *table = Table::new();
    }
    prepared
}

// Level 0's output, if there is one, as a start takes it.
pub fn answer(table: &Table) -> Option<i64> {
    let output = table.get(0, table::OUTPUT)?;
    let base = table.at(table::VOTE, table::BASE);
    Some(reading::lowered(base.saturating_add(output)))
}

// Start: questions 19, 18, 20, 13, 12 and 17.
pub fn start(
    table: &mut Table,
    input: i64,
    journal: &mut [u8],
    used: usize,
    out: &mut [u8],
) -> Result<Done, Refusal> {
    ask::call(table, journal, used, out)?;
    let position = reading::above(table.at(table::VOTE, table::BASE), input);
    start_at(table, position, journal, used, out)
}

// A start, after the questions of each call, at a position that an input has, if any.
pub fn start_at(
    table: &mut Table,
    position: Option<usize>,
    journal: &mut [u8],
    used: usize,
    out: &mut [u8],
) -> Result<Done, Refusal> {
    let position = ask::start(table, position)?;
    let number = table.at(table::VOTE, table::NUMBER);
    record::commit(
        table,
        &Record::Start { number, position },
        journal,
        used,
        out,
    )
}

// Take: questions 19, 18, 20, 14, then 15, 22, 23 and 24, then 16 and 17.
pub fn take(
    table: &mut Table,
    sender: u32,
    bytes: &[u8],
    journal: &mut [u8],
    used: usize,
    out: &mut [u8],
) -> Result<Done, Refusal> {
    ask::call(table, journal, used, out)?;
    let sender = sender as usize;
    ask::sender(table, sender)?;
    let mut reader = Reader::new(bytes, 0);
    let message = wire::read_message(&mut reader).map_err(ask::broken)?;
    ask::message(table, &message, &reader)?;
    record::commit(
        table,
        &Record::Taken { sender, message },
        journal,
        used,
        out,
    )
}

// Questions 18 and 1 to 11, then those of each record. Only when no record is refused do the messages
// of all of them go to the outgoing buffer's first bytes.
fn recover(
    table: &mut Table,
    settings: &Settings,
    plan: &[u8],
    journal: &[u8],
    out: &mut [u8],
) -> Result<Done, Refusal> {
    if out.len() < OUTGOING {
        return Err(Question::Outgoing.at(0));
    }
    prepare(table, settings, plan)?;
    let mut messages = Room::new();
    let done = record::replay(table, journal, &mut messages)?;
    room::copy(messages.as_slice(), out);
    Ok(done)
}

// Restore: questions 18 and 1 to 11, then those of each record. The table that is lent becomes the
// party's; a refused restore leaves no party: its table is empty.
pub fn restore(
    table: &mut Table,
    settings: &Settings,
    plan: &[u8],
    journal: &[u8],
    out: &mut [u8],
) -> Result<Done, Refusal> {
    let done = recover(table, settings, plan, journal, out);
    if done.is_err() {
        *table = Table::new();
    }
    done
}

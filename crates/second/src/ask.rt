// Questions at the door: each function asks some in order, and gives the first that is answered no.
use crate::Settings;
use second_plan::question::{Question, Refusal};
use second_plan::table;
use second_plan::table::Table;
use second_wire::group::Fault;
use second_wire::reader::{Broken, Reader};
use second_wire::room::OUTGOING;
use second_wire::wire::{Message, Record};

// Questions 1 to 3; t above 5 is refused first, so that 3t is small.
pub fn settings(settings: &Settings) -> Result<(), Question> {
    let Settings {
        boards: n,
        faults: t,
        own,
        ..
    } = *settings;
    if n < 1 || 16 < n {
        return Err(Question::Boards);
    }
    if 5 < t || n <= 3 * t {
        return Err(Question::Faults);
    }
    if n <= own {
        return Err(Question::Own);
    }
    Ok(())
}

// Question 19: only where there is no party are there no boards.
pub fn party(table: &Table) -> Result<(), Question> {
    match table.at(table::VOTE, table::BOARDS) {
        0 => Err(Question::Party),
        _ => Ok(()),
    }
}

// Questions 19, 18 and 20 of a start or take.
pub fn call(table: &Table, journal: &[u8], used: usize, out: &[u8]) -> Result<(), Question> {
    party(table)?;
    if out.len() < OUTGOING {
        return Err(Question::Outgoing);
    }
    if journal.len() < used {
        return Err(Question::Used);
    }
    Ok(())
}

// Question 12 of a position, if it is any.
pub fn on_plan(table: &Table, position: Option<usize>) -> Result<usize, Question> {
    position
        .filter(|position| *position <= table.at(table::VOTE, table::LAST))
        .ok_or(Question::Position)
}

// Questions 13 and 12 of a start.
pub fn start(table: &Table, position: Option<usize>) -> Result<usize, Question> {
    if table.is_set(0, table::ENTERED) {
        return Err(Question::Started);
    }
    on_plan(table, position)
}

// Question 14.
pub fn sender(table: &Table, sender: usize) -> Result<(), Question> {
    if table.at(table::VOTE, table::BOARDS) <= sender {
        return Err(Question::Sender);
    }
    Ok(())
}

// What is wrong with a message's group: the bytes end inside it, it is too long or too large, or it is
// outside the table.
pub fn broken(broken: Broken) -> Refusal {
    let question = match broken.fault {
        Fault::Malformed => Question::Malformed,
        Fault::Outside => Question::Outside,
        Fault::Cut { .. } | Fault::CutAbove => Question::Cut,
    };
    question.at(broken.place)
}

// Question 16.
fn number(table: &Table, number: usize) -> Result<(), Question> {
    if number != table.at(table::VOTE, table::NUMBER) {
        return Err(Question::Number);
    }
    Ok(())
}

// Questions 24 and 16 of a message that was read.
pub fn message(table: &Table, message: &Message, reader: &Reader) -> Result<(), Refusal> {
    if !reader.is_at_end() {
        return Err(Question::End.at(reader.place()));
    }
    number(table, message.number)?;
    Ok(())
}

// Whether the record is one of a message held already; a start never is.
pub fn is_held(table: &Table, record: &Record) -> bool {
    match record {
        Record::Start { .. } => false,
        Record::Taken { sender, message } => table.is_said(message, *sender),
    }
}

// Questions 16, 14, 13 and 12 of a record.
pub fn record(table: &Table, record: &Record) -> Result<(), Question> {
    number(table, record.number())?;
    match record {
        Record::Start { position, .. } => start(table, Some(*position)).map(|_| ()),
        Record::Taken { sender: from, .. } => sender(table, *from),
    }
}

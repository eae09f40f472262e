// Records: what a start or a taken message does, and how a journal does it again.
use crate::ask;
use second_plan::question::{Question, Refusal};
use second_plan::table::Table;
use second_rules::{levels, running};
use second_wire::group::Fault;
use second_wire::reader::{Broken, Reader};
use second_wire::room::Room;
use second_wire::wire::Record;
use second_wire::{room, wire};

// The journal's used length, how many bytes of the outgoing buffer are messages, and how many rules
// were applied.
#[derive(Clone, Copy, Debug, PartialEq, Eq)]
pub struct Done {
    pub used: usize,
    pub sent: usize,
    pub rules: usize,
}

// A start enters level 0; a message is kept.
fn note(table: &mut Table, record: &Record) {
    match record {
        Record::Start { position, .. } => levels::open(table, 0, *position),
        Record::Taken { sender, message } => table.hear(message, *sender),
    }
}

// A record is noted and rules are applied, whose messages are written; one of a message held adds
// nothing and has no messages. How many rules.
fn act(table: &mut Table, record: &Record, messages: &mut Room) -> usize {
    if ask::is_held(table, record) {
        return 0;
    }
    note(table, record);
    running::run(table, messages)
}

// Writes the record from the used length on, and gives the length after it. Question 17.
fn write(record: &Record, journal: &mut [u8], used: usize) -> Result<usize, Question> {
    let mut bytes = Room::new();
    wire::write_record(&mut bytes, record);
    if journal.len() < used || journal.len() - used < bytes.len() {
        return Err(Question::Journal);
    }
    room::copy(bytes.as_slice(), &mut journal[used..]);
    Ok(used.saturating_add(bytes.len()))
}

// Writes the record from the used length on and acts on it, unless it is refused by 17, or is one of a
// message held.
pub fn commit(
    table: &mut Table,
    record: &Record,
    journal: &mut [u8],
    used: usize,
    out: &mut [u8],
) -> Result<Done, Refusal> {
    if ask::is_held(table, record) {
        return Ok(Done {
            used,
            sent: 0,
            rules: 0,
        });
    }
    let used = write(record, journal, used)?;
    let mut messages = Room::new();
    let rules = act(table, record, &mut messages);
    room::copy(messages.as_slice(), out);
    Ok(Done {
        used,
        sent: messages.len(),
        rules,
    })
}

// The next record; none where it is torn: only there could further bytes make it whole. Question 21.
fn next_record(reader: &mut Reader) -> Result<Option<Record>, Question> {
    match wire::read_record(reader) {
        Ok(record) => Ok(Some(record)),
        Err(
            Broken {
                fault: Fault::Cut { .. },
                ..
            },
        ) => Ok(None),
        Err(_) => Err(Question::Record),
    }
}

// The record at a reader's place, asked and acted on; none where the journal ends. How many rules.
fn replay_one(
    table: &mut Table,
    reader: &mut Reader,
    messages: &mut Room,
) -> Result<Option<usize>, Question> {
    if reader.is_at_end() {
        return Ok(None);
    }
    let Some(record) = next_record(reader)? else {
        return Ok(None);
    };
    ask::record(table, &record)?;
    Ok(Some(act(table, &record, messages)))
}

// All whole records, in order: their length, every message of theirs in the order in which they made
// them, and the sum of their rules.
pub fn replay(table: &mut Table, journal: &[u8], messages: &mut Room) -> Result<Done, Refusal> {
    let mut reader = Reader::new(journal, 0);
    let mut used = 0;
    let mut rules = 0usize;
    for _ in journal {
        match replay_one(table, &mut reader, messages).map_err(|question| question.at(used))? {
            Some(applied) => rules = rules.saturating_add(applied),
            None => break,
        }
        used = reader.place();
    }
    Ok(Done {
        used,
        sent: messages.len(),
        rules,
    })
}

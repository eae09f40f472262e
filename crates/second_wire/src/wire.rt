// Messages and journal records.
use crate::group;
use crate::group::Fault;
use crate::reader::{Broken, Reader};
use crate::room::Room;

// Sorts of records.
pub const START: usize = 1;

pub const TAKEN: usize = 2;

// The value that stands for none, after 0 to 15.
pub const NONE: usize = 16;

// Levels 0 to 14 send.
pub const SENDING: usize = 15;

// Senders are 0 to 15.
pub const SENDERS: usize = 16;

// Positions are 0 to 65,535.
pub const LAST_POSITION: usize = 65535;

// Kinds of messages, by their numbers.
#[derive(Clone, Copy, Debug, PartialEq, Eq)]
pub enum Kind {
    FirstEcho = 1,
    FirstProposal = 2,
    SecondEcho = 3,
    SecondProposal = 4,
    Side = 5,
    Centre = 6,
}

// How many kinds there are.
pub const KINDS: usize = 6;

impl Kind {
    pub const ALL: [Kind; KINDS] = [
        Kind::FirstEcho,
        Kind::FirstProposal,
        Kind::SecondEcho,
        Kind::SecondProposal,
        Kind::Side,
        Kind::Centre,
    ];

    // The kind's number.
    pub fn number(self) -> usize {
        self as usize
    }

    // The lowest value of a message of the kind.
    fn lowest(self) -> usize {
        match self {
            Kind::Side => 1,
            _ => 0,
        }
    }

    // The highest value: none, where the kind has it. Centre has no value, which is kept as 0.
    fn highest(self) -> usize {
        match self {
            Kind::FirstEcho | Kind::SecondEcho | Kind::SecondProposal => NONE,
            Kind::FirstProposal | Kind::Side => NONE - 1,
            Kind::Centre => 0,
        }
    }
}

impl TryFrom<usize> for Kind {
    type Error = Fault;

    fn try_from(number: usize) -> Result<Kind, Fault> {
        match number {
            1 => Ok(Kind::FirstEcho),
            2 => Ok(Kind::FirstProposal),
            3 => Ok(Kind::SecondEcho),
            4 => Ok(Kind::SecondProposal),
            5 => Ok(Kind::Side),
            6 => Ok(Kind::Centre),
            _ => Err(Fault::Outside),
        }
    }
}

// A message: agreement number, level, kind and value.
#[derive(Clone, Copy, Debug, PartialEq, Eq)]
pub struct Message {
    pub number: usize,
    pub level: usize,
    pub kind: Kind,
    pub value: usize,
}

// A start at a position, or a message taken from a sender.
#[derive(Clone, Copy, Debug, PartialEq, Eq)]
pub enum Record {
    Start { number: usize, position: usize },
    Taken { sender: usize, message: Message },
}

impl Record {
    // The agreement number.
    pub fn number(&self) -> usize {
        match self {
            Record::Start { number, .. } => *number,
            Record::Taken { message, .. } => message.number,
        }
    }
}

// A message's kind.
fn read_kind(reader: &mut Reader) -> Result<Kind, Broken> {
    let place = reader.place();
    let number = reader.within(1, KINDS)?;
    Kind::try_from(number).map_err(|fault| Broken { fault, place })
}

// A message's value.
fn read_value(reader: &mut Reader, kind: Kind) -> Result<usize, Broken> {
    match kind {
        Kind::Centre => Ok(0),
        _ => reader.within(kind.lowest(), kind.highest()),
    }
}

// The next message: agreement number, level, kind, value.
pub fn read_message(reader: &mut Reader) -> Result<Message, Broken> {
    let number = reader.group()?;
    let level = reader.within(0, SENDING - 1)?;
    let kind = read_kind(reader)?;
    let value = read_value(reader, kind)?;
    Ok(Message {
        number,
        level,
        kind,
        value,
    })
}

// A start's agreement number and position.
fn read_start(reader: &mut Reader) -> Result<Record, Broken> {
    let number = reader.group()?;
    let position = reader.within(0, LAST_POSITION)?;
    Ok(Record::Start { number, position })
}

// A taken message's sender and message.
fn read_taken(reader: &mut Reader) -> Result<Record, Broken> {
    let sender = reader.within(0, SENDERS - 1)?;
    let message = read_message(reader)?;
    Ok(Record::Taken { sender, message })
}

// The next record: group 1 and a start, or group 2 and a taken message.
pub fn read_record(reader: &mut Reader) -> Result<Record, Broken> {
    match reader.within(START, TAKEN)? {
        START => read_start(reader),
        _ => read_taken(reader),
    }
}

// Writes a message.
pub fn write_message(room: &mut Room, message: &Message) {
    group::write(room, message.number);
    group::write(room, message.level);
    group::write(room, message.kind.number());
    if message.kind != Kind::Centre {
        group::write(room, message.value);
    }
}

// Writes a record.
pub fn write_record(room: &mut Room, record: &Record) {
    match record {
        Record::Start { number, position } => {
            group::write(room, START);
            group::write(room, *number);
            group::write(room, *position);
        }
        Record::Taken { sender, message } => {
            group::write(room, TAKEN);
            group::write(room, *sender);
            write_message(room, message);
        }
    }
}

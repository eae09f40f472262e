// Journal records: a start, or a taken message.
#![tactic(auto)]

ghost use Rattle.std.specs.Prelude.{◌≡◌, ◌++◌, ◌+◌, ◌≤◌, length};
ghost use Rattle.base.specs.Put.{put_at};
ghost use Rattle.varint.specs.Varint.{varint_bytes};
ghost use Rattle.format.specs.Reading.{read_at};
ghost use Rattle.journal.specs.Journal.{record_bytes};
ghost use Rattle.journal.specs.Format.{start_format, from_sender, taken_format, record_format};
ghost use Rattle.journal.specs.Reading.{record_at};

use format::{Failure, Fault};
use varint::Parsed;

// The most bytes of a record that a call writes: its tag, a sender and a message; that of a start is no longer.
pub const RECORD_SIZE: usize = 2 + base::MESSAGE_SIZE;

// The tags of a start's record and of a taken message's.
const START: u32 = 1;

const TAKEN: u32 = 2;

#[derive(Clone, Copy, Debug, PartialEq, Eq)]
pub enum Record {
    Start {
        agreement: u32,
        position: base::Position,
    },
    Taken {
        sender: u8,
        message: message::Message,
    },
}

// Why no whole record was read.
#[derive(Clone, Copy, Debug, PartialEq, Eq)]
pub enum RecordError {
    // A beginning of one, which only further bytes could make whole.
    Torn,
    // Neither a record nor a beginning of one.
    Bad,
}

// A record that fails by a fault is torn where further bytes could make it whole.
impl From<Failure> for RecordError {
    ghost use Rattle.journal.specs.Reading.{FailsAs};

    ghost from_gives = { FailsAs };

    fn from(failure: Failure) -> RecordError {
        match failure.fault {
            Fault::Cut => RecordError::Torn,
            Fault::CutOutside => RecordError::Bad,
            Fault::Malformed => RecordError::Bad,
            Fault::Outside => RecordError::Bad,
            Fault::Spare => RecordError::Bad,
        }
    }
}

// A start's record after its tag.
fn read_start(s: &[u8], at: usize) -> Result<Parsed<Record>, Failure>
    ensures { result ≡ read_at start_format s.now at }
{
    let agreement = format::read_field(s, at, 0, base::MAX_NUMBER)?;
    let position = format::read_field(s, agreement.next, 0, base::MAX_POSITION)?;
    Ok(Parsed {
        value: Record::Start {
            agreement: agreement.value,
            position: position.value,
        },
        next: position.next,
    })
}

// The message of a record with this sender.
fn read_message(s: &[u8], at: usize, sender: u8) -> Result<Parsed<Record>, Failure>
    ensures { result ≡ read_at (from_sender sender) s.now at }
{
    let Parsed {
        value: message,
        next,
    } = message::read_at(s, at)?;
    let value = Record::Taken { sender, message };
    Ok(Parsed { value, next })
}

// The record of a taken message after its tag.
fn read_taken(s: &[u8], at: usize) -> Result<Parsed<Record>, Failure>
    ensures { result ≡ read_at taken_format s.now at }
{
    let sender = format::read_field(s, at, 0, base::MAX_SENDER)?;
    read_message(s, sender.next, sender.value as u8)
}

// A record, by its format.
#[tactic(auto, using(crate::proofs::Laws::tag_start, crate::proofs::Laws::tag_taken))]
fn read_record(s: &[u8], at: usize) -> Result<Parsed<Record>, Failure>
    ensures { result ≡ read_at record_format s.now at }
{
    let tag = format::read_field(s, at, START, TAKEN)?;
    if tag.value == START {
        return read_start(s, tag.next);
    }
    read_taken(s, tag.next)
}

// The record that stands at `at`.
#[tactic(auto, unfolding(crate::specs::Reading::record_at))]
pub fn read_at(s: &[u8], at: usize) -> Result<Parsed<Record>, RecordError>
    ensures { result ≡ record_at s.now at }
{
    Ok(read_record(s, at)?)
}

// How many bytes a record's tag and the number after it have.
#[tactic(auto, using(varint::proofs::Laws::pieces_most))]
fn head_size(tag: u32, number: u32) -> usize
    ensures { result ≡ length (varint_bytes tag ++ varint_bytes number) }
{
    varint::size(tag) + varint::size(number)
}

// How many bytes a record has.
pub fn size(r: Record) -> usize
    ensures { result ≡ length (record_bytes r) }
{
    match r {
        Record::Start {
            agreement,
            position,
        } => head_size(START, agreement) + varint::size(position),
        Record::Taken { sender, message } => head_size(TAKEN, u32::from(sender))
            + message::size(message),
    }
}

// A record's tag and the number after it are written from the slice's first byte on; the place past them.
fn put_head(out: &mut [u8], tag: u32, number: u32) -> usize
    requires { length (varint_bytes tag ++ varint_bytes number) ≤ length out.old }
    ensures { (result ≡ length (varint_bytes tag ++ varint_bytes number)) × (out.new ≡ put_at out.old 0 (varint_bytes tag ++ varint_bytes number)) }
{
    let i = varint::put(out, 0, tag);
    varint::put(out, i, number)
}

// A record is written from the slice's first byte on; its length.
fn put(out: &mut [u8], r: Record) -> usize
    requires { length (record_bytes r) ≤ length out.old }
    ensures { (result ≡ length (record_bytes r)) × (out.new ≡ put_at out.old 0 (record_bytes r)) }
{
    match r {
        Record::Start {
            agreement,
            position,
        } => {
            let i = put_head(out, START, agreement);
            varint::put(out, i, position)
        }
        Record::Taken { sender, message } => {
            let i = put_head(out, TAKEN, u32::from(sender));
            message::put(out, i, message)
        }
    }
}

// The record is written into the journal's unused part; the new used length.
pub fn append(journal: &mut [u8], used: usize, r: Record) -> usize
    requires { used + length (record_bytes r) ≤ length journal.old }
    ensures { (result ≡ used + length (record_bytes r)) × (journal.new ≡ put_at journal.old used (record_bytes r)) }
{
    used + put(&mut journal[used..], r)
}

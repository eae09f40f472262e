// Messages: varints of agreement number, level, kind and value.
#![tactic(auto)]

ghost use Rattle.std.specs.Prelude.{◌≡◌, ◌+◌, ◌≤◌, length};
ghost use Rattle.base.specs.Put.{put_at};
ghost use Rattle.base.specs.Question.{number_of};
ghost use Rattle.base.specs.Verdict.{Refused, refused_by};
ghost use Rattle.format.specs.Reading.{read_at};
ghost use Rattle.message_values.specs.Values.{kind_number};
ghost use Rattle.message.specs.Message.{kind_of, value_bytes, message_bytes, in_table, body_in_table};
ghost use Rattle.message.specs.Format.{body_of, value_of, from_kind};
ghost use Rattle.message.specs.Reading.{message_at, exact_message};
ghost use Rattle.message.specs.Refusals.{refusal_number};
ghost use Rattle.message.specs.Writing.{write_answer, write_buffer};

use base::{Question, Refusal};
use format::{Failure, Fault};
use message_values::Kind;
use varint::Parsed;

// The value that stands for none.
pub const NONE: u32 = message_values::NONE;

#[derive(Clone, Copy, Debug, PartialEq, Eq)]
pub enum Body {
    FirstEcho(u8),
    FirstProposal(u8),
    SecondEcho(u8),
    SecondProposal(u8),
    Side(u8),
    Centre,
}

#[derive(Clone, Copy, Debug, PartialEq, Eq)]
pub struct Message {
    pub number: u32,
    pub level: u8,
    pub body: Body,
}

// Why a message was not written.
#[derive(Clone, Copy, Debug, PartialEq, Eq)]
pub enum WriteError {
    // Its level or value is outside the table: nothing was written.
    OutsideTable,
    // The buffer is too short: nothing was written.
    NoRoom,
}

impl Body {
    // Its kind, by the table.
    pub fn kind(self) -> Kind
        ensures { kind_number result ≡ kind_of self }
    {
        match self {
            Body::FirstEcho(_) => Kind::FirstEcho,
            Body::FirstProposal(_) => Kind::FirstProposal,
            Body::SecondEcho(_) => Kind::SecondEcho,
            Body::SecondProposal(_) => Kind::SecondProposal,
            Body::Side(_) => Kind::Side,
            Body::Centre => Kind::Centre,
        }
    }

    // Its value; 0 for a centre, which has none.
    pub fn value(self) -> u8
        ensures { result ≡ value_of self }
    {
        match self {
            Body::FirstEcho(v) => v,
            Body::FirstProposal(v) => v,
            Body::SecondEcho(v) => v,
            Body::SecondProposal(v) => v,
            Body::Side(v) => v,
            Body::Centre => 0,
        }
    }

    // The body of a kind with value v.
    fn of(kind: Kind, v: u8) -> Body
        ensures { result ≡ body_of (kind_number kind) v }
    {
        match kind {
            Kind::FirstEcho => Body::FirstEcho(v),
            Kind::FirstProposal => Body::FirstProposal(v),
            Kind::SecondEcho => Body::SecondEcho(v),
            Kind::SecondProposal => Body::SecondProposal(v),
            Kind::Side => Body::Side(v),
            Kind::Centre => Body::Centre,
        }
    }
}

// The rest of a message, from its value at `at` on: none for a centre.
fn read_value(
    s: &[u8],
    at: usize,
    number: u32,
    level: u8,
    kind: Kind,
) -> Result<Parsed<Message>, Failure>
    ensures { result ≡ read_at (from_kind number level (kind_number kind)) s.now at }
{
    if kind == Kind::Centre {
        let body = Body::Centre;
        return Ok(Parsed {
            value: Message {
                number,
                level,
                body,
            },
            next: at,
        });
    }
    let Parsed { value, next } = format::read_field(s, at, kind.low(), kind.high())?;
    let body = Body::of(kind, value as u8);
    Ok(Parsed {
        value: Message {
            number,
            level,
            body,
        },
        next,
    })
}

// The message that stands at `at`.
#[tactic(auto, unfolding(crate::specs::Reading::message_at))]
pub fn read_at(s: &[u8], at: usize) -> Result<Parsed<Message>, Failure>
    ensures { result ≡ message_at s.now at }
{
    let number = format::read_field(s, at, 0, base::MAX_NUMBER)?;
    let level = format::read_field(s, number.next, 0, base::LAST_LEVEL)?;
    let field = format::read_field(s, level.next, Kind::FIRST, Kind::LAST)?;
    let kind = Kind::try_from(field.value).unwrap();
    read_value(s, field.next, number.value, level.value as u8, kind)
}

// The bytes as exactly one message.
#[tactic(auto, unfolding(crate::specs::Reading::exact_message))]
pub fn read(s: &[u8]) -> Result<Message, Failure>
    ensures { result ≡ exact_message s.now }
{
    let Parsed { value: m, next } = read_at(s, 0)?;
    if next != s.len() {
        let fault = Fault::Spare;
        return Err(Failure { fault, at: next });
    }
    Ok(m)
}

// The question that bytes with this fault answer by no: document 02's.
pub fn question(fault: Fault) -> Question
    ensures { number_of result ≡ refusal_number fault }
{
    match fault {
        Fault::Cut => Question::MessageCut,
        Fault::CutOutside => Question::MessageCut,
        Fault::Malformed => Question::MessageVarint,
        Fault::Outside => Question::MessageTable,
        Fault::Spare => Question::MessageEnd,
    }
}

// Its number.
pub fn refusal_number(fault: Fault) -> u8
    ensures { result ≡ refusal_number fault }
{
    question(fault).number()
}

// The refusal of bytes that fail so.
pub fn refusal(failure: Failure) -> Refusal
    ensures { refused_by result ≡ Refused (refusal_number failure.fault) failure.at }
{
    Refusal {
        question: question(failure.fault),
        place: failure.at,
    }
}

// Is the value within its kind's limits?
fn body_in_table(b: Body) -> bool
    ensures { result ≡ body_in_table b }
{
    let kind = b.kind();
    let v = u32::from(b.value());
    kind == Kind::Centre || (kind.low() <= v && v <= kind.high())
}

// Are level and value within the table?
pub fn in_table(m: Message) -> bool
    ensures { result ≡ in_table m }
{
    u32::from(m.level) <= base::LAST_LEVEL && body_in_table(m.body)
}

// How many bytes the value has: none for a centre.
fn value_size(b: Body) -> usize
    ensures { result ≡ length (value_bytes b) }
{
    if b == Body::Centre {
        return 0;
    }
    varint::size(u32::from(b.value()))
}

// How many bytes the message has.
#[tactic(auto, using(varint::proofs::Laws::pieces_most, crate::proofs::Laws::message_length, crate::proofs::Laws::value_most))]
pub fn size(m: Message) -> usize
    ensures { result ≡ length (message_bytes m) }
{
    let number = varint::size(m.number);
    let level = varint::size(u32::from(m.level));
    let kind = varint::size(m.body.kind().number());
    number + level + kind + value_size(m.body)
}

// The value is written from `at` on; the place past it.
#[tactic(auto, using(base::proofs::Puts::put_none))]
fn put_value(out: &mut [u8], at: usize, b: Body) -> usize
    requires { at + length (value_bytes b) ≤ length out.old }
    ensures { (result ≡ at + length (value_bytes b)) × (out.new ≡ put_at out.old at (value_bytes b)) }
{
    if b == Body::Centre {
        return at;
    }
    varint::put(out, at, u32::from(b.value()))
}

// The message is written from `at` on; the place past it. Inner: callers have shown that there is room; `write` asks.
pub fn put(out: &mut [u8], at: usize, m: Message) -> usize
    requires { at + length (message_bytes m) ≤ length out.old }
    ensures { (result ≡ at + length (message_bytes m)) × (out.new ≡ put_at out.old at (message_bytes m)) }
{
    let a = varint::put(out, at, m.number);
    let b = varint::put(out, a, u32::from(m.level));
    let c = varint::put(out, b, m.body.kind().number());
    put_value(out, c, m.body)
}

// The message is written from the buffer's first byte on, if it is in the table and fits.
#[tactic(auto, unfolding(crate::specs::Writing::write_answer, crate::specs::Writing::write_buffer))]
pub fn write(out: &mut [u8], m: Message) -> Result<usize, WriteError>
    ensures { (result ≡ write_answer out.old m) × (out.new ≡ write_buffer out.old m) }
{
    if !in_table(m) {
        return Err(WriteError::OutsideTable);
    }
    let k = size(m);
    if out.len() < k {
        return Err(WriteError::NoRoom);
    }
    put(out, 0, m);
    Ok(k)
}

// Messages spoilt in every way: cut off, with fields in too many bytes, too large or outside their limits, or with bytes behind.
use random_votes_state::message::{Kind, Message, Said};
use random_votes_state::random::Random;
use random_votes_state::vote::Vote;
use random_votes_state::{message, varint};
use second_wire::group;

// The fields of a message.
#[derive(Clone, Copy, PartialEq, Eq)]
enum Field {
    Number,
    Level,
    Kind,
    Value,
}

impl Field {
    // One of the first four numbers stands for each field, others for none.
    fn numbered(number: usize) -> Option<Field> {
        match number {
            0 => Some(Field::Number),
            1 => Some(Field::Level),
            2 => Some(Field::Kind),
            3 => Some(Field::Value),
            _ => None,
        }
    }

    // The first number above the limit of the field, in a message of this kind.
    fn past(self, kind: Kind) -> usize {
        match self {
            Field::Number => 4294967296,
            Field::Level => 15,
            Field::Kind => 7,
            Field::Value if message::has_none(kind) => 17,
            Field::Value => 16,
        }
    }

    // Whether 0 is outside the field's limits.
    fn is_from_one(self, kind: Kind) -> bool {
        match self {
            Field::Number | Field::Level => false,
            Field::Kind => true,
            Field::Value => kind == Kind::Side,
        }
    }
}

// Another agreement number: the next one, or one of any length.
pub fn other_number(v: &mut Vote) -> usize {
    let next = v.agreement.saturating_add(1) % 4294967296;
    if v.random.once_in(2) {
        return next;
    }
    let bytes = v.random.between(1, 5);
    let other = v.random.below(varint::first_beyond(bytes)) % 4294967296;
    if other == v.agreement { next } else { other }
}

// The vote's agreement number, or now and then another.
fn some_number(v: &mut Vote) -> usize {
    if v.random.once_in(4) {
        return other_number(v);
    }
    v.agreement
}

// A number outside the field's limits: just above them, above them with any number of bytes, or 0.
fn outside(random: &mut Random, field: Field, kind: Kind) -> usize {
    if field.is_from_one(kind) && random.once_in(4) {
        return 0;
    }
    let bytes = random.below(6);
    let further = random.below(varint::first_beyond(bytes));
    field.past(kind).saturating_add(further)
}

// A message that is written field by field, and where its last spoilt field ends.
#[derive(Drop)]
struct Draft {
    message: Message,
    spoilt_end: usize,
    first: Option<Field>,
    other: Option<Field>,
    kind: Kind,
}

impl Draft {
    // Writes a number, or now and then 0, in more bytes than the fewest.
    fn put_longer(&mut self, random: &mut Random, x: usize) {
        let y = if random.once_in(4) { 0 } else { x };
        let bytes = random.between(group::size(y).saturating_add(1), 7);
        self.message.put(varint::in_bytes(y, bytes).as_slice());
    }

    // Writes a spoilt field, in more bytes than the fewest or outside its limits.
    fn put_spoilt(&mut self, random: &mut Random, field: Field, x: usize) {
        if random.once_in(2) {
            self.put_longer(random, x);
        } else {
            let y = outside(random, field, self.kind);
            self.message.put(varint::fewest(y).as_slice());
        }
        self.spoilt_end = self.message.len();
    }

    // Writes a field.
    fn put(&mut self, random: &mut Random, field: Field, x: usize) {
        if self.first == Some(field) || self.other == Some(field) {
            self.put_spoilt(random, field, x);
        } else {
            self.message.put(varint::fewest(x).as_slice());
        }
    }

    // One or two bytes are put behind.
    fn lengthen(&mut self, random: &mut Random) {
        self.message.lengthen(random);
        if random.once_in(2) {
            self.message.lengthen(random);
        }
    }

    // The bytes end before the last one of the spoilt field.
    fn cut_spoilt(&mut self) {
        self.message.truncate(self.spoilt_end.saturating_sub(1));
    }

    // Bytes are cut off or put behind: always where no first field is spoilt, else now and then.
    fn spoil_end(&mut self, random: &mut Random) {
        let ways = if self.first.is_none() { 2 } else { 6 };
        match random.below(ways) {
            0 => self.message.cut(random),
            1 => self.lengthen(random),
            2 | 3 => self.cut_spoilt(),
            _ => (),
        }
    }
}

// A kind; one with a value, if that is spoilt.
fn some_kind(random: &mut Random, spoilt: Option<Field>) -> Kind {
    if spoilt == Some(Field::Value) {
        message::draw_valued(random)
    } else {
        message::draw_kind(random)
    }
}

// A spoilt message: with a spoilt field, or with none, and perhaps with another one. No cut makes it a whole one: before its spoilt field it is none, and inside that
// field every byte has the top bit.
pub fn spoilt(v: &mut Vote) -> Message {
    let first = Field::numbered(v.random.below(5));
    let other = Field::numbered(v.random.below(8));
    let number = some_number(v);
    let level = v.random.below(15);
    let kind = some_kind(&mut v.random, first);
    let value = v.random.below(16);
    let mut draft = Draft {
        message: Message::default(),
        spoilt_end: 0,
        first,
        other,
        kind,
    };
    put_fields(
        &mut v.random,
        &mut draft,
        number,
        Said { level, kind, value },
    );
    draft.spoil_end(&mut v.random);
    draft.message
}

// All fields are written; a centre has no value.
fn put_fields(random: &mut Random, draft: &mut Draft, number: usize, said: Said) {
    draft.put(random, Field::Number, number);
    draft.put(random, Field::Level, said.level);
    draft.put(random, Field::Kind, said.kind.number());
    if said.kind != Kind::Centre {
        draft.put(random, Field::Value, said.value);
    }
}

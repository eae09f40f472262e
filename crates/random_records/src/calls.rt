// A call, made on the library and on the second implementation.
use board::Called;
use party::Party;
use random_buffers::Buffers;
use random_calls::{Refused, lent, wide, word};
use random_records_draw::vote::{Action, Call};
use second::reading::lowered;
use second::record::Done;
use second_plan::question::{Question, Refusal};
use second_plan::table::Table;
use second_wire::room::Room;
use second_wire::wire;
use second_wire::wire::Message;

// What a call gave: its verdict, the journal's used length, how many bytes of messages and how many
// rules. The used length comes with a refusal too, so the verdict stands beside it.
#[derive(Clone, Copy, Debug, PartialEq, Eq)]
pub struct Outcome {
    pub verdict: Result<(), Refused>,
    pub used: usize,
    pub sent: usize,
    pub rules: usize,
}

impl Outcome {
    // Of a call on the library.
    pub fn of_first(called: &Called) -> Outcome {
        Outcome {
            verdict: called.verdict.map_err(Refused::from),
            used: called.used,
            sent: called.sent,
            rules: wide(called.rules),
        }
    }

    // Of a call on the second implementation; refused it leaves the journal's used length as it was.
    pub fn of_second(done: Result<Done, Refusal>, used: usize) -> Outcome {
        match done {
            Ok(done) => Outcome {
                verdict: Ok(()),
                used: done.used,
                sent: done.sent,
                rules: done.rules,
            },
            Err(refusal) => Outcome {
                verdict: Err(Refused::from(refusal)),
                used,
                sent: 0,
                rules: 0,
            },
        }
    }
}

// The bytes of a message.
fn bytes_of(message: &Message) -> Room {
    let mut room = Room::new();
    wire::write_message(&mut room, message);
    room
}

// The call on the library, on what is lent of its buffers.
// `make` is no instance of one function: here the party goes by value and comes back, there the table is
// lent.
pub fn make_first(p: Party, call: &Call, buffers: &mut Buffers) -> Called {
    let journal = lent(&mut buffers.journal, 0, call.lent.journal);
    let out = lent(&mut buffers.out, 0, call.lent.out);
    match call.action {
        Action::Start { reading } => board::start(p, lowered(reading), journal, call.used, out),
        Action::Take { sender, message } => {
            let bytes = bytes_of(&message);
            board::take(p, word(sender), bytes.as_slice(), journal, call.used, out)
        }
    }
}

// The call on the second implementation, on what is lent of its buffers.
fn make(t: &mut Table, call: &Call, buffers: &mut Buffers) -> Result<Done, Refusal> {
    let journal = lent(&mut buffers.journal, 0, call.lent.journal);
    let out = lent(&mut buffers.out, 0, call.lent.out);
    match call.action {
        Action::Start { reading } => second::start(t, lowered(reading), journal, call.used, out),
        Action::Take { sender, message } => {
            let bytes = bytes_of(&message);
            second::take(t, word(sender), bytes.as_slice(), journal, call.used, out)
        }
    }
}

// The same, unless question 19 of the record is answered no: then the table stays.
pub fn make_second(
    t: &mut Table,
    asked: Result<(), Question>,
    call: &Call,
    buffers: &mut Buffers,
) -> Result<Done, Refusal> {
    asked?;
    make(t, call, buffers)
}

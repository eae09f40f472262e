// The questions of a start and a take: what they find, and the record to write.
#![tactic(auto)]

ghost use Rattle.std.specs.Prelude.{◌≡◌, true, ◌≤◌};
ghost use Rattle.base.specs.Limits.{max_boards};
ghost use Rattle.board_questions.specs.Inner.{AtDoor, Fitting, AsksStart, AsksTake};

use base::{Question, Refusal};
use journal::Record;

// What a call is asked at the door: whether the party's record passes 19, which was found before, and the lengths of the lent journal, of its used part and of
// the outgoing buffer.
#[derive(Clone, Copy)]
pub struct Door {
    pub valid: bool,
    pub room: usize,
    pub used: usize,
    pub out: usize,
}

impl Door {
    // "Every call on a party: .. 19. Start, take, restore: Has the outgoing buffer 2,640 bytes (15 × 22 × 8)? 18. Start, take: Is the used length within the
    // lent journal? 20."
    pub fn ask(self) -> Result<(), Question>
        ensures { AtDoor self result }
    {
        if !self.valid {
            return Err(Question::PartyRecord);
        }
        if self.out < level_limits::OUTGOING {
            return Err(Question::OutgoingRoom);
        }
        if self.room < self.used {
            return Err(Question::UsedLength);
        }
        Ok(())
    }

    // "Record fits the journal? 17."
    fn fit(self, r: Record) -> Result<(), Question>
        requires { self.used ≤ self.room }
        ensures { Fitting self r result }
    {
        if self.room - self.used < journal::size(r) {
            return Err(Question::JournalRoom);
        }
        Ok(())
    }
}

// "Start: Not yet started? 13. Input on the plan? 12. Record fits the journal? 17.", after those at the door. The input's position is x, if it is on the plan.
pub fn ask_start(
    door: Door,
    agreement: u32,
    started: bool,
    x: Option<base::Position>,
) -> Result<Option<Record>, Refusal>
    ensures { AsksStart door agreement started x result }
{
    door.ask()?;
    if started {
        return Err(Question::NotStarted.into());
    }
    let Some(position) = x else {
        return Err(Question::OnPlan.into());
    };
    let record = Record::Start {
        agreement,
        position,
    };
    door.fit(record)?;
    Ok(Some(record))
}

// "Take: Sender below n? 14. Bytes exactly one message? 15. Our agreement number? 16. Held already, or record fits? 17.", after those at the door; in the
// place of 15 document 02's four: 15, 22, 23 and 24. No record where the message is held.
pub fn ask_take(
    door: Door,
    v: party::Vote,
    sets: &party::Sets,
    sender: u32,
    bytes: &[u8],
) -> Result<Option<Record>, Refusal>
    requires { door.valid ≡ true → v.n ≤ max_boards }
    ensures { AsksTake door v sets.now sender bytes.now result }
{
    door.ask()?;
    if v.n <= sender {
        return Err(Question::Sender.into());
    }
    // with `map_err(message::refusal)?` the proof does not close: no lemma can name what the function that is handed over ensures
    let m = match message::read(bytes) {
        Ok(m) => m,
        Err(failure) => return Err(message::refusal(failure)),
    };
    if m.number != v.agreement {
        return Err(Question::Agreement.into());
    }
    // a vote that passes 19 has at most 16 boards, so the sender fits a byte
    let sender = sender as u8;
    if senders::contains(sets[party::place(m)], sender) {
        return Ok(None);
    }
    let record = Record::Taken { sender, message: m };
    door.fit(record)?;
    Ok(Some(record))
}

// What was broken in the messages and journals that were refused, by the field at the refusal's place.
use random_votes_state::both::{JOURNAL, Journal};
use random_votes_state::call::{Call, Request};
use random_votes_state::message::Message;
use random_votes_state::outcome::Refused;
use random_votes_state::totals;
use random_votes_state::totals::{Broken, Totals};
use second_wire::group::Fault;
use second_wire::reader::Reader;
use second_wire::{reader, wire};

// The bytes end inside the message: in this field, or before its first byte.
fn count_cut(broken: &mut Broken, field: usize, is_before: bool) {
    totals::count_at(&mut broken.cut, field);
    if is_before {
        totals::count_at(&mut broken.cut_before, field);
    }
}

// A field too long or too large, of which the last byte may not be there.
fn count_malformed(broken: &mut Broken, field: usize, message: &Message) {
    totals::count_at(&mut broken.malformed, field);
    if message.ends_before(message.len()) < field {
        totals::count_at(&mut broken.malformed_cut, field);
    }
}

// A message that was refused. Its fields are 1 to 4, and a spare byte comes after the third or the fourth.
fn count_message(broken: &mut Broken, message: &Message, refused: Refused) {
    let before = message.ends_before(refused.place);
    let field = before.saturating_add(1);
    match refused.number {
        15 => count_cut(broken, field, refused.place == message.len()),
        22 => count_malformed(broken, field, message),
        23 => totals::count_at(&mut broken.outside, field),
        24 => totals::count_at(&mut broken.spare_after, before),
        _ => (),
    }
}

// Whether the record at a place of a journal is cut in a field that could only come to lie above its limit.
fn is_cut_above(journal: &[u8], place: usize) -> bool {
    matches!(
        wire::read_record(&mut Reader::new(journal, place)),
        Err(reader::Broken {
            fault: Fault::CutAbove,
            ..
        })
    )
}

// A refusal is counted, by its number and by what was broken.
pub fn count(totals: &mut Totals, journal: &Journal, call: &Call, refused: Refused) {
    totals::count_at(&mut totals.refused, refused.number % 32);
    if let Request::Take(take) = &call.request {
        count_message(&mut totals.broken, &take.message, refused);
    }
    if refused.number == 21
        && is_cut_above(&journal.first[..call.room.min(JOURNAL)], refused.place)
    {
        totals::count(&mut totals.broken.journals_above);
    }
}

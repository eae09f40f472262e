// Applying rules until none applies.
use crate::effect::Effect;
use crate::{levels, rules};
use second_plan::table;
use second_plan::table::Table;
use second_wire::room::Room;
use second_wire::wire;
use second_wire::wire::Message;

// No party applies more rules than this.
const RULES: usize = 390;

// Applies the lowest rule that applies, at the lowest level at which one does.
fn step(t: &mut Table) -> Option<(usize, Effect)> {
    for level in 0..wire::SENDING {
        if let Some(effect) = rules::apply_lowest(t, level) {
            return Some((level, effect));
        }
    }
    None
}

// What a rule at a level wants: its message is written, its side entered.
fn follow(t: &mut Table, room: &mut Room, level: usize, effect: Effect) {
    if let Some((kind, value)) = effect.message {
        let number = t.at(table::VOTE, table::NUMBER);
        let message = Message {
            number,
            level,
            kind,
            value,
        };
        wire::write_message(room, &message);
    }
    if let Some(entry) = effect.entry {
        levels::enter(t, level, entry);
    }
}

// Applies rules until none applies, and writes their messages. Gives how many they were.
pub fn run(t: &mut Table, room: &mut Room) -> usize {
    for rules in 0..RULES {
        match step(t) {
            Some((level, effect)) => follow(t, room, level, effect),
            None => return rules,
        }
    }
    RULES
}

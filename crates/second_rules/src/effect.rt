// What a rule that applies wants besides what it writes into the table.
use second_plan::table::Table;
use second_wire::wire::Kind;

// A side of a level's component to be entered, and the position there.
#[derive(Clone, Copy, Debug, PartialEq, Eq)]
pub struct Entry {
    pub side: usize,
    pub position: usize,
}

// The message to be sent, its kind and value, if any; and the side to be entered, if any.
#[derive(Clone, Copy, Debug, PartialEq, Eq)]
pub struct Effect {
    pub message: Option<(Kind, usize)>,
    pub entry: Option<Entry>,
}

impl Effect {
    // Nothing more.
    pub const NONE: Effect = Effect {
        message: None,
        entry: None,
    };

    // A message.
    pub fn say(kind: Kind, value: usize) -> Effect {
        Effect {
            message: Some((kind, value)),
            entry: None,
        }
    }

    // A side.
    pub fn enter(side: usize, position: usize) -> Effect {
        Effect {
            message: None,
            entry: Some(Entry { side, position }),
        }
    }
}

// Says it unless the flag is set, and sets it.
pub fn say_once(
    t: &mut Table,
    level: usize,
    flag: usize,
    kind: Kind,
    value: usize,
) -> Option<Effect> {
    if t.is_set(level, flag) {
        return None;
    }
    t.set(level, flag, 1);
    Some(Effect::say(kind, value))
}

// The limits of a level's record, tied to the definitions, and the limits of a party's life, which follow from them.
#![tactic(auto)]

ghost use Rattle.std.specs.Prelude.{◌≡◌};
ghost use Rattle.level_limits.specs.Tie.{limits};

use level::Level;

// In a party's life, whoever is faulty: the most rules, and the outgoing bytes that a call may need.
pub const MAX_RULES: u32 = base::SENDING_LEVELS * Level::RULES;

pub const OUTGOING: usize = base::SENDING_LEVELS as usize
    * Level::MESSAGES_WORST as usize
    * base::MESSAGE_SIZE;

// The limits as the code has them.
#[derive(Clone, Copy)]
pub struct Limits {
    pub messages: u32,
    pub messages_worst: u32,
    pub level_rules: u32,
    pub rules: u32,
    pub outgoing: usize,
}

// They are those of the definitions.
pub fn all_limits() -> Limits
    ensures { result ≡ limits }
{
    Limits {
        messages: Level::MESSAGES,
        messages_worst: Level::MESSAGES_WORST,
        level_rules: Level::RULES,
        rules: MAX_RULES,
        outgoing: OUTGOING,
    }
}

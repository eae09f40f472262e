// The calls of a script on a board's party: a start, or a take of a message that was handed over.
#![tactic(auto)]

ghost use Rattle.base.specs.Verdict.{as_verdict};
ghost use Rattle.bench_calls.specs.Room.{HasRoom};

use bench_wire::Handed;

// A start at this input, or a message that is given, as from its maker.
#[derive(Clone, Copy)]
pub enum Call {
    Start(i64),
    Take(Handed),
}

impl Call {
    // The call on the board's party. A script has no cuts, so nothing is ever restored: each call is lent an empty journal, with room for its record.
    pub fn make(self, p: party::Party, out: &mut [u8; level_limits::OUTGOING]) -> board::Called
        ensures { HasRoom (as_verdict result.verdict) }
    {
        let mut journal = [0u8; journal::RECORD_SIZE];
        match self {
            Call::Start(input) => board::start(p, input, &mut journal, 0, out),
            Call::Take(handed) => {
                let mut bytes = [0u8; base::MESSAGE_SIZE];
                // every message that was read is in the table, and has room
                let size = message::write(&mut bytes, handed.message).unwrap_or(0);
                board::take(
                    p,
                    u32::from(handed.maker),
                    bytes.get(..size).unwrap_or(&[]),
                    &mut journal,
                    0,
                    out,
                )
            }
        }
    }
}

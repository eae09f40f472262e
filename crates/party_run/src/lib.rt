// Rules applied until none does, with the messages that they make.
#![tactic(auto)]

ghost use Rattle.std.specs.Prelude.{◌≡◌, ◌+◌, ◌≤◌, ◌<◌, length};
ghost use Rattle.base.specs.Put.{put_at};
ghost use Rattle.base.specs.Limits.{level_count};
ghost use Rattle.level.specs.Inner.{InLimits};
ghost use Rattle.level.specs.Rules.{lowest_rule};
ghost use Rattle.level.specs.Tie.{as_level, as_applied, as_effect};
ghost use Rattle.party.specs.Run as Rules;
ghost use Rattle.party.specs.Tie.{as_party, sets_at};
ghost use Rattle.party_run.specs.Inner.{as_outcome, Gives, Ready, Room};

// What applying rules gave beside the party and its chart: how many rules, and the place past the outgoing bytes.
#[derive(Clone, Copy)]
pub struct Ran {
    pub rules: u32,
    pub sent: usize,
}

// The message that a rule at level i makes is written from `at` on; the place past it.
fn emit(out: &mut [u8], at: usize, number: u32, i: usize, e: level::Effect) -> usize
    requires { (at + length (Rules.bytes_of (Rules.made_by number i (as_effect e))) ≤ length out.old) × (i < 256) }
    ensures { (result ≡ at + length (Rules.bytes_of (Rules.made_by number i (as_effect e)))) × (out.new ≡ put_at out.old at (Rules.bytes_of (Rules.made_by number i (as_effect e)))) }
{
    match e {
        level::Effect::Quiet => at,
        level::Effect::Send(body) => {
            let m = message::Message {
                number,
                level: i as u8,
                body,
            };
            message::put(out, at, m)
        }
        level::Effect::Enter { side: _, keep: _ } => at,
        level::Effect::SendEnter { side } => {
            let m = message::Message {
                number,
                level: i as u8,
                body: message::Body::Side(side),
            };
            message::put(out, at, m)
        }
    }
}

// The lowest rule that applies at level i.
fn rule_at(
    sets: &party::Sets,
    i: usize,
    l: level::Level,
    c: level::Context,
) -> Option<level::Applied>
    requires { (i < level_count) × InLimits c (as_level (sets_at sets.now i) l) }
    ensures { as_applied (sets_at sets.now i) l result ≡ lowest_rule c (as_level (sets_at sets.now i) l) }
{
    let from = level_counts::SLOTS * i;
    let heard: &level_counts::Heard = sets[from..from + level_counts::SLOTS].try_into().unwrap();
    level_lowest::lowest_rule(l, heard, c)
}

// What the type of a chart says, and the proofs ask: there is a place for a survey of each level. Nothing is done.
fn surveys_full(chart: party::Chart)
    ensures { length chart.surveys ≡ level_count }
{}

// Rules until none applies. The messages are written into the buffer from the place `from` on.
// No rule applies below level i; a rule at level i opens none but at i - 1, i and i + 1. At most level_limits::MAX_RULES rules apply.
pub fn run(p: &mut party::Party, chart: &mut party::Chart, out: &mut [u8], from: usize) -> Ran
    requires { Ready (as_party p.old) chart.old × Room (Rules.run (as_party p.old)) from (length out.old) }
    ensures { Gives (Rules.run (as_party p.old)) from out.old (as_outcome p.new chart.new result) out.new }
{
    surveys_full(*chart);
    let mut sent = from;
    let mut rules: u32 = 0;
    let mut i: usize = 0;
    // counted by hand, since it goes back a level after each rule
    while i < chart.sending {
        let s = chart.surveys[i];
        let l = p.levels[i];
        let next = p.levels[i + 1];
        if let Some(a) = rule_at(&p.sets, i, l, party_step::context(p.n, p.t, s, next)) {
            sent = emit(out, sent, p.agreement, i, a.effect);
            p.levels[i] = a.level;
            let below = party_step::step(
                &p.plan,
                chart,
                s.centre,
                l.position,
                i + 1,
                next,
                a.effect,
            );
            p.levels[i + 1] = below;
            rules += 1;
            i = i.saturating_sub(1);
        } else {
            i += 1;
        }
    }
    Ran { rules, sent }
}

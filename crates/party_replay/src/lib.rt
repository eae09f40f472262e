// What a record's call does: a start, or a message taken, and then rules until none applies.
#![tactic(auto)]

ghost use Rattle.std.specs.Prelude.{◌≡◌, true, false, ℕ, ◌<◌, length, get_or};
ghost use Rattle.base.specs.Limits.{level_count};
ghost use Rattle.message.specs.Message.{in_table};
ghost use Rattle.level.specs.Inner.{no_code_level};
ghost use Rattle.level.specs.Level.{value_count};
ghost use Rattle.party.specs.Party.{started};
ghost use Rattle.party.specs.Run as Rules;
ghost use Rattle.party.specs.Tie.{as_party};
ghost use Rattle.party_life.specs.Life.{replayed, Fits};
ghost use Rattle.party_run.specs.Inner.{as_outcome, Gives, Ready, Room};

// What the type of a party's levels says, and the proofs ask: all are there, each with a place for every second echo. Nothing is done.
fn levels_full(levels: party::Levels)
    ensures { (length levels ≡ level_count) × ((i : ℕ) → i < level_count → length (get_or levels i no_code_level).echoed ≡ value_count) }
{}

// What the type of a chart says, and the proofs ask: there is a place for a survey of each level. Nothing is done.
fn surveys_full(chart: party::Chart)
    ensures { length chart.surveys ≡ level_count }
{}

// Level 0 is entered at x, and rules are applied.
fn start(
    p: &mut party::Party,
    chart: &mut party::Chart,
    x: base::Position,
    out: &mut [u8],
    from: usize,
) -> party_run::Ran
    requires { Ready (as_party p.old) chart.old × Room (Rules.starting (as_party p.old) x) from (length out.old) × (started (as_party p.old) ≡ false) × (x < p.old.plan.count) }
    ensures { Gives (Rules.starting (as_party p.old) x) from out.old (as_outcome p.new chart.new result) out.new }
{
    levels_full(p.levels);
    surveys_full(*chart);
    chart.deepest.enter_whole(&p.plan);
    let l = party_step::enter(&p.plan, chart, 0, p.levels[0], 0, x);
    p.levels[0] = l;
    party_run::run(p, chart, out, from)
}

// A message is taken from s, and rules are applied; one that is held changes nothing.
fn take(
    p: &mut party::Party,
    chart: &mut party::Chart,
    s: u8,
    m: message::Message,
    out: &mut [u8],
    from: usize,
) -> party_run::Ran
    requires { Ready (as_party p.old) chart.old × Room (Rules.taking (as_party p.old) s m) from (length out.old) × (s < p.old.n) × (in_table m ≡ true) }
    ensures { Gives (Rules.taking (as_party p.old) s m) from out.old (as_outcome p.new chart.new result) out.new }
{
    levels_full(p.levels);
    let k = party::place(m);
    let mask = p.sets[k];
    if senders::contains(mask, s) {
        return party_run::Ran {
            rules: 0,
            sent: from,
        };
    }
    p.sets[k] = senders::add(mask, s);
    party_run::run(p, chart, out, from)
}

// What a record's call does: a start, or a message taken. Its messages are written from the place `from` on.
pub fn replay(
    p: &mut party::Party,
    chart: &mut party::Chart,
    r: journal::Record,
    out: &mut [u8],
    from: usize,
) -> party_run::Ran
    requires { Ready (as_party p.old) chart.old × Room (replayed (as_party p.old) r) from (length out.old) × Fits (as_party p.old) r }
    ensures { Gives (replayed (as_party p.old) r) from out.old (as_outcome p.new chart.new result) out.new }
{
    match r {
        journal::Record::Start {
            agreement: _,
            position: x,
        } => start(p, chart, x, out, from),
        journal::Record::Taken {
            sender: s,
            message: m,
        } => take(p, chart, s, m, out, from),
    }
}

// The tests of question 19 that look at one part of a record by itself: the sets of senders, an output, a level's results, how it was entered.
#![tactic(auto)]

ghost use Rattle.std.specs.Prelude.{◌≡◌, length};
ghost use Rattle.level.specs.Level.{value_count};
ghost use Rattle.party.specs.Valid.{value_passes};
ghost use Rattle.party_fields.specs.Inner.{Unites, output_fits, is_unresolved, values_fit, entry_fits};

// The senders that some set names.
pub fn union_of(sets: &[senders::Mask]) -> senders::Mask
    ensures { Unites sets.now result }
{
    sets.iter().fold(0, |all, m| senders::either(all, *m))
}

// NOT_YET and NO_OUTPUT are numbers of the record, of which question 19 is asked whatever they are (level::Level, `party_one`).

// Is a result a value of at most d, none, or not there yet?
fn value_passes(d: u32, v: u8) -> bool
    ensures { result ≡ value_passes d v }
{
    u32::from(v) <= d || v == base::NONE || v == level::NOT_YET
}

// Is an output on a plan of so many positions, or not there yet?
pub fn output_passes(count: u32, output: base::Position) -> bool
    ensures { result ≡ output_fits count output }
{
    output == level::NO_OUTPUT || output < count
}

// A level without a degree has no result.
pub fn unresolved(l: level::Level) -> bool
    ensures answers { result ≡ is_unresolved l }
    ensures sized { length l.echoed ≡ value_count }
{
    l.first == level::NOT_YET && l.result == level::NOT_YET
}

// Do the results of a level of degree d pass?
pub fn values_pass(d: u32, l: level::Level) -> bool
    ensures { result ≡ values_fit d l }
{
    value_passes(d, l.first) && value_passes(d, l.result)
}

// May level i be entered by side k? Level 0 by no side, each next by a side of the level before, which sends.
#[tactic(auto, using(crate::proofs::Entries::entry_first, crate::proofs::Entries::entry_next))]
pub fn entry_passes(sending: usize, degree: u32, i: usize, k: u8) -> bool
    ensures { result ≡ entry_fits sending degree i k }
{
    if i == 0 {
        return k == 0;
    }
    sending == i && 1 <= k && u32::from(k) <= degree
}

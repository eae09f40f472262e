// What rule 4 counts and chooses, of the sets of senders of a level: the first result.
#![tactic(auto)]

ghost use Rattle.std.specs.Prelude.{◌≡◌, ◌<◌};
ghost use Rattle.level_counts.specs.Places.{bit_places};
ghost use Rattle.level_counts_first_result.specs.Inner.{values_with, with_digit, split_at_place, splits, result_of};

use level_counts::{Counting, Heard};

// The senders that first-echoed a value with this digit at this place.
#[tactic(auto, using(senders::proofs::Laws::over_none, senders::proofs::Laws::over_next))]
fn value_echoes(c: Counting, heard: &Heard, place: u32, digit: u8) -> senders::Mask
    requires { place < bit_places }
    ensures { result ≡ values_with heard.now c.degree place digit }
{
    let mut all = 0;
    for v in 0..=c.degree {
        if (v >> place) % 2 == digit {
            all = senders::either(all, heard[usize::from(v)]);
        }
    }
    all
}

// The senders that first-echoed none or a value with this digit at this place.
fn digit_echoes(c: Counting, heard: &Heard, place: u32, digit: u8) -> senders::Mask
    requires { place < bit_places }
    ensures { result ≡ with_digit heard.now c.degree place digit }
{
    let values = value_echoes(c, heard, place, digit);
    senders::either(values, heard[level_counts::NONE_PLACE])
}

// At this place both digits have t+1 senders.
fn split_at(c: Counting, heard: &Heard, place: u32) -> bool
    requires { place < bit_places }
    ensures { result ≡ split_at_place heard.now c.degree c.t place }
{
    senders::reaches(digit_echoes(c, heard, place, 0), c.weak())
        && senders::reaches(digit_echoes(c, heard, place, 1), c.weak())
}

// At some place both digits have t+1 senders.
fn split(c: Counting, heard: &Heard) -> bool
    ensures { result ≡ splits heard.now c.degree c.t }
{
    // A loop, since the check doesn't prove `any` over these places.
    for place in 0..level_counts::BIT_PLACES {
        if split_at(c, heard, place) {
            return true;
        }
    }
    false
}

// The first result: a value, or none.
pub fn result(c: Counting, heard: &Heard) -> Option<u8>
    ensures { result ≡ result_of heard.now c.degree c.n c.t }
{
    if let Some(v) = c.first_value(heard, level_counts::FIRST_PROPOSALS, c.quorum()) {
        return Some(v);
    }
    split(c, heard).then_some(level_counts::NONE)
}

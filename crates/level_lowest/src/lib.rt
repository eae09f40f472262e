// Which rule of a level is applied: the lowest of the fourteen that applies.
#![tactic(auto)]

ghost use Rattle.std.specs.Prelude.{◌≡◌};
ghost use Rattle.level.specs.Inner.{InLimits};
ghost use Rattle.level.specs.Rules.{lowest_rule};
ghost use Rattle.level.specs.Tie.{as_level, as_applied};

use level::{Applied, Context, Level};
use level_counts::Heard;

// The lowest rule that applies. Said rule by rule and not as a loop over their numbers, so that a rule that does not apply moves nothing.
#[tactic(auto, using(crate::proofs::Laws::taken, crate::proofs::Laws::passed), unfolding(level::specs::Rules::lowest_rule))]
pub fn lowest_rule(l: Level, heard: &Heard, c: Context) -> Option<Applied>
    requires { InLimits c (as_level heard.now l) }
    ensures { as_applied heard.now l result ≡ lowest_rule c (as_level heard.now l) }
{
    if let Some(a) = l.rule1(c) {
        return Some(a);
    }
    if let Some(a) = l.rule2(heard, c) {
        return Some(a);
    }
    if let Some(a) = l.rule3(heard, c) {
        return Some(a);
    }
    if let Some(a) = l.rule4(heard, c) {
        return Some(a);
    }
    if let Some(a) = l.rule5(c) {
        return Some(a);
    }
    if let Some(a) = l.rule6(heard, c) {
        return Some(a);
    }
    if let Some(a) = l.rule7(heard, c) {
        return Some(a);
    }
    if let Some(a) = l.rule8(heard, c) {
        return Some(a);
    }
    if let Some(a) = l.rule9(c) {
        return Some(a);
    }
    if let Some(a) = l.rule10(c) {
        return Some(a);
    }
    if let Some(a) = l.rule11(c) {
        return Some(a);
    }
    if let Some(a) = l.rule12(heard, c) {
        return Some(a);
    }
    if let Some(a) = l.rule13(heard, c) {
        return Some(a);
    }
    l.rule14(c)
}

// The fourteen rules at an entered level of three positions or more.
use crate::effect::Effect;
use crate::grading::{rule_1, rule_2, rule_3, rule_4, rule_5, rule_6, rule_7, rule_8};
use crate::moving::{rule_9, rule_10, rule_11, rule_12, rule_13, rule_14};
use second_plan::table;
use second_plan::table::Table;

// Applies the lowest rule that applies at the level, if it is entered and has three positions or
// more.
pub fn apply_lowest(t: &mut Table, level: usize) -> Option<Effect> {
    if t.is_set(level, table::SMALL) || !t.is_set(level, table::ENTERED) {
        return None;
    }
    rule_1(t, level)
        .or_else(|| rule_2(t, level))
        .or_else(|| rule_3(t, level))
        .or_else(|| rule_4(t, level))
        .or_else(|| rule_5(t, level))
        .or_else(|| rule_6(t, level))
        .or_else(|| rule_7(t, level))
        .or_else(|| rule_8(t, level))
        .or_else(|| rule_9(t, level))
        .or_else(|| rule_10(t, level))
        .or_else(|| rule_11(t, level))
        .or_else(|| rule_12(t, level))
        .or_else(|| rule_13(t, level))
        .or_else(|| rule_14(t, level))
}

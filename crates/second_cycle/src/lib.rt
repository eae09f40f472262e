// The cycle that a rejected plan's edges close, found a second time from document 02's sentence, in
// two ways. Of it only is proved that it is safe and ends.
#![tactic(auto)]

pub mod cycle;
mod joined;
pub mod path;
pub mod sets;

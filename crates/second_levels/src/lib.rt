// How busy one vote makes the wire, found a second time from the sentences of documents 01 and 02: the
// sending levels of a plan's deepest component, by going down every chain of sides. Of it only is
// proved that it is safe and ends.
#![tactic(auto)]

mod chains;

use second_plan::plans;
use second_plan::question::Refusal;
use second_plan::table::Table;
use second_plan::trees::Distances;

// The most different messages of a board at a level.
const MESSAGES: usize = 7;

// How many levels the deepest component of a plan needs to send, and 7 times that.
#[derive(Clone, Copy, Debug, PartialEq, Eq)]
pub struct Bound {
    pub levels: usize,
    pub messages: usize,
}

// What is found of a plan that passes.
pub fn find(bytes: &[u8]) -> Result<Bound, Refusal> {
    let mut t = Table::new();
    plans::read(bytes, &mut t)?;
    let d = Distances::of(&t);
    let levels = chains::deepest(&mut t, &d, 0);
    Ok(Bound {
        levels,
        messages: levels.saturating_mul(MESSAGES),
    })
}

// What the trial of plans draws at random: trees, edges that close cycles in them, and bytes that are
// no tree; and plans that pass.
#![tactic(auto)]

mod drawing;
mod order;
mod passing;
mod plans;
mod shape;
mod write;

pub use drawing::Drawing;

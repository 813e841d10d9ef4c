// What a search is over.
#![tactic(auto)]

ghost use Rattle.coded.specs.Coded.{Coded};

use super::Shape;
use plan::Plan;

// A plan, its edges and labels as numbers in a list, the readings, and the plan's states and levels.
#[derive(Clone, Copy)]
pub struct Problem<'a> {
    pub plan: &'a Plan,
    pub code: [u64; coded::SIZE],
    pub readings: &'a [i16],
    pub shape: Shape,
    pub ghost coded: { Coded plan.now code },
}

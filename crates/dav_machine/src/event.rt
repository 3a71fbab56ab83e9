use crate::effect::Effect;
use dsv_base::Moment;

/// A change of the repository, as its history has it.
#[derive(Drop)]
pub struct Event {
    /// The number of the pass by which the request came that made it.
    pub pass: u64,
    /// The number of the user who made it: the place in the users file, from 1.
    pub user: u32,
    pub moment: Moment,
    pub effect: Effect,
}

ghost use Rattle.std.specs.Prelude.{◌≡◌, IfOk};

use crate::rule::Rule;
use dsv_base::{List, NoMemory};
use std::alloc::Global;

/// What a rules file says.
#[derive(Debug, Drop)]
pub struct Rules {
    /// One rule for each counting line of a path section, in the order of these lines.
    pub list: List<Rule>,
}

impl Rules {
    /// A copy. Its one error is want of memory.
    pub fn copy(&self, alloc: Global) -> Result<Rules, NoMemory>
        ensures { IfOk result (λ copy. copy ≡ self.now) }
    {
        let mut list = Vec::new(alloc);
        'rules: for rule in self.list.get() {
            list.push(rule.copy(alloc)?)?;
        }
        Ok(Rules {
            list: List::of(list),
        })
    }
}

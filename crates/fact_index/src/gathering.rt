// The facts of a cell, gathered.
ghost use Rattle.std.specs.Prelude.{IfOk};
ghost use Rattle.fact_index.specs.Listed.{HasFactsAt};

use crate::index::FactIndex;
use circuit_model::{Cell, Fact};
use std::alloc::AllocError;

impl FactIndex {
    /// Adds the facts at the cell, in a walk over these alone.
    pub fn add_facts_at(&self, found: &mut Vec<Fact>, cell: Cell) -> Result<(), AllocError>
        ensures { IfOk result (λ _. HasFactsAt self.now.facts cell found.old.items found.new.items) }
    {
        let mut next = self.last_at(cell);
        while let Some(place) = next {
            found.push(self.fact_at(place))?;
            next = self.before(place);
        }
        Ok(())
    }
}

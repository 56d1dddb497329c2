// Which components and measured cells an environment of slots has.

ghost use Rattle.std.specs.Prelude.{◌≡◌, ◌<◌, Some, length, slice_get};
ghost use Rattle.circuit_model.specs.declared.model.Cell.{Cell};
ghost use Rattle.circuit_model.specs.Diagnoses.{AtPart, AtCell};
ghost use Rattle.environment_sets.specs.Members.{members};
ghost use Rattle.standing_view.specs.View.{places};

use crate::standing::Standing;
use environment_sets::Env;

impl Standing {
    /// Whether the environment has the component at the place, in order of declaration.
    pub fn has_part(&self, env: &Env, place: u16) -> bool
        requires { place < length self.now.parts }
        ensures { result ≡ places self.now (members env.now) (AtPart place) }
    {
        let _order = self.order();
        env.has(self.part_slot(place))
    }

    /// Whether the environment has the measured cell at the place, in order of cells.
    pub fn has_reading(&self, env: &Env, place: u16) -> bool
        requires { place < length self.now.cells }
        ensures { (c : Cell) → slice_get self.now.cells place ≡ Some c → result ≡ places self.now (members env.now) (AtCell c) }
    {
        let _order = self.order();
        env.has(self.reading_slot(place))
    }
}

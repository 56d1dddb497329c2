// The changes of a session: each is placed in the present, then what it brings is remembered and stands, and then it goes
// into the history.
ghost use Rattle.std.specs.Prelude.{◌≡◌, true};
ghost use Rattle.netlist_text.specs.Grammar.{IsPadded};
ghost use Rattle.netlist_text.specs.Placing.{IsOfPresent, adds_part};
ghost use Rattle.netlist_text.specs.declared.requests.Change.TheVariants as changes;
ghost use Rattle.session_undo.specs.Serving.{Changes, RemembersNothing, stop_of};

use crate::refusals::{Refusal, Stop, stop_for};
use crate::remembering::{note, step_back};
use crate::session::Session;
use circuit_model::{Fact, Name};
use netlist_text::{Change, check_cell, place};
use present_history::{take_back, undoing_of};
use propagation_agenda::Picker;

// What a change is stopped with that is not remembered.
fn stop_of(stop: standing_changes::Stop) -> Stop
    ensures { result ≡ stop_of stop }
{
    match stop {
        standing_changes::Stop::LoadTooLarge => Stop::Refused(Refusal::LoadTooLarge),
        standing_changes::Stop::OutOfMemory => Stop::OutOfMemory,
    }
}

impl Session {
    // A change after which nothing more and nothing less is remembered and stands.
    fn change_alone(&mut self, change: &Change) -> Result<(), Stop>
        requires alone { RemembersNothing change.now }
        requires of_present { IsOfPresent change.now }
        requires padded { IsPadded change.now }
        ensures { Changes self.old change.now result self.new }
    {
        let undoing = undoing_of(&self.present, change);
        if let Err(misfit) = place(self.alloc, change, &mut self.present) {
            return Err(stop_for(misfit));
        }
        note(
            &mut self.history,
            &mut self.remembered,
            &self.present,
            undoing,
        );
        Ok(())
    }

    // A component is placed, and then remembered; or the load would be too large, or there is no memory, and it is taken
    // back.
    fn add_part<P: Picker>(&mut self, change: &Change, picker: &mut P) -> Result<(), Stop>
        requires adds { adds_part change.now ≡ true }
        requires of_present { IsOfPresent change.now }
        requires padded { IsPadded change.now }
        ensures { Changes self.old change.now result self.new }
    {
        // For the proof alone: no more is parked than as many presents as are kept.
        let _changes = self.history.len();
        let undoing = undoing_of(&self.present, change);
        if let Err(misfit) = place(self.alloc, change, &mut self.present) {
            return Err(stop_for(misfit));
        }
        if let Err(stop) = self.remembered.add_part(self.alloc, &self.present, picker) {
            self.present.drop_part();
            return Err(stop_of(stop));
        }
        note(
            &mut self.history,
            &mut self.remembered,
            &self.present,
            undoing,
        );
        Ok(())
    }

    // A measurement is placed, and then remembered; or the load would be too large, or there is no memory, and it is taken
    // back. One that is remembered takes no memory.
    fn measure<P: Picker>(
        &mut self,
        change: &Change,
        net: &Name,
        cycle: u64,
        value: u64,
        picker: &mut P,
    ) -> Result<(), Stop>
        requires { change.now ≡ changes.Measure net.now cycle value }
        ensures { Changes self.old change.now result self.new }
    {
        // For the proof alone: no more is parked than as many presents as are kept.
        let _changes = self.history.len();
        let undoing = undoing_of(&self.present, change);
        let cell = match check_cell(&self.present, net, cycle) {
            Ok(cell) => cell,
            Err(misfit) => return Err(Stop::Refused(Refusal::Misfit(misfit))),
        };
        if let Err(misfit) = place(self.alloc, change, &mut self.present) {
            return Err(stop_for(misfit));
        }
        let fact = Fact { cell, value };
        if let Err(stop) = self.remembered.measure(&self.present, fact, picker) {
            self.present.clear_reading(cell);
            return Err(stop_of(stop));
        }
        note(
            &mut self.history,
            &mut self.remembered,
            &self.present,
            undoing,
        );
        Ok(())
    }

    // A measurement stands no more, and stays remembered.
    fn retract(&mut self, change: &Change, net: &Name, cycle: u64) -> Result<(), Stop>
        requires { change.now ≡ changes.Retract net.now cycle }
        ensures { Changes self.old change.now result self.new }
    {
        let undoing = undoing_of(&self.present, change);
        let cell = match check_cell(&self.present, net, cycle) {
            Ok(cell) => cell,
            Err(misfit) => return Err(Stop::Refused(Refusal::Misfit(misfit))),
        };
        if let Err(misfit) = place(self.alloc, change, &mut self.present) {
            return Err(stop_for(misfit));
        }
        self.remembered.park(cell);
        note(
            &mut self.history,
            &mut self.remembered,
            &self.present,
            undoing,
        );
        Ok(())
    }

    // The newest of the earlier presents is the present again. It takes no memory.
    fn undo(&mut self) -> Result<(), Stop>
        ensures { Changes self.old changes.Undo result self.new }
    {
        let Some(undoing) = self.history.pop() else {
            return Err(Stop::Refused(Refusal::NothingToUndo));
        };
        step_back(&mut self.remembered, &self.present, &self.history, undoing);
        take_back(&mut self.present, undoing);
        Ok(())
    }

    /// Makes the change, unless a check refuses it; its labels come in the order that the picker chooses, and are the same
    /// in every order. A change that is refused, or finds no memory, leaves present, earlier presents and what is
    /// remembered as before.
    pub fn change<P: Picker>(&mut self, change: &Change, picker: &mut P) -> Result<(), Stop>
        requires { IsPadded change.now }
        ensures { Changes self.old change.now result self.new }
    {
        match change {
            Change::Cycles { .. }
            | Change::Net { .. }
            | Change::Cost { .. }
            | Change::Stuck { .. }
            | Change::Acts { .. }
            | Change::Define { .. }
            | Change::Pin { .. }
            | Change::Inside { .. } => self.change_alone(change),
            Change::Add { .. } | Change::UseBlock { .. } => self.add_part(change, picker),
            Change::Measure { net, cycle, value } => {
                self.measure(change, net, *cycle, *value, picker)
            }
            Change::Retract { net, cycle } => self.retract(change, net, *cycle),
            Change::Undo => self.undo(),
        }
    }
}

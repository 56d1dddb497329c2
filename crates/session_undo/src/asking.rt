// The questions of a session.
ghost use Rattle.std.specs.Prelude.{◌≡◌, IfOk};
ghost use Rattle.environment_sets.specs.Members.{sets};
ghost use Rattle.circuit_model.specs.Present.{circuit_of};
ghost use Rattle.circuit_model.specs.Probe.{AreConflicts};
ghost use Rattle.netlist_text.specs.declared.requests.Query.TheVariants as query;
ghost use Rattle.session_undo.specs.Answers.{IsWritable};
ghost use Rattle.session_undo.specs.Serving.{Asked};

use crate::answers::Answer;
use crate::refusals::{Refusal, Stop};
use crate::session::Session;
use circuit_model::Name;
use circuit_model::limits::MOST_ASKED;
use diagnosis_order::DiagnosisStop;
use environment_sets::{Env, EnvList};
use netlist_text::{Query, check_cell};
use standing_diagnoses::{conflicts_of, diagnoses_of, first_of};
use standing_probe::probe_of;
use std::alloc::AllocError;

impl Session {
    /// Answers a question. Nothing that contracts see changes, and nothing is remembered or forgotten.
    pub fn ask(&mut self, query: &Query) -> Result<Answer, Stop>
        ensures answers { Asked self.old query.now result }
        ensures same { self.new ≡ self.old }
        ensures writable { IfOk result (IsWritable self.new) }
    {
        match query {
            Query::Label { net, cycle } => self.label(net, *cycle),
            Query::Conflicts => self.conflicts(),
            Query::Diagnose => self.diagnoses(),
            Query::Show => Ok(Answer::Show),
            Query::First { number } => self.first(*number),
            Query::Probe => self.probe(),
            Query::Explain { net, cycle, value } => self.explain(net, *cycle, *value),
            Query::Why { number } => self.why(*number),
            Query::Modes { .. } | Query::OpenBlock { .. } => {
                Err(Stop::Refused(Refusal::NotBuilt))
            }
        }
    }

    fn label(&self, net: &Name, cycle: u64) -> Result<Answer, Stop>
        ensures answers { Asked self.now (query.Label net.now cycle) result }
        ensures writable { IfOk result (IsWritable self.now) }
    {
        match check_cell(&self.present, net, cycle) {
            Ok(cell) => Ok(Answer::Label { cell }),
            Err(misfit) => Err(Stop::Refused(Refusal::Misfit(misfit))),
        }
    }

    // The conflicts of the present, each as a set of positions.
    fn conflicts_found(&self) -> Result<Vec<Env>, AllocError>
        ensures { IfOk result (λ found. AreConflicts (circuit_of self.now.present) (sets found.items)) }
    {
        conflicts_of(
            self.alloc,
            &self.remembered.engine,
            &self.remembered.standing,
        )
    }

    fn conflicts(&self) -> Result<Answer, Stop>
        ensures answers { Asked self.now query.Conflicts result }
        ensures writable { IfOk result (IsWritable self.now) }
    {
        match self.conflicts_found() {
            Ok(found) => Ok(Answer::Conflicts(EnvList::of(found))),
            Err(_) => Err(Stop::OutOfMemory),
        }
    }

    fn diagnoses(&mut self) -> Result<Answer, Stop>
        ensures answers { Asked self.old query.Diagnose result }
        ensures same { self.new ≡ self.old }
        ensures writable { IfOk result (IsWritable self.new) }
    {
        let Ok(conflicts) = self.conflicts_found() else {
            return Err(Stop::OutOfMemory);
        };
        match diagnoses_of(self.alloc, &mut self.hitter, &self.present, &conflicts) {
            Ok(found) => Ok(Answer::Diagnoses(EnvList::of(found))),
            Err(DiagnosisStop::TooMany { .. }) => Err(Stop::Refused(Refusal::TooManyDiagnoses)),
            Err(DiagnosisStop::OutOfMemory) => Err(Stop::OutOfMemory),
        }
    }

    // The first diagnoses, so many as the number says.
    fn first(&self, number: u64) -> Result<Answer, Stop>
        ensures answers { Asked self.now (query.First number) result }
        ensures writable { IfOk result (IsWritable self.now) }
    {
        if number == 0 || number > MOST_ASKED {
            return Err(Stop::Refused(Refusal::BadCount));
        }
        let Ok(conflicts) = self.conflicts_found() else {
            return Err(Stop::OutOfMemory);
        };
        match first_of(self.alloc, &self.present, &conflicts, number as usize) {
            Ok(found) => Ok(Answer::Diagnoses(EnvList::of(found))),
            Err(_) => Err(Stop::OutOfMemory),
        }
    }

    // The best next measurement.
    fn probe(&mut self) -> Result<Answer, Stop>
        ensures answers { Asked self.old query.Probe result }
        ensures same { self.new ≡ self.old }
        ensures writable { IfOk result (IsWritable self.new) }
    {
        let Ok(conflicts) = self.conflicts_found() else {
            return Err(Stop::OutOfMemory);
        };
        let diagnoses = match diagnoses_of(
            self.alloc,
            &mut self.hitter,
            &self.present,
            &conflicts,
        ) {
            Ok(found) => found,
            Err(DiagnosisStop::TooMany { .. }) => {
                return Err(Stop::Refused(Refusal::TooManyDiagnoses));
            }
            Err(DiagnosisStop::OutOfMemory) => return Err(Stop::OutOfMemory),
        };
        match probe_of(
            self.alloc,
            &self.remembered.engine,
            &self.remembered.standing,
            &self.present,
            &diagnoses,
        ) {
            Ok(best) => Ok(Answer::Probe(best)),
            Err(_) => Err(Stop::OutOfMemory),
        }
    }
}

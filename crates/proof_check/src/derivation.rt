// Derivations, and their steps.

use circuit_model::{Cell, Fact};
use std::alloc::{AllocError, Global};
use std::marker::Model;

/// A fact of a derivation, and what shows it.
#[derive(Clone, Copy, PartialEq, Eq, Debug)]
pub enum Step {
    /// It was measured.
    Measured {
        fact: Fact,
    },
    /// Words at some ports of an instance force it: the instance by its place in the component at the position `part`;
    /// the ports as a binary number whose lowest bit is the first port; and the facts at these ports, in their order.
    Inferred {
        fact: Fact,
        part: u16,
        instance: u16,
        ports: u8,
        from: [Option<Fact>; 2],
    },
}

/// What a derivation comes to.
#[derive(Clone, Copy, PartialEq, Eq, Debug)]
pub enum Ending {
    /// The fact of one of its steps holds.
    Holds,
    /// There are two words at the cell.
    TwoValues {
        cell: Cell,
        low: u64,
        high: u64,
    },
    /// Words at some ports of an instance refute it; told as in an inferred step.
    Refuted {
        part: u16,
        instance: u16,
        ports: u8,
        from: [Option<Fact>; 2],
    },
}

/// What is to be shown.
#[derive(Clone, Copy, PartialEq, Eq, Debug)]
pub enum Goal {
    /// That the fact follows.
    Value(Fact),
    /// That the environment clashes.
    Clash,
}

impl Step {
    ghost use Rattle.std.specs.Prelude.{◌≡◌};
    ghost use Rattle.circuit_model.specs.Derivation.{fact_of};
    ghost use Rattle.proof_check.specs.Written.{step_of};

    /// The fact that it shows.
    pub fn fact(&self) -> Fact
        ensures { result ≡ fact_of (step_of self.now) }
    {
        match *self {
            Step::Measured { fact } => fact,
            Step::Inferred { fact, .. } => fact,
        }
    }
}

/// Steps in order. Contracts see them as their list.
#[derive(Drop)]
pub struct Steps {
    list: Vec<Step>,
}

impl Model for Steps {
    ghost use Rattle.std.specs.Prelude.{List};
    ghost use Rattle.proof_check.specs.declared.derivation.Step.{Step};

    ghost Value = { List Step };

    ghost view = { λ steps. steps.list.items };
}

impl Steps {
    ghost use Rattle.std.specs.Prelude.{◌≡◌, ◌<◌, [], ◌∷◌, ◌++◌, length, slice_get, Some, OnOk, OnErr};

    /// No step. It takes no memory.
    pub fn new(alloc: Global) -> Steps
        ensures { result ≡ [] }
    {
        Steps {
            list: Vec::new(alloc),
        }
    }

    /// One step more, after the others. After an error all is as before.
    pub fn push(&mut self, step: Step) -> Result<(), AllocError>
        ensures ok { OnOk result (self.new ≡ self.old ++ step ∷ []) }
        ensures err { OnErr result (self.new ≡ self.old) }
    {
        self.list.push(step)?;
        Ok(())
    }

    /// How many steps there are.
    pub fn len(&self) -> usize
        ensures { result ≡ length self.now }
    {
        self.list.len()
    }

    /// The step at a place, counted from 0 and below the length.
    pub fn at(&self, i: usize) -> &Step
        requires { i < length self.now }
        ensures { slice_get self.now i ≡ Some result.now }
    {
        &self.list[i]
    }

    /// All steps, in order.
    pub fn as_slice(&self) -> &[Step]
        ensures { result.now ≡ self.now }
    {
        &self.list
    }
}

/// Steps, each shown by earlier ones, and what they come to.
#[derive(Drop)]
pub struct Derivation {
    pub steps: Steps,
    pub ending: Ending,
}

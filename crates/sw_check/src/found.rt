ghost use Rattle.std.specs.Prelude.{◌≡◌, Option};
ghost use Rattle.sw_check.specs.declared.blame.Blame.{Blame};
ghost use Rattle.sw_check.specs.Blame.{here, under};
ghost use Rattle.sw_check.specs.Inner.Found.{is_nothing, IsSoFar, FindsFirst};

use crate::rule::Rule;
use std::alloc::Global;

/// A blame whose path is still growing from its end: the last step comes first.
#[derive(Drop)]
pub(crate) struct Fault {
    pub(crate) steps: Vec<u16>,
    pub(crate) rule: Rule,
}

/// What is found first, of all that was looked at so far: nothing that fails, a failure, or that there is one
/// for whose path memory was wanting.
#[derive(Drop)]
pub(crate) enum Found {
    Nothing,
    Fault(Fault),
    Memory,
}

impl Found {
    pub(crate) fn is_nothing(&self) -> bool
        ensures { result ≡ is_nothing self.now }
    {
        match self {
            Found::Nothing => true,
            Found::Fault(_) => false,
            Found::Memory => false,
        }
    }

    /// Where nothing was found before an expression, its own fault comes before what was found below it.
    pub(crate) fn own(&mut self, alloc: Global, nothing_before: bool, fault: Option<Rule>)
        ensures { (before : Found) (below : Option Blame) → nothing_before ≡ is_nothing before → FindsFirst before self.old below → FindsFirst before self.new (here fault below) }
    {
        if nothing_before {
            if let Some(rule) = fault {
                *self = Found::Fault(Fault {
                    steps: Vec::new(alloc),
                    rule,
                });
            }
        }
    }

    /// Where nothing was found before the child of that number, what was found in it gets one step more.
    pub(crate) fn above(&mut self, nothing_before: bool, number: u16)
        ensures { (before : Found) (o : Option Blame) → nothing_before ≡ is_nothing before → FindsFirst before self.old o → FindsFirst before self.new (under number o) }
    {
        if nothing_before {
            self.step(number);
        }
    }

    /// What was found in the child of that number, as it is found one level up.
    fn step(&mut self, number: u16)
        ensures { (o : Option Blame) → IsSoFar self.old None o → IsSoFar self.new None (under number o) }
    {
        if let Found::Fault(fault) = self {
            if fault.steps.push(number).is_err() {
                *self = Found::Memory;
            }
        }
    }
}

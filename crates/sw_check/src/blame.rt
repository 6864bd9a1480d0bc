ghost use Rattle.std.specs.Prelude.{◌≡◌, ◌++◌, IfOk, OnOk, string_bytes};
ghost use Rattle.sw_tree.specs.PathText.{step_text};
ghost use Rattle.sw_tree.specs.declared.path.Step.TheVariants.{Item};
ghost use Rattle.sw_check.specs.PathText.{path_text};

use crate::rule::Rule;
use itoa::Buffer;
use std::alloc::{AllocError, AllocFailed, Global};
use std::marker::Model;

/// The way from an expression to one below it: at each step the number of the child, from 0.
#[derive(Drop)]
pub struct Path {
    pub(crate) steps: Vec<u16>,
}

impl Model for Path {
    ghost use Rattle.std.specs.Prelude.{List, ℕ};

    ghost Value = { List ℕ };

    ghost view = { λ p. p.steps.items };
}

impl Path {
    /// The steps, the first from the root.
    pub fn steps(&self) -> &[u16]
        ensures { result.now ≡ self.now }
    {
        self.steps.as_slice()
    }

    /// The path as text: `/` for no steps, else for each step `/` and its number in decimal.
    pub fn print(&self, alloc: Global) -> Result<String, AllocError>
        ensures { IfOk result (λ s. string_bytes s ≡ path_text self.now) }
    {
        let mut text = String::new(alloc);
        if self.steps.is_empty() {
            text.push_str("/")?;
        }
        for step in self.steps.as_slice() {
            push_step(&mut text, *step)?;
        }
        Ok(text)
    }
}

/// Appends the text of a step.
fn push_step(text: &mut String, step: u16) -> Result<(), AllocError>
    ensures { OnOk result (string_bytes text.new ≡ string_bytes text.old ++ step_text (Item step)) }
{
    let mut digits = Buffer::new();
    text.push_str("/")?;
    text.push_str(digits.format(step))
}

/// Where an expression isn't sound: the first failing subexpression in preorder, and the first rule
/// that fails there.
#[derive(Drop)]
pub struct Blame {
    pub path: Path,
    pub rule: Rule,
}

/// How a check fails.
#[derive(Drop)]
pub enum CheckFail {
    Blame(Blame),
    Memory,
}

impl From<AllocError> for CheckFail {
    ghost use Rattle.std.specs.Prelude.{◌≡◌};
    ghost use Rattle.sw_check.specs.declared.blame.CheckFail.TheVariants.{Memory};

    ghost from_gives = { λ _ e. e ≡ Memory };

    fn from(_: AllocError) -> CheckFail {
        CheckFail::Memory
    }
}

impl<T: Drop> From<AllocFailed<T>> for CheckFail {
    ghost use Rattle.std.specs.Prelude.{◌≡◌};
    ghost use Rattle.sw_check.specs.declared.blame.CheckFail.TheVariants.{Memory};

    ghost from_gives = { λ _ e. e ≡ Memory };

    fn from(_: AllocFailed<T>) -> CheckFail {
        CheckFail::Memory
    }
}

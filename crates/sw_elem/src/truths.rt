//! Truth values, by themselves and by their texts.

ghost use Rattle.std.specs.Prelude.{◌≡◌};
ghost use Rattle.std.specs.Option.{option_and_then};
ghost use Rattle.sw_tree.specs.Meaning.{truth};
ghost use Rattle.sw_tree.specs.Placed.{placed};
ghost use Rattle.sw_tree.specs.Tree.{truth_at};
ghost use Rattle.sw_tree.specs.Inner.View.{seen, tree_of};
ghost use Rattle.sw_elem.specs.Answers.{IsReadFreely};
ghost use Rattle.sw_elem.specs.Equations.{own_spot};
ghost use Rattle.sw_elem.specs.KeyPlace.{key_text, keyed_reads};
ghost use Rattle.sw_elem.specs.Truths as truths;

use crate::key_place;
use crate::refuse::refusal_at;
use sw_tree::fail::{DeError, Refusal};
use sw_tree::mode::Mode;
use sw_tree::view::View;

/// The truth value of which that is the text.
pub(crate) fn truth_named(text: &str) -> Option<bool>
    ensures { result ≡ truths.truth_named text.now }
{
    if text == "true" {
        Some(true)
    } else if text == "false" {
        Some(false)
    } else {
        None
    }
}

/// The truth value that the node's text names, where a text may stand for one.
fn named(view: View<'_>, mode: Mode) -> Option<bool>
    ensures { result ≡ option_and_then truths.truth_named (key_text mode (tree_of view.entry)) }
{
    match key_place::key_text(view, mode) {
        Some(text) => truth_named(text),
        None => None,
    }
}

/// The truth value that the node is, or that its text names where a text may stand for one.
#[tactic(auto, using(crate::proofs::KeyTexts::keyed))]
pub(crate) fn bool_at(view: View<'_>, mode: Mode) -> Result<bool, Refusal>
    ensures { result ≡ placed (keyed_reads truth_at truths.truth_named mode) (own_spot mode) (seen view.entry) }
{
    if let Some(value) = view.as_bool() {
        return Ok(value);
    }
    match named(view, mode) {
        Some(value) => Ok(value),
        None => Err(refusal_at(view, DeError::InvalidType(view.kind()))),
    }
}

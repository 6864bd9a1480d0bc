//! Whole numbers by themselves, of any width.

ghost use Rattle.std.specs.Prelude.{◌≡◌, ◌<◌, ◌≤◌, ◌+◌, ◌^◌, IfSome};
ghost use Rattle.std.specs.Int.Signed.{mag};
ghost use Rattle.std.specs.Option.{option_and_then};
ghost use Rattle.sw_tree.specs.Meaning.{number as number_meaning};
ghost use Rattle.sw_tree.specs.Meant.{unsigned_meaning};
ghost use Rattle.sw_tree.specs.Number.{key_number};
ghost use Rattle.sw_tree.specs.Placed.{placed};
ghost use Rattle.sw_tree.specs.Tree.{int, int_at};
ghost use Rattle.sw_tree.specs.Inner.View.{seen, tree_of};
ghost use Rattle.sw_elem.specs.Equations.{own_spot};
ghost use Rattle.sw_elem.specs.KeyPlace.{key_text, keyed_reads};
ghost use Rattle.sw_elem.specs.Numbers as numbers;
ghost use Rattle.sw_elem.specs.Numbers.{is_below, ranged};
ghost use Rattle.sw_elem.specs.Text.{IsParsedFreely};

use crate::key_place;
use crate::refuse::refusal_at;
use sw_tree::fail::{DeError, Refusal};
use sw_tree::mode::Mode;
use sw_tree::number;
use sw_tree::view::View;
use sw_tree::whole::Whole;

/// The number that the node's text spells, where a text may stand for a number.
fn spelled(view: View<'_>, mode: Mode) -> Option<Whole>
    ensures { result ≡ option_and_then key_number (key_text mode (tree_of view.entry)) }
{
    match key_place::key_text(view, mode) {
        Some(text) => number::key_number(text),
        None => None,
    }
}

/// The number that the node is, or that its text spells where a text may stand for a number.
///
/// `InvalidType` of the node's kind exactly where there is none.
#[tactic(auto, using(crate::proofs::KeyTexts::keyed))]
pub fn whole_at(view: View<'_>, mode: Mode) -> Result<Whole, Refusal>
    ensures { result ≡ placed (keyed_reads int_at key_number mode) (own_spot mode) (seen view.entry) }
{
    if let Some(number) = view.as_int() {
        return Ok(number);
    }
    match spelled(view, mode) {
        Some(number) => Ok(number),
        None => Err(refusal_at(view, DeError::InvalidType(view.kind()))),
    }
}

/// The number, where it is from 0 to `most`.
pub(crate) fn natural_below(whole: Whole, most: u128) -> Option<u128>
    ensures answer { IsParsedFreely unsigned_meaning result (ranged (is_below (most + 1)) whole) }
    ensures within { IfSome result (λ n. n ≤ most) }
{
    match whole.to_u128() {
        Some(value) if value <= most => Some(value),
        _ => None,
    }
}

/// Whether the number is from `-most - 1` to `most`.
fn is_within(value: i128, most: u128) -> bool
    ensures { result ≡ numbers.is_within (most + 1) value }
{
    if value >= 0 {
        value as u128 <= most
    } else {
        (-(value + 1)) as u128 <= most
    }
}

/// The number, where it is from `-most - 1` to `most`.
pub(crate) fn signed_within(whole: Whole, most: u128) -> Option<i128>
    requires { most < 2 ^ 127 }
    ensures answer { IsParsedFreely number_meaning result (ranged (numbers.is_within (most + 1)) whole) }
    ensures within { IfSome result (λ n. mag n ≤ most) }
{
    match whole.to_i128() {
        Some(value) => {
            if is_within(value, most) {
                Some(value)
            } else {
                None
            }
        }
        None => None,
    }
}

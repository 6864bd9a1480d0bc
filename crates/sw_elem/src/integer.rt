//! Types of whole numbers, each number by itself, and its decimal text.

ghost use Rattle.std.specs.Prelude.{◌≡◌};
ghost use Rattle.sw_tree.specs.Placed.{placed};
ghost use Rattle.sw_tree.specs.Inner.View.{seen};
ghost use Rattle.sw_elem.specs.Answers.{IsReadFreely};
ghost use Rattle.sw_elem.specs.Decimal.{decimal_parses};
ghost use Rattle.sw_elem.specs.Equations.{own_spot};
ghost use Rattle.sw_elem.specs.Numbers.{number_reads};
ghost use Rattle.sw_elem.specs.Text.{IsParsedFreely};

use crate::digits::whole_in;
use crate::element::Element;
use crate::numbers::whole_at;
use crate::refuse::refusal_at;
use crate::sealed::Sealed;
use crate::serialize::{Deserialize, Serialize};
use crate::text::{ParseFail, TextForm};
use crate::{classes, facts};
use std::alloc::{AllocError, Global};
use sw_check::class::TextClass;
use sw_check::facts::Facts;
use sw_tree::builds::Builds;
use sw_tree::fail::{DeError, DeFail, Refusal, SerFail};
use sw_tree::meant::Meant;
use sw_tree::mode::Mode;
use sw_tree::number::whole_text;
use sw_tree::skipped::Skipped;
use sw_tree::view::View;
use sw_tree::whole::Whole;

/// A type whose values are the whole numbers of a range. The twelve of std are such types; no other crate adds one.
pub trait Integer: Meant + Copy + Sealed {
    ghost use Rattle.std.specs.Prelude.{◌≡◌, ℤ, Bool};
    ghost use Rattle.sw_tree.specs.Meaning.{number};
    ghost use Rattle.sw_elem.specs.Text.{IsParsedFreely};
    ghost use Rattle.sw_elem.specs.Integer.{IsInteger};
    ghost use Rattle.sw_elem.specs.Numbers.{ranged};

    /// Whether it holds negative numbers.
    const SIGNED: bool;

    ghost SIGNED: { Bool };

    ghost fits: { ℤ → Bool };

    /// The number.
    fn to_whole(self) -> Whole
        ensures { Self.meaning self ≡ number result };

    /// The value that is the number: `None` exactly where it doesn't fit.
    fn from_whole(whole: Whole) -> Option<Self>
        ensures { IsParsedFreely Self.meaning result (ranged fits whole) };

    ghost holds: { IsInteger SIGNED fits Self.is_meaning };
}

/// The number that the node is, or that its text spells where a text may stand for a number, if it fits.
fn number_at<N: Integer>(view: View<'_>, mode: Mode) -> Result<N, Refusal>
    ensures { IsReadFreely N.meaning result (placed (number_reads N.fits mode) (own_spot mode) (seen view.entry)) }
{
    match whole_at(view, mode) {
        Ok(whole) => match N::from_whole(whole) {
            Some(value) => Ok(value),
            None => Err(refusal_at(view, DeError::InvalidValue)),
        },
        Err(refusal) => Err(refusal),
    }
}

/// The number that the text spells in decimal, if it fits.
fn number_in<N: Integer>(text: &str) -> Option<N>
    ensures { IsParsedFreely N.meaning result (decimal_parses N.SIGNED N.fits text.now) }
{
    match whole_in(text, N::SIGNED) {
        Some(whole) => N::from_whole(whole),
        None => None,
    }
}

impl<N: Integer> Serialize for N {
    ghost use Rattle.sw_elem.specs.Numbers.{number_writes};

    ghost writes = { number_writes };

    fn write<B: Builds>(&self, _alloc: Global, out: &mut B, _mode: Mode) -> Result<(), SerFail> {
        out.int(self.to_whole())
    }
}

/// A number out of the type's range is refused as `InvalidValue`. In key place of JSON, not
/// buffered, a text that spells a number is read as that number, and another text is refused as
/// `InvalidType` of a text; else a text is refused so, as every node is that is no number.
impl<N: Integer> Deserialize for N {
    ghost use Rattle.std.specs.Prelude.{true};
    ghost use Rattle.sw_elem.specs.Equations.{own_spot, no_skips};
    ghost use Rattle.sw_elem.specs.Numbers.{number_reads};
    ghost use Rattle.sw_elem.specs.Laws.Numbers.{number_lawful};

    const FREE: bool = true;

    ghost FREE = { true };

    ghost reads = { number_reads N.fits };

    ghost spot = { own_spot };

    ghost skips = { no_skips };

    fn deserialize(
        _alloc: Global,
        view: View<'_>,
        mode: Mode,
        _log: &mut Skipped,
    ) -> Result<N, DeFail> {
        match number_at(view, mode) {
            Ok(value) => Ok(value),
            Err(refusal) => Err(DeFail::Refused(refusal)),
        }
    }

    ghost lawful_reading = { number_lawful N.SIGNED N.fits N.is_meaning N.holds };
}

impl<N: Integer> Element for N {
    ghost use Rattle.std.specs.Prelude.{refl};
    ghost use Rattle.sw_elem.specs.Facts.{number_facts};
    ghost use Rattle.sw_elem.specs.Laws.KeyedLeaf.{number_keeps};

    ghost known = { number_facts };

    fn facts() -> Facts {
        facts::number_facts()
    }

    ghost keeps = { number_keeps N.SIGNED N.fits N.is_meaning N.holds };

    ghost passes_nothing = { λ _ _. refl };
}

/// Shown in decimal, without plus and leading zeros. A text is an optional `+`, or a `-` where the type holds negative
/// numbers, and then one or more ASCII digits, whose number is in the type's range; so `-0` is 0 there.
impl<N: Integer> TextForm for N {
    ghost use Rattle.std.specs.Prelude.{true};
    ghost use Rattle.sw_elem.specs.Decimal.{decimal_shows, decimal_parses};
    ghost use Rattle.sw_elem.specs.Laws.Decimal.{decimal_lawful};
    ghost use Rattle.sw_elem.specs.Classes.{decimal_class};

    const FREE: bool = true;

    ghost FREE = { true };

    ghost shows = { decimal_shows };

    ghost parses = { decimal_parses N.SIGNED N.fits };

    ghost class = { decimal_class N.SIGNED };

    fn show(&self, alloc: Global) -> Result<String, AllocError> {
        whole_text(alloc, self.to_whole())
    }

    fn show_to<B: Builds>(&self, _alloc: Global, out: &mut B) -> Result<(), SerFail> {
        out.int_text(self.to_whole())
    }

    fn parse(_alloc: Global, text: &str) -> Result<N, ParseFail> {
        match number_in(text) {
            Some(value) => Ok(value),
            None => Err(ParseFail::Refused),
        }
    }

    fn class() -> TextClass {
        classes::of_decimals(N::SIGNED)
    }

    ghost lawful_text = { decimal_lawful N.SIGNED N.fits N.is_meaning N.holds };
}

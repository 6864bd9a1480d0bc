//! A number that isn't 0, of each number type of std.

ghost use Rattle.std.specs.Prelude.{◌≡◌, true};
ghost use Rattle.sw_tree.specs.LeafRanks.{number_of};
ghost use Rattle.sw_number.specs.NonZero.{is_nonzero};

use std::alloc::{AllocError, Global};
use std::fmt::{self, Debug, Display, Formatter, Write};
use sw_check::class::TextClass;
use sw_check::facts::Facts;
use sw_elem::integer::Integer;
use sw_elem::refuse::refused_at;
use sw_elem::{Deserialize, Element, ParseFail, Serialize, TextForm};
use sw_tree::builds::Builds;
use sw_tree::fail::{DeError, DeFail, SerFail};
use sw_tree::meant::{Meant, Named};
use sw_tree::mode::Mode;
use sw_tree::ranked::{Keyed, Ranked};
use sw_tree::skipped::Skipped;
use sw_tree::view::View;
use sw_tree::whole::Whole;

/// A number of the type `N` that isn't 0.
///
/// It stands for std's type of that name: it is ordered, written and shown as its number.
#[derive(Copy, PartialEq, Eq, PartialOrd, Ord, Hash)]
pub struct NonZero<N: Integer> {
    number: N,
    ghost nonzero: { is_nonzero (number_of (N.meaning number)) ≡ true },
}

// A name for each number type, as std has them.
pub type NonZeroU8 = NonZero<u8>;

pub type NonZeroU16 = NonZero<u16>;

pub type NonZeroU32 = NonZero<u32>;

pub type NonZeroU64 = NonZero<u64>;

pub type NonZeroU128 = NonZero<u128>;

pub type NonZeroUsize = NonZero<usize>;

pub type NonZeroI8 = NonZero<i8>;

pub type NonZeroI16 = NonZero<i16>;

pub type NonZeroI32 = NonZero<i32>;

pub type NonZeroI64 = NonZero<i64>;

pub type NonZeroI128 = NonZero<i128>;

pub type NonZeroIsize = NonZero<isize>;

/// Whether the number isn't 0.
fn is_nonzero(whole: Whole) -> bool
    ensures { result ≡ is_nonzero whole }
{
    whole != Whole::from_u128(0)
}

impl<N: Integer> NonZero<N> {
    ghost use Rattle.std.specs.Prelude.{option_map};
    ghost use Rattle.sw_number.specs.NonZero.{unless_zero};

    /// That number: `None` exactly where it is 0.
    pub fn new(number: N) -> Option<NonZero<N>>
        ensures { option_map ⟦<NonZero<N> as Named>⟧.meaning result ≡ unless_zero (N.meaning number) }
    {
        if is_nonzero(number.to_whole()) {
            Some(NonZero { number })
        } else {
            None
        }
    }

    /// The number, which isn't 0.
    pub fn get(self) -> N
        ensures same { N.meaning result ≡ ⟦<NonZero<N> as Named>⟧.meaning self }
        ensures nonzero { is_nonzero (number_of (N.meaning result)) ≡ true }
    {
        self.number
    }
}

impl<N: Integer> Clone for NonZero<N> {
    ghost use Rattle.std.specs.Prelude.{◌≡◌, ⊤};

    ghost is_clone = { λ x y. y ≡ x };

    ghost is_infallible = { λ _. ⊤ };

    fn clone(&self) -> Result<NonZero<N>, AllocError> {
        Ok(*self)
    }
}

/// Printed as its number.
impl<N: Integer + Display> Display for NonZero<N> {
    ghost output = { λ x. N.output x.number };

    ghost styled_output = { λ x. N.styled_output x.number };

    fn fmt<W: Write>(&self, f: &mut Formatter<W>) -> fmt::Result {
        Display::fmt(&self.number, f)
    }
}

impl<N: Integer + Debug> Debug for NonZero<N> {
    ghost debug_output = { λ x. N.debug_output x.number };

    fn fmt<W: Write>(&self, f: &mut Formatter<W>) -> fmt::Result {
        Debug::fmt(&self.number, f)
    }
}

/// It means its number.
impl<N: Integer> Named for NonZero<N> {
    ghost use Rattle.sw_number.specs.NonZero.{IsNonZeroOf};

    ghost meaning = { λ x. N.meaning x.number };

    ghost is_meaning = { IsNonZeroOf N.is_meaning };
}

impl<N: Integer> Meant for NonZero<N> {
    fn in_hand(&self) {
        self.number.in_hand();
    }
}

impl<N: Integer + Ranked> Ranked for NonZero<N> {
    ghost use Rattle.sw_number.specs.Laws.NonZero.{nonzero_ranks};

    ghost order = { N.order };

    ghost order_is = { λ x y. N.order_is x.number y.number };

    ghost ranks = { nonzero_ranks N.ranks };
}

impl<N: Integer + Keyed> Keyed for NonZero<N> {
    ghost apart = { λ x y h k. N.apart x y h.0 k.0 };

    ghost same = { λ x y h k. N.same x.number y.number h.0 k.0 };

    ghost alike = { λ x y h. N.alike x.number y.number h.0 };
}

/// Written as its number.
impl<N: Integer> Serialize for NonZero<N> {
    ghost use Rattle.sw_elem.specs.Numbers.{number_writes};

    ghost writes = { number_writes };

    fn write<B: Builds>(&self, alloc: Global, out: &mut B, mode: Mode) -> Result<(), SerFail> {
        self.number.write(alloc, out, mode)
    }
}

/// Read as its number, and 0 is refused as `InvalidValue` too.
impl<N: Integer> Deserialize for NonZero<N> {
    ghost use Rattle.std.specs.Prelude.{true};
    ghost use Rattle.sw_elem.specs.Equations.{own_spot, no_skips};
    ghost use Rattle.sw_elem.specs.Numbers.{number_reads};
    ghost use Rattle.sw_elem.specs.Laws.Numbers.{number_lawful};
    ghost use Rattle.sw_number.specs.NonZero.{nonzero_fits, IsNonZeroOf};
    ghost use Rattle.sw_number.specs.Laws.NonZero.{nonzero_integer};

    const FREE: bool = true;

    ghost FREE = { true };

    ghost reads = { number_reads (nonzero_fits N.fits) };

    ghost spot = { own_spot };

    ghost skips = { no_skips };

    fn deserialize(
        alloc: Global,
        view: View<'_>,
        mode: Mode,
        log: &mut Skipped,
    ) -> Result<NonZero<N>, DeFail> {
        match N::deserialize(alloc, view, mode, log) {
            Ok(number) => match NonZero::new(number) {
                Some(value) => Ok(value),
                None => Err(refused_at(view, DeError::InvalidValue)),
            },
            Err(fail) => Err(fail),
        }
    }

    ghost lawful_reading = { number_lawful N.SIGNED (nonzero_fits N.fits) (IsNonZeroOf N.is_meaning) (nonzero_integer N.holds) };
}

impl<N: Integer> Element for NonZero<N> {
    ghost use Rattle.std.specs.Prelude.{refl};
    ghost use Rattle.sw_elem.specs.Facts.{number_facts};
    ghost use Rattle.sw_elem.specs.Laws.KeyedLeaf.{number_keeps};
    ghost use Rattle.sw_number.specs.NonZero.{nonzero_fits, IsNonZeroOf};
    ghost use Rattle.sw_number.specs.Laws.NonZero.{nonzero_integer};

    ghost known = { number_facts };

    fn facts() -> Facts {
        sw_elem::facts::number_facts()
    }

    ghost keeps = { number_keeps N.SIGNED (nonzero_fits N.fits) (IsNonZeroOf N.is_meaning) (nonzero_integer N.holds) };

    ghost passes_nothing = { λ _ _. refl };
}

/// Shown and parsed as its number; a text that spells 0 isn't parsed.
impl<N: Integer> TextForm for NonZero<N> {
    ghost use Rattle.std.specs.Prelude.{true};
    ghost use Rattle.sw_elem.specs.Decimal.{decimal_shows, decimal_parses};
    ghost use Rattle.sw_elem.specs.Laws.Decimal.{decimal_lawful};
    ghost use Rattle.sw_elem.specs.Classes.{decimal_class};
    ghost use Rattle.sw_number.specs.NonZero.{nonzero_fits, IsNonZeroOf};
    ghost use Rattle.sw_number.specs.Laws.NonZero.{nonzero_integer};

    const FREE: bool = true;

    ghost FREE = { true };

    ghost shows = { decimal_shows };

    ghost parses = { decimal_parses N.SIGNED (nonzero_fits N.fits) };

    ghost class = { decimal_class N.SIGNED };

    fn show(&self, alloc: Global) -> Result<String, AllocError> {
        self.number.show(alloc)
    }

    fn show_to<B: Builds>(&self, alloc: Global, out: &mut B) -> Result<(), SerFail> {
        self.number.show_to(alloc, out)
    }

    fn parse(alloc: Global, text: &str) -> Result<NonZero<N>, ParseFail> {
        match N::parse(alloc, text) {
            Ok(number) => match NonZero::new(number) {
                Some(value) => Ok(value),
                None => Err(ParseFail::Refused),
            },
            Err(fail) => Err(fail),
        }
    }

    fn class() -> TextClass {
        N::class()
    }

    ghost lawful_text = { decimal_lawful N.SIGNED (nonzero_fits N.fits) (IsNonZeroOf N.is_meaning) (nonzero_integer N.holds) };
}

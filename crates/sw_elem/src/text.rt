ghost use Rattle.std.specs.Prelude.{◌≡◌, IfOk, true, string_bytes};

use std::alloc::{AllocError, Global};
use sw_check::class::TextClass;
use sw_tree::builds::Builds;
use sw_tree::fail::SerFail;
use sw_tree::meant::Meant;

/// Why a text isn't parsed.
#[derive(Clone, Copy, PartialEq, Eq)]
pub enum ParseFail {
    /// The text is none of a value of the type.
    Refused,
    Memory,
}

/// A type whose values have a text each, in place of Rust's `Display` and `FromStr`.
///
/// It names the text of each meaning, the meaning of each text, if it has one, and a class. What is
/// shown parses as the value that was shown, and is of the class.
pub trait TextForm: Meant {
    ghost use Rattle.std.specs.Prelude.{List, ℕ, Bool, Option, Ok};
    ghost use Rattle.sw_tree.specs.Building.{IsBuilt};
    ghost use Rattle.sw_tree.specs.Tree as node;
    ghost use Rattle.sw_tree.specs.Meaning.{Meaning};
    ghost use Rattle.sw_check.specs.declared.class.TextClass.{TextClass};
    ghost use Rattle.sw_elem.specs.Text.{IsParsed, ParsesFreely, LawfulText};

    /// Whether parsing takes no memory.
    const FREE: bool;

    ghost FREE: { Bool };

    ghost shows: { Meaning → List ℕ };

    ghost parses: { List ℕ → Option Meaning };

    ghost class: { TextClass };

    /// The value's text. The one error is want of memory.
    fn show(&self, alloc: Global) -> Result<String, AllocError>
        ensures { IfOk result (λ s. string_bytes s ≡ shows (Self.meaning self.now)) };

    /// Puts the value's text into what is built. The one error is want of memory.
    fn show_to<B: Builds>(&self, alloc: Global, out: &mut B) -> Result<(), SerFail>
        ensures { IsBuilt result (Ok (B.put (node.text (shows (Self.meaning self.now))) out.old)) out.new }
    {
        match self.show(alloc) {
            Ok(text) => out.text(text.as_str()),
            Err(_) => Err(SerFail::Memory),
        }
    }

    /// The value of the text. `Refused` exactly where the text has none; `Memory` only where `FREE` is false.
    fn parse(alloc: Global, text: &str) -> Result<Self, ParseFail>
        ensures value { IsParsed Self.meaning result (parses text.now) }
        ensures free { FREE ≡ true → ParsesFreely result };

    /// The class of the texts that are shown.
    fn class() -> TextClass
        ensures { result ≡ class };

    ghost lawful_text: { LawfulText Self.is_meaning shows parses class };
}

//! The texts of truth values, characters and texts.

use crate::classes;
use crate::strings::{char_in, char_text, copied, put_char};
use crate::text::{ParseFail, TextForm};
use crate::truths::truth_named;
use std::alloc::{AllocError, Global};
use sw_check::class::TextClass;
use sw_tree::builds::Builds;
use sw_tree::fail::SerFail;

/// `true` or `false`.
impl TextForm for bool {
    ghost use Rattle.std.specs.Prelude.{true};
    ghost use Rattle.sw_elem.specs.Truths.{truth_shows, truth_parses};
    ghost use Rattle.sw_elem.specs.Laws.Text.{truth_lawful};
    ghost use Rattle.sw_elem.specs.Classes.{truth_class};

    const FREE: bool = true;

    ghost FREE = { true };

    ghost shows = { truth_shows };

    ghost parses = { truth_parses };

    ghost class = { truth_class };

    fn show(&self, alloc: Global) -> Result<String, AllocError> {
        if *self {
            String::from_str(alloc, "true")
        } else {
            String::from_str(alloc, "false")
        }
    }

    fn show_to<B: Builds>(&self, _alloc: Global, out: &mut B) -> Result<(), SerFail> {
        if *self {
            out.text("true")
        } else {
            out.text("false")
        }
    }

    fn parse(_alloc: Global, text: &str) -> Result<bool, ParseFail> {
        match truth_named(text) {
            Some(value) => Ok(value),
            None => Err(ParseFail::Refused),
        }
    }

    fn class() -> TextClass {
        classes::truth_letters()
    }

    ghost lawful_text = { truth_lawful };
}

/// Exactly one character.
impl TextForm for char {
    ghost use Rattle.std.specs.Prelude.{true};
    ghost use Rattle.sw_elem.specs.Strings.{text_shows, character_parses};
    ghost use Rattle.sw_elem.specs.Laws.Text.{character_lawful};
    ghost use Rattle.sw_elem.specs.Classes.{byte_class};

    const FREE: bool = true;

    ghost FREE = { true };

    ghost shows = { text_shows };

    ghost parses = { character_parses };

    ghost class = { byte_class true };

    fn show(&self, alloc: Global) -> Result<String, AllocError> {
        char_text(alloc, *self)
    }

    fn show_to<B: Builds>(&self, _alloc: Global, out: &mut B) -> Result<(), SerFail> {
        put_char(out, *self)
    }

    fn parse(_alloc: Global, text: &str) -> Result<char, ParseFail> {
        match char_in(text) {
            Some(value) => Ok(value),
            None => Err(ParseFail::Refused),
        }
    }

    fn class() -> TextClass {
        classes::every_byte(true)
    }

    ghost lawful_text = { character_lawful };
}

/// Any text.
impl TextForm for String {
    ghost use Rattle.std.specs.Prelude.{false};
    ghost use Rattle.sw_elem.specs.Strings.{text_shows, text_parses};
    ghost use Rattle.sw_elem.specs.Laws.Text.{text_lawful};
    ghost use Rattle.sw_elem.specs.Classes.{byte_class};

    const FREE: bool = false;

    ghost FREE = { false };

    ghost shows = { text_shows };

    ghost parses = { text_parses };

    ghost class = { byte_class false };

    fn show(&self, alloc: Global) -> Result<String, AllocError> {
        String::from_str(alloc, self.as_str())
    }

    fn show_to<B: Builds>(&self, _alloc: Global, out: &mut B) -> Result<(), SerFail> {
        out.text(self.as_str())
    }

    fn parse(alloc: Global, text: &str) -> Result<String, ParseFail> {
        match copied(alloc, text) {
            Ok(copy) => Ok(copy),
            Err(_) => Err(ParseFail::Memory),
        }
    }

    fn class() -> TextClass {
        classes::every_byte(false)
    }

    ghost lawful_text = { text_lawful };
}

//! Texts and characters, by their bytes.

ghost use Rattle.std.specs.Prelude.{◌≡◌, Some, Ok, IfOk, string_bytes};
ghost use Rattle.std.specs.Char.{encode_utf8};
ghost use Rattle.sw_tree.specs.Building.{IsBuilt};
ghost use Rattle.sw_tree.specs.Meant.{text_meaning, char_meaning};
ghost use Rattle.sw_tree.specs.Tree.{text};
ghost use Rattle.sw_elem.specs.Text.{IsParsedFreely};
ghost use Rattle.sw_elem.specs.Strings.{text_parses, character_parses};

use std::alloc::{AllocError, Global};
use sw_tree::builds::Builds;
use sw_tree::fail::SerFail;

/// An equal text.
pub(crate) fn copied(alloc: Global, text: &str) -> Result<String, AllocError>
    ensures { IfOk result (λ s. text_parses text.now ≡ Some (text_meaning s)) }
{
    match String::from_str(alloc, text) {
        Ok(copy) => Ok(copy),
        Err(error) => Err(error),
    }
}

/// The text of the character.
pub(crate) fn char_text(alloc: Global, value: char) -> Result<String, AllocError>
    ensures { IfOk result (λ s. string_bytes s ≡ encode_utf8 value) }
{
    let mut text = String::new(alloc);
    text.push(value)?;
    Ok(text)
}

/// Puts the text of the character in.
pub(crate) fn put_char<B: Builds>(out: &mut B, value: char) -> Result<(), SerFail>
    ensures { IsBuilt result (Ok (B.put (text (encode_utf8 value)) out.old)) out.new }
{
    let mut bytes = [0; 4];
    out.text(value.encode_utf8(&mut bytes))
}

/// The character of which that is the text.
pub(crate) fn char_in(text: &str) -> Option<char>
    ensures { IsParsedFreely char_meaning result (character_parses text.now) }
{
    match text.parse::<char>() {
        Ok(value) => Some(value),
        Err(_) => None,
    }
}

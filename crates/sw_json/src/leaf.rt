//! What stands below lists and maps, printed.

ghost use Rattle.std.specs.Prelude.{◌≡◌, ◌∷◌, ◌++◌, [], Some, pos, ◌<◌};
ghost use Rattle.std.specs.Char.{digit_char};
ghost use Rattle.sw_tree.specs.Tree.{truth, int, text, bytes};
ghost use Rattle.sw_tree.specs.Image.{numbers};
ghost use Rattle.sw_json.specs.Text.{escape_of, escaped, more_items, json_text};
ghost use Rattle.sw_json.specs.Inner.Text.{key_text};
ghost use Rattle.sw_json.specs.Inner.Pushed.{IsPushed};

use crate::plain::{are_plain, split_plain};
use itoa::Buffer;
use sw_tree::{PrintError, Whole};

/// Appends these bytes. The one refusal is `Memory`.
#[inline]
pub(crate) fn append(out: &mut Vec<u8>, bytes: &[u8]) -> Result<(), PrintError>
    ensures { IsPushed result out.old.items out.new.items (Some bytes.now) }
{
    if out.extend_from_slice(bytes).is_err() {
        return Err(PrintError::Memory);
    }
    Ok(())
}

/// Appends this byte. The one refusal is `Memory`.
#[inline]
pub(crate) fn append_byte(out: &mut Vec<u8>, byte: u8) -> Result<(), PrintError>
    ensures { IsPushed result out.old.items out.new.items (Some (byte ∷ [])) }
{
    if out.reserve(1).is_err() {
        return Err(PrintError::Memory);
    }
    out.push_reserved(byte);
    Ok(())
}

pub(crate) fn push_bool(out: &mut Vec<u8>, value: bool) -> Result<(), PrintError>
    ensures { IsPushed result out.old.items out.new.items (json_text (truth value)) }
{
    if value {
        append(out, b"true")
    } else {
        append(out, b"false")
    }
}

/// Appends the text that a truth value is as a key.
pub(crate) fn push_bool_key(out: &mut Vec<u8>, value: bool) -> Result<(), PrintError>
    ensures { IsPushed result out.old.items out.new.items (key_text (truth value)) }
{
    if value {
        push_text(out, "true")
    } else {
        push_text(out, "false")
    }
}

/// Appends the text that a number is as a key: its digits need no escape.
#[inline(always)]
#[tactic(auto, using(crate::proofs::Digits::digits_pushed))]
pub(crate) fn push_number_key(out: &mut Vec<u8>, number: Whole) -> Result<(), PrintError>
    ensures { IsPushed result out.old.items out.new.items (key_text (int number)) }
{
    let mut digits = Buffer::new();
    push_plain(out, number.format(&mut digits).as_bytes())
}

#[inline(always)]
pub(crate) fn push_number(out: &mut Vec<u8>, number: Whole) -> Result<(), PrintError>
    ensures { IsPushed result out.old.items out.new.items (json_text (int number)) }
{
    let mut digits = Buffer::new();
    append(out, number.format(&mut digits).as_bytes())
}

/// Appends the list of these numbers.
pub(crate) fn push_bytes(out: &mut Vec<u8>, values: &[u8]) -> Result<(), PrintError>
    ensures { IsPushed result out.old.items out.new.items (json_text (bytes values.now)) }
{
    append(out, b"[")?;
    match values.split_first() {
        None => append(out, b"]"),
        Some((first, rest)) => {
            push_byte(out, *first)?;
            push_more_bytes(out, rest)
        }
    }
}

/// Appends the numbers behind the first, each behind a comma, and the closing bracket.
fn push_more_bytes(out: &mut Vec<u8>, values: &[u8]) -> Result<(), PrintError>
    ensures { IsPushed result out.old.items out.new.items
        (Some (more_items (numbers values.now) [])) }
{
    for value in values {
        append(out, b",")?;
        push_byte(out, *value)?;
    }
    append(out, b"]")
}

fn push_byte(out: &mut Vec<u8>, value: u8) -> Result<(), PrintError>
    ensures { IsPushed result out.old.items out.new.items (json_text (int (pos value))) }
{
    let mut digits = Buffer::new();
    append(out, digits.format(value).as_bytes())
}

/// Appends the text between its quotes.
pub(crate) fn push_text(out: &mut Vec<u8>, content: &str) -> Result<(), PrintError>
    ensures { IsPushed result out.old.items out.new.items (json_text (text content.now)) }
{
    let bytes = content.as_bytes();
    if are_plain(bytes) {
        return push_plain(out, bytes);
    }
    append(out, b"\"")?;
    push_escaped(out, bytes)?;
    append(out, b"\"")
}

/// Appends the bytes between quotes.
#[inline]
fn push_plain(out: &mut Vec<u8>, bytes: &[u8]) -> Result<(), PrintError>
    ensures { IsPushed result out.old.items out.new.items (Some (34 ∷ bytes.now ++ 34 ∷ [])) }
{
    append_byte(out, b'"')?;
    append(out, bytes)?;
    append_byte(out, b'"')
}

/// Appends the bytes of a text, those that need no escape in runs.
fn push_escaped(out: &mut Vec<u8>, content: &[u8]) -> Result<(), PrintError>
    ensures { IsPushed result out.old.items out.new.items (Some (escaped content.now [])) }
{
    let mut rest = content;
    'runs: loop {
        let (run, behind) = split_plain(rest);
        append(out, run)?;
        let Some((byte, after)) = behind.split_first() else {
            return Ok(());
        };
        push_escape(out, *byte)?;
        rest = after;
    }
}

#[tactic(auto, unfolding(crate::specs::Text::escape_of))]
fn push_escape(out: &mut Vec<u8>, byte: u8) -> Result<(), PrintError>
    ensures { IsPushed result out.old.items out.new.items (Some (escape_of byte)) }
{
    match byte {
        b'"' => append(out, b"\\\""),
        b'\\' => append(out, b"\\\\"),
        0x08 => append(out, b"\\b"),
        0x0c => append(out, b"\\f"),
        b'\n' => append(out, b"\\n"),
        b'\r' => append(out, b"\\r"),
        b'\t' => append(out, b"\\t"),
        0..0x20 => append(
            out,
            &[
                b'\\',
                b'u',
                b'0',
                b'0',
                hex_digit(byte / 16),
                hex_digit(byte % 16),
            ],
        ),
        _ => append(out, &[byte]),
    }
}

/// A lower-case hexadecimal digit.
fn hex_digit(value: u8) -> u8
    requires { value < 16 }
    ensures { result ≡ digit_char value }
{
    if value < 10 {
        b'0' + value
    } else {
        b'a' - 10 + value
    }
}

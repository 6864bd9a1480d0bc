//! What is put into a text, each behind its separator.
#![tactic(auto, using(crate::proofs::Piecing::pieces))]

ghost use Rattle.std.specs.Prelude.{◌≡◌, ◌+◌, ◌<◌, ◌≤◌, [], ◌∷◌, ◌++◌, Some, vec_len, vec_capacity};
ghost use Rattle.std.specs.Fmt.{signed_decimal};
ghost use Rattle.sw_tree.specs.Tree.{null, truth, int, text, bytes};
ghost use Rattle.sw_json.specs.Inner.Pushed.{IsPushed, joined};
ghost use Rattle.sw_json.specs.Inner.Turns.{separator, piece, opening, bracket, ending};

use crate::leaf::{
    append, append_byte, push_bool, push_bool_key, push_bytes, push_number, push_number_key,
    push_text,
};
use crate::numeral::{put_digits, put_quoted_digits};
use crate::plain::are_plain;
use crate::turn::Turn;
use sw_tree::{PrintError, Whole};

/// Appends what stands in front of the next part.
#[inline]
fn separate(out: &mut Vec<u8>, turn: Turn) -> Result<(), PrintError>
    ensures { IsPushed result out.old.items out.new.items (Some (separator turn)) }
{
    match turn {
        Turn::Root => Ok(()),
        Turn::First => Ok(()),
        Turn::Item => append_byte(out, b','),
        Turn::FirstKey => Ok(()),
        Turn::Key => append_byte(out, b','),
        Turn::Value => append_byte(out, b':'),
    }
}

fn null_piece(out: &mut Vec<u8>, turn: Turn) -> Result<(), PrintError>
    ensures { IsPushed result out.old.items out.new.items (piece turn null) }
{
    if turn.is_key() {
        Err(PrintError::Key)
    } else {
        append(out, b"null")
    }
}

pub(crate) fn put_null(out: &mut Vec<u8>, turn: Turn) -> Result<(), PrintError>
    ensures { IsPushed result out.old.items out.new.items (joined (Some (separator turn)) (piece turn null)) }
{
    separate(out, turn)?;
    null_piece(out, turn)
}

fn bool_piece(out: &mut Vec<u8>, turn: Turn, value: bool) -> Result<(), PrintError>
    ensures { IsPushed result out.old.items out.new.items (piece turn (truth value)) }
{
    if turn.is_key() {
        push_bool_key(out, value)
    } else {
        push_bool(out, value)
    }
}

pub(crate) fn put_bool(out: &mut Vec<u8>, turn: Turn, value: bool) -> Result<(), PrintError>
    ensures { IsPushed result out.old.items out.new.items (joined (Some (separator turn)) (piece turn (truth value))) }
{
    separate(out, turn)?;
    bool_piece(out, turn, value)
}

#[inline]
fn int_piece(out: &mut Vec<u8>, turn: Turn, value: Whole) -> Result<(), PrintError>
    ensures { IsPushed result out.old.items out.new.items (piece turn (int value)) }
{
    if turn.is_key() {
        push_number_key(out, value)
    } else {
        push_number(out, value)
    }
}

/// A number of 64 bits, in one.
#[inline(always)]
fn put_short(out: &mut Vec<u8>, turn: Turn, value: i64) -> Result<(), PrintError>
    ensures { IsPushed result out.old.items out.new.items (joined (Some (separator turn)) (piece turn (int value))) }
{
    if turn.is_key() {
        put_quoted_digits(out, turn, value)
    } else {
        put_digits(out, turn, value)
    }
}

/// Any number.
#[inline(never)]
fn put_wide(out: &mut Vec<u8>, turn: Turn, value: Whole) -> Result<(), PrintError>
    ensures { IsPushed result out.old.items out.new.items (joined (Some (separator turn)) (piece turn (int value))) }
{
    separate(out, turn)?;
    int_piece(out, turn, value)
}

#[inline]
pub(crate) fn put_int(out: &mut Vec<u8>, turn: Turn, value: Whole) -> Result<(), PrintError>
    ensures { IsPushed result out.old.items out.new.items (joined (Some (separator turn)) (piece turn (int value))) }
{
    match value.to_i64() {
        None => put_wide(out, turn, value),
        Some(short) => put_short(out, turn, short),
    }
}

/// A text is the same as a key and elsewhere.
#[inline]
fn text_piece(out: &mut Vec<u8>, turn: Turn, value: &str) -> Result<(), PrintError>
    ensures { IsPushed result out.old.items out.new.items (piece turn (text value.now)) }
{
    push_text(out, value)
}

/// Appends the bytes between quotation marks, behind their separator.
#[inline]
fn put_plain(out: &mut Vec<u8>, turn: Turn, bytes: &[u8]) -> Result<(), PrintError>
    ensures { IsPushed result out.old.items out.new.items
        (Some (separator turn ++ (34 ∷ (bytes.now ++ 34 ∷ [])))) }
{
    if out.reserve(bytes.len() + 3).is_err() {
        return Err(PrintError::Memory);
    }
    put_separator(out, turn);
    out.push_reserved(b'"');
    if out.extend_from_slice(bytes).is_err() {
        return Err(PrintError::Memory);
    }
    out.push_reserved(b'"');
    Ok(())
}

/// Appends the separator, for which there is room.
#[inline(always)]
fn put_separator(out: &mut Vec<u8>, turn: Turn)
    requires { vec_len out.old < vec_capacity out.old }
    ensures items { out.new.items ≡ out.old.items ++ separator turn }
    ensures len { vec_len out.new ≤ vec_len out.old + 1 }
    ensures capacity { vec_capacity out.new ≡ vec_capacity out.old }
{
    match turn {
        Turn::Root => (),
        Turn::First => (),
        Turn::Item => out.push_reserved(b','),
        Turn::FirstKey => (),
        Turn::Key => out.push_reserved(b','),
        Turn::Value => out.push_reserved(b':'),
    }
}

#[inline]
pub(crate) fn put_text(out: &mut Vec<u8>, turn: Turn, value: &str) -> Result<(), PrintError>
    ensures { IsPushed result out.old.items out.new.items (joined (Some (separator turn)) (piece turn (text value.now))) }
{
    let bytes = value.as_bytes();
    if are_plain(bytes) {
        return put_plain(out, turn, bytes);
    }
    separate(out, turn)?;
    text_piece(out, turn, value)
}

#[inline]
fn int_text_piece(out: &mut Vec<u8>, turn: Turn, value: Whole) -> Result<(), PrintError>
    ensures { IsPushed result out.old.items out.new.items (piece turn (text (signed_decimal value))) }
{
    push_number_key(out, value)
}

/// The text of a number of 64 bits, in one.
#[inline(always)]
fn put_short_text(out: &mut Vec<u8>, turn: Turn, value: i64) -> Result<(), PrintError>
    ensures { IsPushed result out.old.items out.new.items (joined (Some (separator turn)) (piece turn (text (signed_decimal value)))) }
{
    put_quoted_digits(out, turn, value)
}

/// The text of any number.
#[inline(never)]
fn put_wide_text(out: &mut Vec<u8>, turn: Turn, value: Whole) -> Result<(), PrintError>
    ensures { IsPushed result out.old.items out.new.items (joined (Some (separator turn)) (piece turn (text (signed_decimal value)))) }
{
    separate(out, turn)?;
    int_text_piece(out, turn, value)
}

/// Appends the number as a text.
#[inline]
pub(crate) fn put_int_text(out: &mut Vec<u8>, turn: Turn, value: Whole) -> Result<(), PrintError>
    ensures { IsPushed result out.old.items out.new.items (joined (Some (separator turn)) (piece turn (text (signed_decimal value)))) }
{
    match value.to_i64() {
        None => put_wide_text(out, turn, value),
        Some(short) => put_short_text(out, turn, short),
    }
}

fn bytes_piece(out: &mut Vec<u8>, turn: Turn, value: &[u8]) -> Result<(), PrintError>
    ensures { IsPushed result out.old.items out.new.items (piece turn (bytes value.now)) }
{
    if turn.is_key() {
        Err(PrintError::Key)
    } else {
        push_bytes(out, value)
    }
}

pub(crate) fn put_bytes(out: &mut Vec<u8>, turn: Turn, value: &[u8]) -> Result<(), PrintError>
    ensures { IsPushed result out.old.items out.new.items (joined (Some (separator turn)) (piece turn (bytes value.now))) }
{
    separate(out, turn)?;
    bytes_piece(out, turn, value)
}

/// Appends the bracket, for which there is room.
#[inline(always)]
fn put_bracket(out: &mut Vec<u8>, is_map: bool)
    requires { vec_len out.old < vec_capacity out.old }
    ensures { out.new.items ≡ out.old.items ++ bracket is_map }
{
    if is_map {
        out.push_reserved(b'{')
    } else {
        out.push_reserved(b'[')
    }
}

/// Appends what a list or map begins with.
#[inline]
pub(crate) fn put_open(out: &mut Vec<u8>, turn: Turn, is_map: bool) -> Result<(), PrintError>
    ensures { IsPushed result out.old.items out.new.items (joined (Some (separator turn)) (opening turn is_map)) }
{
    if turn.is_key() {
        return Err(PrintError::Key);
    }
    if out.reserve(2).is_err() {
        return Err(PrintError::Memory);
    }
    put_separator(out, turn);
    put_bracket(out, is_map);
    Ok(())
}

/// Appends what the list or map ends with.
#[inline]
pub(crate) fn put_ending(out: &mut Vec<u8>, turn: Turn) -> Result<(), PrintError>
    ensures { IsPushed result out.old.items out.new.items (Some (ending turn)) }
{
    match turn {
        Turn::Root => Ok(()),
        Turn::First => append_byte(out, b']'),
        Turn::Item => append_byte(out, b']'),
        Turn::FirstKey => append_byte(out, b'}'),
        Turn::Key => append_byte(out, b'}'),
        Turn::Value => append_byte(out, b'}'),
    }
}

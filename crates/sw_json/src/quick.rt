//! The usual tokens, each of them read and added to the document in one step.

ghost use Rattle.std.specs.Prelude.{◌≡◌, ◌<◌, ◌∷◌, ℕ, None, length, IfOk, reverse};
ghost use Rattle.sw_json.specs.Inner.Building.{effect};
ghost use Rattle.sw_json.specs.Inner.Place.{opening};
ghost use Rattle.sw_json.specs.Inner.Quick.{CanTake, Takes, opening_byte, closing_byte};

use crate::place::{
    Open, Place, behind_closing, behind_colon, behind_comma, behind_number, behind_opening,
    behind_text, enter, leave,
};
use crate::plain::split_ascii_text;
use crate::short::short_number;
use std::alloc::AllocError;
use sw_tree::builder::DocBuilder;
use sw_tree::fail::WireError;

/// Adds the text behind its opening quotation mark, which is at that offset.
#[inline(always)]
fn take_text<'a>(
    builder: &mut DocBuilder<'_>,
    levels: &Vec<Open>,
    place: Place,
    fault: Option<WireError>,
    at: usize,
    bytes: &'a [u8],
) -> Result<Option<(Place, &'a [u8])>, AllocError>
    requires can { CanTake at place (reverse levels.now.items) (34 ∷ bytes.now) fault builder.old }
    ensures { IfOk result (Takes at place (reverse levels.now.items) (reverse levels.now.items) (34 ∷ bytes.now) fault builder.old builder.new) }
{
    let Some(next) = behind_text(place) else {
        return Ok(None);
    };
    let Some((text, behind)) = split_ascii_text(bytes) else {
        return Ok(None);
    };
    if fault.is_some() {
        return Ok(Some((next, behind)));
    }
    let start = at + 1;
    builder.text(start, start + text.len())?;
    Ok(Some((next, behind)))
}

/// Adds the number in front, which is at that offset, where it is a short int.
#[inline(always)]
fn take_number<'a>(
    builder: &mut DocBuilder<'_>,
    levels: &Vec<Open>,
    place: Place,
    fault: Option<WireError>,
    at: usize,
    bytes: &'a [u8],
) -> Result<Option<(Place, &'a [u8])>, AllocError>
    requires can { CanTake at place (reverse levels.now.items) bytes.now fault builder.old }
    ensures { IfOk result (Takes at place (reverse levels.now.items) (reverse levels.now.items) bytes.now fault builder.old builder.new) }
{
    let Some(next) = behind_number(place) else {
        return Ok(None);
    };
    let Some((value, behind)) = short_number(bytes) else {
        return Ok(None);
    };
    if fault.is_some() {
        return Ok(Some((next, behind)));
    }
    builder.small(value)?;
    Ok(Some((next, behind)))
}

/// Opens a list or map, in the stack and in the document. After want of memory it may be in
/// the stack alone.
#[inline(always)]
fn begin(builder: &mut DocBuilder<'_>, levels: &mut Vec<Open>, kind: Open) -> Result<(), AllocError>
    requires no_root { builder.old.root ≡ None }
    requires room { length builder.old.frames < 128 }
    ensures opens { IfOk result (λ _. reverse levels.new.items ≡ kind ∷ reverse levels.old.items) }
    ensures built { (at : ℕ) → IfOk result (λ _. builder.new ≡ effect (opening at kind) builder.old) }
{
    enter(levels, kind)?;
    match kind {
        Open::List => builder.open_list(),
        Open::Map => builder.open_map(),
    }
}

/// Opens a list or map behind what opens it, which is at that offset. `None` where it can't
/// come, and where it would be the first fault, in 128 others: then none is opened.
#[inline(always)]
fn take_opening<'a>(
    builder: &mut DocBuilder<'_>,
    levels: &mut Vec<Open>,
    place: Place,
    fault: Option<WireError>,
    at: usize,
    kind: Open,
    bytes: &'a [u8],
) -> Result<Option<(Place, &'a [u8])>, AllocError>
    requires can { CanTake at place (reverse levels.old.items) (opening_byte kind ∷ bytes.now) fault builder.old }
    ensures { IfOk result (Takes at place (reverse levels.old.items) (reverse levels.new.items) (opening_byte kind ∷ bytes.now) fault builder.old builder.new) }
{
    let Some(next) = behind_opening(place, kind) else {
        return Ok(None);
    };
    if fault.is_some() {
        enter(levels, kind)?;
        return Ok(Some((next, bytes)));
    }
    if levels.len() >= 128 {
        return Ok(None);
    }
    begin(builder, levels, kind)?;
    Ok(Some((next, bytes)))
}

/// Closes a list or map behind what closes it, which is at that offset. `None` where it can't
/// come: then none is closed.
#[inline(always)]
fn take_closing<'a>(
    builder: &mut DocBuilder<'_>,
    levels: &mut Vec<Open>,
    place: Place,
    fault: Option<WireError>,
    at: usize,
    kind: Open,
    bytes: &'a [u8],
) -> Result<Option<(Place, &'a [u8])>, AllocError>
    requires can { CanTake at place (reverse levels.old.items) (closing_byte kind ∷ bytes.now) fault builder.old }
    ensures { IfOk result (Takes at place (reverse levels.old.items) (reverse levels.new.items) (closing_byte kind ∷ bytes.now) fault builder.old builder.new) }
{
    let Some(next) = behind_closing(levels, place, kind) else {
        return Ok(None);
    };
    leave(levels);
    if fault.is_some() {
        return Ok(Some((next, bytes)));
    }
    builder.close()?;
    Ok(Some((next, bytes)))
}

/// Reads a token in front that is a bracket, a brace, a comma, a colon, a text of ASCII
/// without an escape, or a short int, adds it as long as there is no fault, and answers where
/// it leads to and what is behind it. `None` for any other, where it can't come, and where it
/// would be the first fault: then nothing is added, and the same are open.
#[inline(always)]
pub(crate) fn take<'a>(
    builder: &mut DocBuilder<'_>,
    levels: &mut Vec<Open>,
    place: Place,
    fault: Option<WireError>,
    at: usize,
    bytes: &'a [u8],
) -> Result<Option<(Place, &'a [u8])>, AllocError>
    requires can { CanTake at place (reverse levels.old.items) bytes.now fault builder.old }
    ensures { IfOk result (Takes at place (reverse levels.old.items) (reverse levels.new.items) bytes.now fault builder.old builder.new) }
{
    let Some((first, rest)) = bytes.split_first() else {
        return Ok(None);
    };
    match *first {
        b'"' => take_text(builder, levels, place, fault, at, rest),
        b',' => match behind_comma(levels, place) {
            Some(next) => Ok(Some((next, rest))),
            None => Ok(None),
        },
        b':' => match behind_colon(place) {
            Some(next) => Ok(Some((next, rest))),
            None => Ok(None),
        },
        b'[' => take_opening(builder, levels, place, fault, at, Open::List, rest),
        b']' => take_closing(builder, levels, place, fault, at, Open::List, rest),
        b'{' => take_opening(builder, levels, place, fault, at, Open::Map, rest),
        b'}' => take_closing(builder, levels, place, fault, at, Open::Map, rest),
        _ => take_number(builder, levels, place, fault, at, bytes),
    }
}

//! A number of 64 bits, put together from its end with what stands round it, and appended in one.

ghost use Rattle.std.specs.Prelude.{◌≡◌, ◌+◌, ◌≤◌, ◌<◌, [], ◌∷◌, ◌++◌, Some, drop};
ghost use Rattle.std.specs.Fmt.{signed_decimal};
ghost use Rattle.sw_json.specs.Inner.Pushed.{IsPushed};
ghost use Rattle.sw_json.specs.Inner.Turns.{separator};

use crate::leaf::append;
use crate::turn::Turn;
use itoa::write_digits;
use sw_tree::PrintError;

/// Puts the byte in front of what begins there, and answers where that begins.
#[inline(always)]
fn put_front(room: &mut [u8; 24], start: usize, byte: u8) -> usize
    requires { (0 < start) × (start ≤ 24) }
    ensures start { result + 1 ≡ start }
    ensures written { drop result room.new ≡ byte ∷ drop start room.old }
{
    room[start - 1] = byte;
    start - 1
}

/// Puts the number in front of what begins there.
#[inline(always)]
fn put_number(room: &mut [u8; 24], start: usize, number: i64) -> usize
    requires { (20 ≤ start) × (start ≤ 24) }
    ensures within { (result ≤ start) × (start ≤ result + 20) }
    ensures written { drop result room.new ≡ signed_decimal number ++ drop start room.old }
{
    let first = write_digits(number.unsigned_abs(), room, start);
    if number >= 0 {
        return first;
    }
    put_front(room, first, b'-')
}

/// Puts the separator in front of what begins there.
#[inline(always)]
fn put_separator(room: &mut [u8; 24], start: usize, turn: Turn) -> usize
    requires { (0 < start) × (start ≤ 24) }
    ensures within { result ≤ 24 }
    ensures written { drop result room.new ≡ separator turn ++ drop start room.old }
{
    match turn {
        Turn::Root => start,
        Turn::First => start,
        Turn::Item => put_front(room, start, b','),
        Turn::FirstKey => start,
        Turn::Key => put_front(room, start, b','),
        Turn::Value => put_front(room, start, b':'),
    }
}

/// Appends the number behind its separator.
#[inline(always)]
pub(crate) fn put_digits(out: &mut Vec<u8>, turn: Turn, number: i64) -> Result<(), PrintError>
    ensures { IsPushed result out.old.items out.new.items (Some (separator turn ++ signed_decimal number)) }
{
    let mut room = [0u8; 24];
    let digits = put_number(&mut room, 24, number);
    let start = put_separator(&mut room, digits, turn);
    append(out, &room[start..])
}

/// Appends the number between quotation marks, behind its separator.
#[inline(always)]
pub(crate) fn put_quoted_digits(
    out: &mut Vec<u8>,
    turn: Turn,
    number: i64,
) -> Result<(), PrintError>
    ensures { IsPushed result out.old.items out.new.items
        (Some (separator turn ++ (34 ∷ (signed_decimal number ++ 34 ∷ [])))) }
{
    let mut room = [0u8; 24];
    let closing = put_front(&mut room, 24, b'"');
    let digits = put_number(&mut room, closing, number);
    let opening = put_front(&mut room, digits, b'"');
    let start = put_separator(&mut room, opening, turn);
    append(out, &room[start..])
}

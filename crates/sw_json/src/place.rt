//! What may come next.

ghost use Rattle.std.specs.Prelude.{◌≡◌, ◌∷◌, ℕ, List, IfOk, IfSome, Some, reverse};
ghost use Rattle.sw_json.specs.Token.{Quote, Token};
ghost use Rattle.sw_json.specs.Inner.Lexeme.{token_of};
ghost use Rattle.sw_json.specs.Inner.Place.{place_step, place_value, place_end, outer, opening, closing, Leads};

use crate::lexer::Lexeme;
use std::alloc::AllocError;

/// What is open.
#[derive(Clone, Copy)]
pub enum Open {
    List,
    Map,
}

/// Where the reader stands between two tokens.
#[derive(Clone, Copy)]
pub enum Place {
    /// A value comes.
    Value,
    /// Behind an opening bracket: a value or the closing bracket comes.
    FreshList,
    /// Behind an opening brace: a name or the closing brace comes.
    FreshMap,
    /// Behind a comma in a map: a name comes.
    Name,
    /// Behind a name: the colon comes.
    Colon,
    /// Behind a value: a comma or what closes comes, or the end.
    After,
}

/// Where a token leads to; `None` where it can't come. What is then open stands in the
/// stack, the innermost last.
pub(crate) fn step(
    levels: &mut Vec<Open>,
    place: Place,
    lexeme: &Lexeme<'_>,
) -> Result<Option<Place>, AllocError>
    ensures { (buffer : List ℕ) (at : ℕ) → IfOk result (Leads (place_step place (reverse levels.old.items) (token_of buffer at lexeme.now)) (reverse levels.new.items)) }
{
    match place {
        Place::Value => value_step(levels, lexeme),
        Place::FreshList => match lexeme {
            Lexeme::CloseList => {
                let _ = levels.pop();
                Ok(Some(Place::After))
            }
            _ => value_step(levels, lexeme),
        },
        Place::FreshMap => match lexeme {
            Lexeme::CloseMap => {
                let _ = levels.pop();
                Ok(Some(Place::After))
            }
            Lexeme::Text(_) => Ok(Some(Place::Colon)),
            _ => Ok(None),
        },
        Place::Name => match lexeme {
            Lexeme::Text(_) => Ok(Some(Place::Colon)),
            _ => Ok(None),
        },
        Place::Colon => match lexeme {
            Lexeme::Colon => Ok(Some(Place::Value)),
            _ => Ok(None),
        },
        Place::After => Ok(after_step(levels, lexeme)),
    }
}

fn value_step(levels: &mut Vec<Open>, lexeme: &Lexeme<'_>) -> Result<Option<Place>, AllocError>
    ensures { (buffer : List ℕ) (at : ℕ) → IfOk result (Leads (place_value (reverse levels.old.items) (token_of buffer at lexeme.now)) (reverse levels.new.items)) }
{
    match lexeme {
        Lexeme::Null => Ok(Some(Place::After)),
        Lexeme::Truth(_) => Ok(Some(Place::After)),
        Lexeme::Number(_) => Ok(Some(Place::After)),
        Lexeme::Text(_) => Ok(Some(Place::After)),
        Lexeme::OpenList => {
            levels.push(Open::List)?;
            Ok(Some(Place::FreshList))
        }
        Lexeme::OpenMap => {
            levels.push(Open::Map)?;
            Ok(Some(Place::FreshMap))
        }
        _ => Ok(None),
    }
}

fn after_step(levels: &mut Vec<Open>, lexeme: &Lexeme<'_>) -> Option<Place>
    ensures { (buffer : List ℕ) (at : ℕ) → Leads (place_step Place.After (reverse levels.old.items) (token_of buffer at lexeme.now)) (reverse levels.new.items) result }
{
    let innermost = *levels.last()?;
    match innermost {
        Open::List => match lexeme {
            Lexeme::CloseList => {
                let _ = levels.pop();
                Some(Place::After)
            }
            Lexeme::Comma => Some(Place::Value),
            _ => None,
        },
        Open::Map => match lexeme {
            Lexeme::CloseMap => {
                let _ = levels.pop();
                Some(Place::After)
            }
            Lexeme::Comma => Some(Place::Name),
            _ => None,
        },
    }
}

/// Where a comma leads to; `None` where it can't come.
#[inline(always)]
pub(crate) fn behind_comma(levels: &Vec<Open>, place: Place) -> Option<Place>
    ensures { IfSome result (λ p. place_step place (reverse levels.now.items) Token.comma ≡ Some (p, reverse levels.now.items)) }
{
    match place {
        Place::After => {
            let innermost = *levels.last()?;
            match innermost {
                Open::List => Some(Place::Value),
                Open::Map => Some(Place::Name),
            }
        }
        _ => None,
    }
}

/// Where a colon leads to; `None` where it can't come.
#[inline(always)]
pub(crate) fn behind_colon(place: Place) -> Option<Place>
    ensures { IfSome result (λ p. (os : List Open) → place_step place os Token.colon ≡ Some (p, os)) }
{
    match place {
        Place::Colon => Some(Place::Value),
        _ => None,
    }
}

/// Where a text leads to; `None` where it can't come.
#[inline(always)]
pub(crate) fn behind_text(place: Place) -> Option<Place>
    ensures { IfSome result (λ p. (os : List Open) (q : Quote) → place_step place os (Token.text q) ≡ Some (p, os)) }
{
    match place {
        Place::Value => Some(Place::After),
        Place::FreshList => Some(Place::After),
        Place::FreshMap => Some(Place::Colon),
        Place::Name => Some(Place::Colon),
        Place::Colon => None,
        Place::After => None,
    }
}

/// Where a number leads to; `None` where it can't come.
#[inline(always)]
pub(crate) fn behind_number(place: Place) -> Option<Place>
    ensures { IfSome result (λ p. (os : List Open) (at : ℕ) (s : List ℕ) → place_step place os (Token.number at s) ≡ Some (p, os)) }
{
    match place {
        Place::Value => Some(Place::After),
        Place::FreshList => Some(Place::After),
        _ => None,
    }
}

/// Where the bracket or brace that opens leads to; `None` where it can't come.
#[inline(always)]
pub(crate) fn behind_opening(place: Place, kind: Open) -> Option<Place>
    ensures { IfSome result (λ p. (os : List Open) (at : ℕ) → place_step place os (opening at kind) ≡ Some (p, kind ∷ os)) }
{
    match kind {
        Open::List => match place {
            Place::Value => Some(Place::FreshList),
            Place::FreshList => Some(Place::FreshList),
            _ => None,
        },
        Open::Map => match place {
            Place::Value => Some(Place::FreshMap),
            Place::FreshList => Some(Place::FreshMap),
            _ => None,
        },
    }
}

/// Where the bracket or brace that closes leads to; `None` where it can't come.
#[inline(always)]
pub(crate) fn behind_closing(levels: &Vec<Open>, place: Place, kind: Open) -> Option<Place>
    ensures { IfSome result (λ p. place_step place (reverse levels.now.items) (closing kind) ≡ Some (p, outer (reverse levels.now.items))) }
{
    match place {
        Place::FreshList => match kind {
            Open::List => Some(Place::After),
            Open::Map => None,
        },
        Place::FreshMap => match kind {
            Open::List => None,
            Open::Map => Some(Place::After),
        },
        Place::After => {
            let innermost = *levels.last()?;
            match innermost {
                Open::List => match kind {
                    Open::List => Some(Place::After),
                    Open::Map => None,
                },
                Open::Map => match kind {
                    Open::List => None,
                    Open::Map => Some(Place::After),
                },
            }
        }
        _ => None,
    }
}

/// Enters a list or map, which is then the innermost.
#[inline(always)]
pub(crate) fn enter(levels: &mut Vec<Open>, kind: Open) -> Result<(), AllocError>
    ensures { IfOk result (λ _. reverse levels.new.items ≡ kind ∷ reverse levels.old.items) }
{
    levels.push(kind)?;
    Ok(())
}

/// Leaves the innermost list or map.
#[inline(always)]
pub(crate) fn leave(levels: &mut Vec<Open>)
    ensures { reverse levels.new.items ≡ outer (reverse levels.old.items) }
{
    let _ = levels.pop();
}

/// Whether the text may end there.
pub(crate) fn is_end(levels: &Vec<Open>, place: Place) -> bool
    ensures { result ≡ place_end place (reverse levels.now.items) }
{
    match place {
        Place::After => levels.is_empty(),
        _ => false,
    }
}

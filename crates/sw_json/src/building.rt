//! What a token adds to the document.

ghost use Rattle.std.specs.Prelude.{◌≡◌, None, IfOk};
ghost use Rattle.sw_json.specs.Inner.Lexeme.{token_of, TellsEscape};
ghost use Rattle.sw_json.specs.Inner.Building.{CanBuild, Builds};

use crate::lexer::Lexeme;
use crate::quoted::Quoted;
use std::alloc::AllocError;
use sw_tree::builder::DocBuilder;
use sw_tree::fail::WireError;
use sw_tree::number::whole_of_spelling;

/// Adds the token at that offset below so many levels, or gives its fault. A text that is
/// spelled with escapes is in the buffer.
fn build(
    builder: &mut DocBuilder<'_>,
    at: usize,
    depth: usize,
    lexeme: &Lexeme<'_>,
    buffer: &[u8],
) -> Result<Option<WireError>, AllocError>
    requires can { CanBuild depth (token_of buffer.now at lexeme.now) builder.old }
    requires told { TellsEscape lexeme.now }
    ensures { IfOk result (λ f. Builds None f depth (token_of buffer.now at lexeme.now) builder.old builder.new) }
{
    match lexeme {
        Lexeme::Null => builder.null()?,
        Lexeme::Truth(value) => builder.bool(*value)?,
        Lexeme::Number(number) => {
            let Some(value) = whole_of_spelling(number) else {
                return Ok(Some(WireError::NotWhole { at }));
            };
            builder.int(value)?;
        }
        Lexeme::Text(Quoted::Plain(text)) => {
            let start = at + 1;
            builder.text(start, start + text.len())?;
        }
        Lexeme::Text(Quoted::Escaped(_)) => {
            let text = unsafe { std::str::from_utf8_unchecked(buffer) };
            builder.copied(text)?;
        }
        Lexeme::OpenList => {
            if depth >= 128 {
                return Ok(Some(WireError::TooDeep { at }));
            }
            builder.open_list()?;
        }
        Lexeme::OpenMap => {
            if depth >= 128 {
                return Ok(Some(WireError::TooDeep { at }));
            }
            builder.open_map()?;
        }
        Lexeme::CloseList => builder.close()?,
        Lexeme::CloseMap => builder.close()?,
        Lexeme::Comma => {}
        Lexeme::Colon => {}
    }
    Ok(None)
}

/// Adds the token as long as no fault has come; gives the first fault so far. After a
/// fault nothing is added.
pub(crate) fn keep(
    builder: &mut DocBuilder<'_>,
    fault: Option<WireError>,
    at: usize,
    depth: usize,
    lexeme: &Lexeme<'_>,
    buffer: &[u8],
) -> Result<Option<WireError>, AllocError>
    requires can { fault ≡ None → CanBuild depth (token_of buffer.now at lexeme.now) builder.old }
    requires told { TellsEscape lexeme.now }
    ensures { IfOk result (λ f. Builds fault f depth (token_of buffer.now at lexeme.now) builder.old builder.new) }
{
    if fault.is_some() {
        return Ok(fault);
    }
    build(builder, at, depth, lexeme, buffer)
}

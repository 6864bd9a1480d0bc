//! Reading a JSON text.

ghost use Rattle.std.specs.Prelude.{◌≡◌, IfOk, IfErr};
ghost use Rattle.sw_tree.specs.Wires.{IsFound, SpellsTree, IsRefused};
ghost use Rattle.sw_json.specs.Spelled.{spells, spelled, HasEscaped};

use crate::building::keep;
use crate::class::skip_blanks;
use crate::lexer::read_lexeme;
use crate::place::{Place, is_end, step};
use crate::quick::take;
use std::alloc::Global;
use sw_tree::builder::DocBuilder;
use sw_tree::doc::Doc;
use sw_tree::fail::WireError;

/// A text has usually no more nodes than one for so many bytes, for which room is taken ahead.
const USUAL: usize = 8;

/// The document of the tree that the bytes spell by RFC 8259. `side_len` is how long the
/// texts that are spelled with an escape are together, names included.
///
/// `Syntax` where the bytes spell no raw tree. Otherwise, where the raw tree has faults, the
/// first of them.
pub fn read_tree<'de>(alloc: Global, bytes: &'de [u8]) -> Result<Doc<'de>, WireError>
    ensures found { IsFound result (spelled bytes.entry.now) }
    ensures tree { IfOk result (λ d. SpellsTree spells bytes.entry.now d.tree) }
    ensures refused { IfErr result (IsRefused spells bytes.entry.now) }
    ensures side { IfOk result (λ d. HasEscaped bytes.entry.now d.side_len) }
{
    let mut rest = bytes;
    let mut levels = Vec::new(alloc);
    let mut place = Place::Value;
    let mut fault = None;
    let mut buffer = Vec::new(alloc);
    let mut builder = DocBuilder::new(alloc, bytes);
    if builder.reserve(bytes.len() / USUAL).is_err() {
        return Err(WireError::Memory);
    }
    'tokens: loop {
        let ahead = skip_blanks(rest);
        if ahead.is_empty() {
            break;
        }
        let at = bytes.len() - ahead.len();
        let Ok(taken) = take(&mut builder, &mut levels, place, fault, at, ahead) else {
            return Err(WireError::Memory);
        };
        if let Some((next, behind)) = taken {
            rest = behind;
            place = next;
            continue;
        }
        let Ok(token) = read_lexeme(&mut buffer, ahead) else {
            return Err(WireError::Memory);
        };
        let Some((lexeme, behind)) = token else {
            return Err(WireError::Syntax);
        };
        let depth = levels.len();
        let Ok(stepped) = step(&mut levels, place, &lexeme) else {
            return Err(WireError::Memory);
        };
        let Some(next) = stepped else {
            return Err(WireError::Syntax);
        };
        let Ok(first) = keep(&mut builder, fault, at, depth, &lexeme, &buffer) else {
            return Err(WireError::Memory);
        };
        rest = behind;
        place = next;
        fault = first;
    }
    if !is_end(&levels, place) {
        return Err(WireError::Syntax);
    }
    if let Some(fault) = fault {
        return Err(fault);
    }
    let Ok(document) = builder.finish().shared(alloc) else {
        return Err(WireError::Memory);
    };
    Ok(document)
}

#[cfg(test)]
mod tests {
    use super::*;
    use std::alloc::AllocError;
    use std::test::Fail;

    /// Whether it is read, or why not; and how many bytes of texts are copied, or the
    /// offset of the fault.
    type Outcome = (&'static str, usize);

    const SYNTAX: Outcome = ("syntax", 0);

    /// What reading the bytes comes to.
    fn outcome(alloc: Global, bytes: &[u8]) -> Outcome {
        match read_tree(alloc, bytes) {
            Ok(document) => ("read", document.side_len()),
            Err(WireError::Syntax) => SYNTAX,
            Err(WireError::NotWhole { at }) => ("not whole", at),
            Err(WireError::TooDeep { at }) => ("too deep", at),
            Err(WireError::Memory) => ("memory", 0),
        }
    }

    /// What opens, what stands within, and what closes.
    type Brackets<'a> = (&'a [u8], &'a [u8], &'a [u8]);

    /// So many openings, that text, and then so many closings.
    fn nested(
        alloc: Global,
        opening: (&[u8], usize),
        text: &[u8],
        closing: (&[u8], usize),
    ) -> Result<Vec<u8>, AllocError> {
        let mut bytes = Vec::new(alloc);
        for _ in 0..opening.1 {
            bytes.extend_from_slice(opening.0)?;
        }
        bytes.extend_from_slice(text)?;
        for _ in 0..closing.1 {
            bytes.extend_from_slice(closing.0)?;
        }
        Ok(bytes)
    }

    #[test]
    fn only_what_the_grammar_spells_is_read(rt: HostRuntime) -> Result<(), Fail> {
        let cases: [(&[u8], Outcome); 70] = [
            (b"[\"1\", \"20\"]", ("read", 0)),
            (b" [ ] ", ("read", 0)),
            (b"\t[1,\r\n\"a\" ,[ ], -20]", ("read", 0)),
            (b"\"a\xc3\xa9\"", ("read", 0)),
            (b"{\"a\":1,\"b\":[null,true],\"a\":2}", ("read", 0)),
            (b"{}", ("read", 0)),
            (b" { \"\" : false } ", ("read", 0)),
            (b"null", ("read", 0)),
            (b"[\"\\u00e9\",\"a\"]", ("read", 2)),
            (b"{\"\\n\":\"\\ud83d\\ude00\"}", ("read", 5)),
            (b"\"\\ud83d\"", SYNTAX),
            (b"\"\\x\"", SYNTAX),
            (b"340282366920938463463374607431768211455", ("read", 0)),
            (b"340282366920938463463374607431768211456", ("not whole", 0)),
            (b"-170141183460469231731687303715884105728", ("read", 0)),
            (
                b"-170141183460469231731687303715884105729",
                ("not whole", 0),
            ),
            (b"[1.0]", ("not whole", 1)),
            (b"[-0]", ("not whole", 1)),
            (b"[1e2]", ("not whole", 1)),
            (b" 1.5", ("not whole", 1)),
            (b"1.5e-10", ("not whole", 0)),
            (b"[0, 0E+0]", ("not whole", 4)),
            (b"{\"a\":1.0,\"b\":-0}", ("not whole", 5)),
            (b"[1.0,[2],{\"a\":[]}]", ("not whole", 1)),
            (b"[1.0", SYNTAX),
            (b"[1.0, {]", SYNTAX),
            (b"[\"1\"", SYNTAX),
            (b"[\"1\"] x", SYNTAX),
            (b"[\"1\"] 1", SYNTAX),
            (b"\"a\xff\"", SYNTAX),
            (b"\"a\x1f\"", SYNTAX),
            (b"\"a", SYNTAX),
            (b"[1,]", SYNTAX),
            (b"[,1]", SYNTAX),
            (b"[1 2]", SYNTAX),
            (b"[1}", SYNTAX),
            (b"1]", SYNTAX),
            (b"]", SYNTAX),
            (b"[}", SYNTAX),
            (b"[1[2]]", SYNTAX),
            (b"{]", SYNTAX),
            (b"{{}}", SYNTAX),
            (b"{[]:1}", SYNTAX),
            (b"{\"a\"[1]}", SYNTAX),
            (b"{\"a\":1,{}}", SYNTAX),
            (b"{\"a\"}", SYNTAX),
            (b"{1:2}", SYNTAX),
            (b"{\"a\":1,}", SYNTAX),
            (b"{,}", SYNTAX),
            (b"{\"a\" 1}", SYNTAX),
            (b"{\"a\":}", SYNTAX),
            (b"{\"a\":1]", SYNTAX),
            (b"{\"a\":1 \"b\":2}", SYNTAX),
            (b"nul", SYNTAX),
            (b"nullx", SYNTAX),
            (b"truefalse", SYNTAX),
            (b"Null", SYNTAX),
            (b"1.", SYNTAX),
            (b".5", SYNTAX),
            (b"1e", SYNTAX),
            (b"1e+", SYNTAX),
            (b"1.5.5", SYNTAX),
            (b"-", SYNTAX),
            (b"+1", SYNTAX),
            (b"01", SYNTAX),
            (b"-01", SYNTAX),
            (b"0x1", SYNTAX),
            (b"1-", SYNTAX),
            (b" ", SYNTAX),
            (b"", SYNTAX),
        ];
        for (text, want) in cases {
            assert_eq!(rt; outcome(rt.alloc(), text), want);
        }
        Ok(())
    }

    #[test]
    fn a_front_of_a_text_is_none(rt: HostRuntime) -> Result<(), Fail> {
        let text: &[u8] = b"{\"a\":[1,\"b\"],\"c\":null}";
        assert_eq!(rt; outcome(rt.alloc(), text), ("read", 0));
        for len in 0..text.len() {
            assert_eq!(rt; outcome(rt.alloc(), &text[..len]), SYNTAX);
        }
        Ok(())
    }

    #[test]
    fn a_text_may_have_128_levels(rt: HostRuntime) -> Result<(), Fail> {
        let lists: Brackets<'_> = (b"[", b"", b"]");
        let maps: Brackets<'_> = (b"{\"a\":", b"0", b"}");
        let both: Brackets<'_> = (b"[{\"a\":", b"0", b"}]");
        let spaced: Brackets<'_> = (b" [", b"", b" ]");
        let cases: [(Brackets<'_>, usize, usize, Outcome); 11] = [
            (lists, 128, 128, ("read", 0)),
            (lists, 128, 127, SYNTAX),
            (lists, 129, 129, ("too deep", 128)),
            (lists, 1_000_000, 1_000_000, ("too deep", 128)),
            (lists, 1_000_000, 0, SYNTAX),
            (maps, 128, 128, ("read", 0)),
            (maps, 129, 129, ("too deep", 640)),
            (spaced, 128, 128, ("read", 0)),
            (spaced, 129, 129, ("too deep", 257)),
            (both, 64, 64, ("read", 0)),
            (both, 65, 65, ("too deep", 384)),
        ];
        for ((opening, text, closing), depth, closed, want) in cases {
            let bytes = nested(rt.alloc(), (opening, depth), text, (closing, closed))?;
            assert_eq!(rt; outcome(rt.alloc(), bytes.as_slice()), want);
        }
        Ok(())
    }

    /// The first number, whether the second item is that text, how many items the third
    /// has, and the last number.
    fn items_of(alloc: Global, bytes: &[u8], text: &str) -> Option<(i128, bool, usize, i128)> {
        let document = read_tree(alloc, bytes).ok()?;
        let mut items = document.view().items()?;
        let first = items.next()?.as_int()?.to_i128()?;
        let second = items.next()?.as_text()? == text;
        let third = items.next()?.len();
        let last = items.next()?.as_int()?.to_i128()?;
        Some((first, second, third, last))
    }

    #[test]
    fn nodes_come_in_order(rt: HostRuntime) -> Result<(), Fail> {
        let items = items_of(rt.alloc(), b"[1, \"a\" ,[ ], -20]", "a");
        assert_eq!(rt; items, Some((1, true, 0, -20)));
        Ok(())
    }
}

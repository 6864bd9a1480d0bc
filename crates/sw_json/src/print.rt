//! The text of a node.
#![tactic(auto, using(crate::proofs::Finishing::finishing))]

ghost use Rattle.sw_tree.specs.Wires.{IsPrinted};
ghost use Rattle.sw_json.specs.Text.{json_text};

use crate::writer::TextWriter;
use std::alloc::Global;
use sw_tree::{Node, PrintError, SerFail, write_node};

/// The compact JSON text of the tree's image (RFC 8259): no whitespace, numbers in decimal, and in texts only `"`,
/// `\` and the characters below U+0020 escaped, by `\b`, `\f`, `\n`, `\r` and `\t` where there is such an escape,
/// else by `\u00` and two lower-case digits.
///
/// `Key` exactly where some key is null, a byte string, a list or a map; otherwise the one refusal is `Memory`.
pub fn print(alloc: Global, node: &Node) -> Result<Vec<u8>, PrintError>
    ensures { IsPrinted result (json_text node.now) }
{
    let mut writer = TextWriter::new(alloc, 0)?;
    match write_node(&mut writer, node) {
        Ok(()) => writer.finish(),
        Err(SerFail::Memory) => Err(PrintError::Memory),
        Err(SerFail::Unwritable(_)) => unreachable!(),
    }
}

#[cfg(test)]
mod tests {
    use super::*;
    use std::alloc::AllocError;
    use sw_tree::Whole;

    fn text(alloc: Global, content: &str) -> Result<Node, AllocError> {
        Ok(Node::text(String::from_str(alloc, content)?))
    }

    /// The list of these, or null where they are too deep.
    fn list(items: Vec<Node>) -> Node {
        match Node::list(items) {
            Ok(node) => node,
            Err(_) => Node::null(),
        }
    }

    /// The map of these, or null where they are too deep.
    fn map(entries: Vec<(Node, Node)>) -> Node {
        match Node::map(entries) {
            Ok(node) => node,
            Err(_) => Node::null(),
        }
    }

    /// A map with a text, a number and a truth value for keys.
    fn keyed(alloc: Global) -> Result<Node, AllocError> {
        let mut entries = Vec::new(alloc);
        entries.push((text(alloc, "a\"")?, Node::null()))?;
        entries.push((Node::int(Whole::from_i128(-1)), Node::bool(true)))?;
        entries.push((Node::bool(false), map(Vec::new(alloc))))?;
        Ok(map(entries))
    }

    /// A list in a list, with the least and the greatest number.
    fn nested(alloc: Global) -> Result<Node, AllocError> {
        let mut inner = Vec::new(alloc);
        inner.push(Node::int(Whole::from_i128(i128::MIN)))?;
        inner.push(Node::int(Whole::from_u128(u128::MAX)))?;
        let mut outer = Vec::new(alloc);
        outer.push(list(inner))?;
        outer.push(list(Vec::new(alloc)))?;
        outer.push(Node::bytes(Vec::from_slice(alloc, &[1, 255])?))?;
        outer.push(Node::bytes(Vec::new(alloc)))?;
        Ok(list(outer))
    }

    /// Trees, and their texts by RFC 8259.
    fn cases(alloc: Global) -> Result<Vec<(Node, &'static str)>, AllocError> {
        let mut cases = Vec::new(alloc);
        cases.push((
            nested(alloc)?,
            "[[-170141183460469231731687303715884105728,340282366920938463463374607431768211455],[],[1,255],[]]",
        ))?;
        cases.push((keyed(alloc)?, "{\"a\\\"\":null,\"-1\":true,\"false\":{}}"))?;
        cases.push((
            text(alloc, "\"\\\u{8}\t\n\u{c}\r\0\u{1f}\u{7f}/é")?,
            "\"\\\"\\\\\\b\\t\\n\\f\\r\\u0000\\u001f\u{7f}/é\"",
        ))?;
        Ok(cases)
    }

    #[test]
    fn a_tree_prints_as_its_text(rt: HostRuntime) {
        let Ok(cases) = cases(rt.alloc()) else {
            assert!(rt; false);
            return;
        };
        for (node, wanted) in &cases {
            let printed = print(rt.alloc(), node);
            assert!(rt;
                matches!(&printed, Ok(bytes) if bytes.as_slice() == wanted.as_bytes()),
                "{wanted}"
            );
        }
    }

    #[test]
    fn a_null_key_is_refused(rt: HostRuntime) {
        let mut entries = Vec::new(rt.alloc());
        assert!(rt; entries.push((Node::null(), Node::null())).is_ok());
        assert!(rt; matches!(print(rt.alloc(), &map(entries)), Err(PrintError::Key)));
    }
}

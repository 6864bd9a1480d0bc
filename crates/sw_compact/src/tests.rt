//! The rows of the compact wire: texts byte by byte, and what they are read as.

use crate::upgrade;
use crate::wire::{CompactWire, CompactWire1};
use std::alloc::{AllocError, Global};
use std::test::Fail;
use sw_tree::fail::WireError;
use sw_tree::node::Node;
use sw_tree::whole::Whole;
use sw_tree::wire::Wire;

/// What reading comes to: the name of the answer, and the offset of a fault or the length of the text beside the
/// bytes.
type Outcome = (&'static str, usize);

const SYNTAX: Outcome = ("syntax", 0);

const READ: Outcome = ("read", 0);

fn outcome<W: Wire>(alloc: Global, bytes: &[u8]) -> Outcome {
    match W::read_tree(alloc, bytes) {
        Ok(document) => ("read", document.side_len()),
        Err(WireError::Syntax) => SYNTAX,
        Err(WireError::NotWhole { at }) => ("not whole", at),
        Err(WireError::TooDeep { at }) => ("too deep", at),
        Err(WireError::Memory) => ("memory", 0),
    }
}

fn text(alloc: Global, content: &str) -> Result<Node, AllocError> {
    Ok(Node::text(String::from_str(alloc, content)?))
}

/// The list of these, or null where they are too deep.
fn list(items: Vec<Node>) -> Node {
    match Node::list(items) {
        Ok(node) => node,
        Err(_) => Node::null(),
    }
}

/// The map of these, or null where they are too deep.
fn map(entries: Vec<(Node, Node)>) -> Node {
    match Node::map(entries) {
        Ok(node) => node,
        Err(_) => Node::null(),
    }
}

/// A list of a number, a text, a negative number and null.
fn four(alloc: Global) -> Result<Node, AllocError> {
    let mut items = Vec::new(alloc);
    items.push(Node::int(Whole::from_i128(1)))?;
    items.push(text(alloc, "a")?)?;
    items.push(Node::int(Whole::from_i128(-1)))?;
    items.push(Node::null())?;
    Ok(list(items))
}

/// `{"a":[1,"é"],"b":null}`, with a byte string and truth values behind.
fn mixed(alloc: Global) -> Result<Node, AllocError> {
    let mut inner = Vec::new(alloc);
    inner.push(Node::int(Whole::from_i128(1)))?;
    inner.push(text(alloc, "é")?)?;
    let mut entries = Vec::new(alloc);
    entries.push((text(alloc, "a")?, list(inner)))?;
    entries.push((text(alloc, "b")?, Node::null()))?;
    let mut outer = Vec::new(alloc);
    outer.push(map(entries))?;
    outer.push(Node::bytes(Vec::from_slice(alloc, &[0, 255])?))?;
    outer.push(Node::bool(true))?;
    outer.push(Node::bool(false))?;
    outer.push(Node::int(Whole::from_u128(u128::MAX)))?;
    outer.push(Node::int(Whole::from_i128(i128::MIN)))?;
    outer.push(Node::int(Whole::from_i128(0)))?;
    Ok(list(outer))
}

#[test]
fn a_tree_prints_as_its_text(rt: HostRuntime) -> Result<(), Fail> {
    let node = four(rt.alloc())?;
    let second: &[u8] = &[0xc2, 7, 4, 3, 1, 1, 5, 1, 0x61, 4, 0, 0];
    let first: &[u8] = &[
        7, 0, 0, 0, 0, 0, 0, 0, 4, 3, 1, 1, 5, 0, 0, 0, 0, 0, 0, 0, 1, 0x61, 4, 0, 0,
    ];
    let printed = CompactWire::print(rt.alloc(), &node);
    assert!(rt; matches!(&printed, Ok(bytes) if bytes.as_slice() == second));
    let printed = CompactWire1::print(rt.alloc(), &node);
    assert!(rt; matches!(&printed, Ok(bytes) if bytes.as_slice() == first));
    let node = mixed(rt.alloc())?;
    let second: &[u8] = &[
        0xc2, 7, 7, 8, 2, 5, 1, 0x61, 7, 2, 3, 1, 1, 5, 2, 0xc3, 0xa9, 5, 1, 0x62, 0, 6, 2, 0, 255,
        2, 1, 3, 16, 255, 255, 255, 255, 255, 255, 255, 255, 255, 255, 255, 255, 255, 255, 255,
        255, 4, 16, 127, 255, 255, 255, 255, 255, 255, 255, 255, 255, 255, 255, 255, 255, 255, 255,
        3, 0,
    ];
    let printed = CompactWire::print(rt.alloc(), &node);
    assert!(rt; matches!(&printed, Ok(bytes) if bytes.as_slice() == second));
    assert_eq!(rt; outcome::<CompactWire>(rt.alloc(), second), READ);
    for len in 0..second.len() {
        assert_eq!(rt; outcome::<CompactWire>(rt.alloc(), &second[..len]), SYNTAX);
    }
    Ok(())
}

#[test]
fn only_what_the_grammar_spells_is_read(rt: HostRuntime) -> Result<(), Fail> {
    let cases: [(&[u8], Outcome, Outcome); 27] = [
        (&[], SYNTAX, SYNTAX),
        (&[0], READ, READ),
        (&[1], READ, READ),
        (&[9], SYNTAX, SYNTAX),
        (&[0, 0], SYNTAX, SYNTAX),
        (&[3, 0], READ, READ),
        (&[3, 1, 0], SYNTAX, SYNTAX),
        (&[3, 2, 1, 0], READ, READ),
        (&[3, 2, 1], SYNTAX, SYNTAX),
        (
            &[3, 17, 1, 0, 0, 0, 0, 0, 0, 0, 0, 0, 0, 0, 0, 0, 0, 0, 0],
            SYNTAX,
            SYNTAX,
        ),
        (
            &[4, 16, 0x80, 0, 0, 0, 0, 0, 0, 0, 0, 0, 0, 0, 0, 0, 0, 0],
            SYNTAX,
            SYNTAX,
        ),
        (
            &[4, 16, 0x7f, 0, 0, 0, 0, 0, 0, 0, 0, 0, 0, 0, 0, 0, 0, 0],
            READ,
            READ,
        ),
        (&[5, 0, 0, 0, 0, 0, 0, 0, 1, 0x61], READ, READ),
        (&[5, 0, 0, 0, 0, 0, 0, 0, 1, 0xff], SYNTAX, SYNTAX),
        (&[6, 0, 0, 0, 0, 0, 0, 0, 1, 0xff], READ, READ),
        (&[5, 255, 255, 255, 255, 255, 255, 255, 255], SYNTAX, SYNTAX),
        (&[7, 255, 255, 255, 255, 255, 255, 255, 255], SYNTAX, SYNTAX),
        (&[7, 0, 0, 1, 0, 0, 0, 0, 0], SYNTAX, SYNTAX),
        (&[8, 0, 0, 0, 0, 0, 0, 0, 1, 0], SYNTAX, SYNTAX),
        (&[8, 0, 0, 0, 0, 0, 0, 0, 1, 0, 0], READ, READ),
        (&[0xc2, 0], READ, SYNTAX),
        (&[0xc2, 5, 0x81, 0, 0x61], SYNTAX, SYNTAX),
        (&[0xc2, 5, 1, 0x61], READ, SYNTAX),
        (
            &[0xc2, 7, 255, 255, 255, 255, 255, 255, 255, 255, 255, 1],
            SYNTAX,
            SYNTAX,
        ),
        (
            &[0xc2, 7, 255, 255, 255, 255, 255, 255, 255, 255, 255, 255, 1],
            SYNTAX,
            SYNTAX,
        ),
        (&[0xc2, 8, 1, 0, 7, 0], READ, SYNTAX),
        (&[0xc2], SYNTAX, SYNTAX),
    ];
    for (bytes, either, first) in cases {
        assert_eq!(rt; outcome::<CompactWire>(rt.alloc(), bytes), either);
        assert_eq!(rt; outcome::<CompactWire1>(rt.alloc(), bytes), first);
    }
    Ok(())
}

/// So many lists of one item in each other, with that node within, behind the mark.
fn nested(alloc: Global, depth: usize, within: &[u8]) -> Result<Vec<u8>, AllocError> {
    let mut bytes = Vec::from_slice(alloc, &[0xc2])?;
    for _ in 0..depth {
        bytes.extend_from_slice(&[7, 1])?;
    }
    bytes.extend_from_slice(within)?;
    Ok(bytes)
}

#[test]
fn a_text_may_have_128_levels(rt: HostRuntime) -> Result<(), Fail> {
    let cases: [(usize, &[u8], Outcome); 7] = [
        (127, &[7, 0], READ),
        (128, &[7, 0], ("too deep", 257)),
        (128, &[0], READ),
        (127, &[6, 0], READ),
        (128, &[6, 0], ("too deep", 257)),
        (200_000, &[0], ("too deep", 257)),
        (200_000, &[9], SYNTAX),
    ];
    for (depth, within, wanted) in cases {
        let bytes = nested(rt.alloc(), depth, within)?;
        assert_eq!(rt;
            outcome::<CompactWire>(rt.alloc(), bytes.as_slice()),
            wanted
        );
    }
    Ok(())
}

#[test]
fn a_text_of_version_1_is_put_into_version_2(rt: HostRuntime) {
    let old: &[u8] = &[5, 0, 0, 0, 0, 0, 0, 0, 1, 0x61];
    let new: &[u8] = &[0xc2, 5, 1, 0x61];
    assert!(rt; matches!(upgrade(rt.alloc(), old), Ok(bytes) if bytes.as_slice() == new));
    assert!(rt; matches!(upgrade(rt.alloc(), new), Ok(bytes) if bytes.as_slice() == new));
    assert!(rt; matches!(upgrade(rt.alloc(), &[9]), Err(WireError::Syntax)));
}

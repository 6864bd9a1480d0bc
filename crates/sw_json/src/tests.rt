use crate::wire::JsonWire;
use crate::writer::TextWriter;
use std::alloc::Global;
use sw_tree::{Builds, Node, PrintError, SerError, SerFail, View, Whole, Wire, write_node};

/// How many entries a map has, whether each key is that text, and how many items the first
/// two values have.
fn counts(view: View<'_>, key: &str) -> Option<(usize, bool, usize, usize)> {
    let len = view.len();
    let mut entries = view.entries()?;
    let (first, one) = entries.next()?;
    let (second, other) = entries.next()?;
    let are_that = first.as_text()? == key && second.as_text()? == key;
    Some((len, are_that, one.len(), other.len()))
}

/// What the wire prints of what it reads.
fn printed_again(alloc: Global, bytes: &[u8]) -> Option<Vec<u8>> {
    let document = JsonWire::read_tree(alloc, bytes).ok()?;
    let node = document.view().to_node(alloc).ok()?;
    JsonWire::print(alloc, &node).ok()
}

#[test]
fn every_entry_of_an_equal_key_is_kept(rt: HostRuntime) {
    let text: &[u8] = b"{\"1\":[0],\"1\":[]}";
    let Ok(document) = JsonWire::read_tree(rt.alloc(), text) else {
        assert!(rt; false);
        return;
    };
    assert!(rt; counts(document.view(), "1") == Some((2, true, 1, 0)));
    let printed = printed_again(rt.alloc(), text);
    assert!(rt; matches!(&printed, Some(bytes) if bytes.as_slice() == text));
}

#[test]
fn only_texts_with_an_escape_are_copied(rt: HostRuntime) {
    let rows: [(&[u8], usize); 3] = [
        (b"[\"ab\",\"\\u0041\"]", 1),
        (b"[\"ab\",\"A\"]", 0),
        (b"{\"\\n\":\"a\\\\\"}", 3),
    ];
    for (text, wanted) in rows {
        let read = JsonWire::read_tree(rt.alloc(), text);
        assert!(rt; matches!(&read, Ok(document) if document.side_len() == wanted));
    }
}

/// A map with keys of three kinds, and values of all kinds.
fn put_all(out: &mut TextWriter) -> Result<(), SerFail> {
    out.open_map(4)?;
    out.text("a\n")?;
    out.open_list(4)?;
    out.int(Whole::from_i128(1))?;
    out.open_list(0)?;
    out.close()?;
    out.open_map(0)?;
    out.close()?;
    out.null()?;
    out.close()?;
    out.int(Whole::from_i128(-1))?;
    out.int_text(Whole::from_i128(-7))?;
    out.bool(true)?;
    out.bytes(&[1, 255])?;
    out.int_text(Whole::from_u128(12))?;
    out.bool(false)?;
    out.close()
}

#[test]
fn values_of_all_kinds_stand_in_the_text(rt: HostRuntime) {
    let Ok(mut out) = JsonWire::writer(rt.alloc(), 0) else {
        assert!(rt; false);
        return;
    };
    assert!(rt; put_all(&mut out).is_ok());
    let text = JsonWire::finish(rt.alloc(), out);
    let wanted: &[u8] = b"{\"a\\n\":[1,[],{},null],\"-1\":\"-7\",\"true\":[1,255],\"12\":false}";
    assert!(rt; matches!(&text, Ok(bytes) if bytes.as_slice() == wanted));
}

/// A map whose key is null, in a list.
fn put_null_key(out: &mut TextWriter) -> Result<(), SerFail> {
    out.open_list(1)?;
    out.open_map(1)?;
    out.null()?;
    out.text("a")?;
    out.close()?;
    out.close()
}

#[test]
fn a_null_key_is_told_at_the_end(rt: HostRuntime) {
    let Ok(mut out) = JsonWire::writer(rt.alloc(), 64) else {
        assert!(rt; false);
        return;
    };
    assert!(rt; put_null_key(&mut out).is_ok());
    assert!(rt; matches!(JsonWire::finish(rt.alloc(), out), Err(PrintError::Key)));
}

/// So many lists, one in another.
fn open_lists(out: &mut TextWriter, levels: usize) -> Result<(), SerFail> {
    for _ in 0..levels {
        out.open_list(1)?;
    }
    Ok(())
}

fn close_lists(out: &mut TextWriter, levels: usize) -> Result<(), SerFail> {
    for _ in 0..levels {
        out.close()?;
    }
    Ok(())
}

#[test]
fn depth_is_told_where_the_outermost_closes(rt: HostRuntime) {
    let (Ok(mut deep), Ok(mut deeper)) = (
        JsonWire::writer(rt.alloc(), 0),
        JsonWire::writer(rt.alloc(), 0),
    ) else {
        assert!(rt; false);
        return;
    };
    assert!(rt; open_lists(&mut deep, 128).is_ok());
    assert!(rt; close_lists(&mut deep, 128).is_ok());
    let text = JsonWire::finish(rt.alloc(), deep);
    assert!(rt; matches!(&text, Ok(bytes) if bytes.len() == 256));
    assert!(rt; open_lists(&mut deeper, 129).is_ok());
    assert!(rt; close_lists(&mut deeper, 128).is_ok());
    assert!(rt; matches!(deeper.close(), Err(SerFail::Unwritable(SerError::TooDeep))));
}

/// The node of a read document, kept as it was read.
fn kept(alloc: Global, text: &[u8]) -> Option<Node> {
    let document = JsonWire::read_tree(alloc, text).ok()?;
    document.view().to_node(alloc).ok()
}

/// A kept list in a list, and behind it as the value of a key.
fn put_node_inside(out: &mut TextWriter, node: &Node) -> Result<(), SerFail> {
    out.open_list(3)?;
    write_node(out, node)?;
    write_node(out, &Node::null())?;
    out.open_map(1)?;
    write_node(out, &Node::int(Whole::from_i128(-5)))?;
    write_node(out, node)?;
    out.close()?;
    out.close()
}

#[test]
fn a_node_stands_as_it_prints(rt: HostRuntime) {
    let node = kept(rt.alloc(), b" [ {\"a\" : [ ] }, \"\\n\" ] ");
    let (Some(node), Ok(mut inside), Ok(mut alone)) = (
        node,
        JsonWire::writer(rt.alloc(), 0),
        JsonWire::writer(rt.alloc(), 0),
    ) else {
        assert!(rt; false);
        return;
    };
    assert!(rt; put_node_inside(&mut inside, &node).is_ok());
    assert!(rt; write_node(&mut alone, &node).is_ok());
    let text = JsonWire::finish(rt.alloc(), inside);
    let wanted: &[u8] = b"[[{\"a\":[]},\"\\n\"],null,{\"-5\":[{\"a\":[]},\"\\n\"]}]";
    assert!(rt; matches!(&text, Ok(bytes) if bytes.as_slice() == wanted));
    let text = JsonWire::finish(rt.alloc(), alone);
    assert!(rt;
        matches!(&text, Ok(bytes) if bytes.as_slice() == b"[{\"a\":[]},\"\\n\"]".as_slice())
    );
}

/// The node of 127 lists, one in another.
fn nested(alloc: Global) -> Option<Node> {
    let mut out = JsonWire::writer(alloc, 0).ok()?;
    open_lists(&mut out, 127).ok()?;
    close_lists(&mut out, 127).ok()?;
    let text = JsonWire::finish(alloc, out).ok()?;
    kept(alloc, &text)
}

#[test]
fn levels_of_a_node_count_in_a_list(rt: HostRuntime) {
    let (Some(node), Ok(mut out)) = (nested(rt.alloc()), JsonWire::writer(rt.alloc(), 0)) else {
        assert!(rt; false);
        return;
    };
    assert!(rt; open_lists(&mut out, 2).is_ok());
    assert!(rt; write_node(&mut out, &node).is_ok());
    assert!(rt; out.close().is_ok());
    assert!(rt; matches!(out.close(), Err(SerFail::Unwritable(SerError::TooDeep))));
}

/// A map whose key is a list.
fn put_list_key(out: &mut TextWriter, node: &Node) -> Result<(), SerFail> {
    out.open_map(1)?;
    write_node(out, node)?;
    out.null()?;
    out.close()
}

#[test]
fn a_node_for_a_key_is_told_at_the_end(rt: HostRuntime) {
    let (Some(node), Ok(mut out)) = (kept(rt.alloc(), b"[]"), JsonWire::writer(rt.alloc(), 0))
    else {
        assert!(rt; false);
        return;
    };
    assert!(rt; put_list_key(&mut out, &node).is_ok());
    assert!(rt; matches!(JsonWire::finish(rt.alloc(), out), Err(PrintError::Key)));
}

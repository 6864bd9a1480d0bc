ghost use Rattle.std.specs.Prelude.{◌≡◌, ◌↔◌, IsTrue};

use crate::content::Content;
use crate::doc_writer::DocWriter;
use crate::{
    Builds, DeError, DeFail, DeKind, Doc, DocBuilder, Keyed, Kind, Meant, Mode, Node, NodeBuilder,
    Place, PrintError, Refusal, SerError, SerFail, Skipped, Step, View, Whole, WireKind,
    foreign_in, image, key_number, node_at, path_of, short_value, whole_of_spelling, whole_text,
    write_node, write_view,
};
use std::alloc::{AllocError, Global};
use std::borrow::{Cow, CowSlice, CowStr};
use std::boxed::BoxedSlice;
use std::cmp::Ordering;
use std::collections::{BTreeMap, BTreeSet, HashMap, HashSet, LinkedList, VecDeque};
use std::ops::Bound;

/// `[null, true, 7, 2^100, "A", {"k": "é"}]` and the bytes of `é`, which stand in the input.
fn document(alloc: Global) -> Result<Doc<'static>, AllocError> {
    let mut builder = DocBuilder::new(alloc, "é".as_bytes());
    builder.open_list()?;
    builder.null()?;
    builder.bool(true)?;
    builder.int(Whole::from_u128(7))?;
    builder.int(Whole::from_u128(1 << 100))?;
    builder.copied("A")?;
    builder.open_map()?;
    builder.copied("k")?;
    builder.text(0, 2)?;
    builder.close()?;
    builder.bytes(0, 2)?;
    builder.close()?;
    Ok(builder.finish())
}

/// What a view shows, in a few words.
fn shown(alloc: Global, view: View<'_>) -> Result<String, AllocError> {
    let mut text = String::new(alloc);
    text.push_str(match view.kind() {
        Kind::Null => "null",
        Kind::Bool => "bool",
        Kind::Int => "int",
        Kind::Text => "text",
        Kind::Bytes => "bytes",
        Kind::List => "list",
        Kind::Map => "map",
    })?;
    if let Some(value) = view.as_bool() {
        text.push_str(if value { " true" } else { " false" })?;
    }
    if let Some(value) = view.as_int() {
        text.push_str(if value.to_u128() == Some(1 << 100) {
            " wide"
        } else {
            " small"
        })?;
    }
    if let Some(value) = view.as_text() {
        text.push_str(" ")?;
        text.push_str(value)?;
    }
    if let Some(value) = view.as_bytes() {
        text.push_str(if value.len() == view.len() {
            " whole"
        } else {
            " cut"
        })?;
    }
    Ok(text)
}

/// Whether the view shows the list of `document`.
fn shows(alloc: Global, list: View<'_>) -> Result<bool, AllocError> {
    let wanted = [
        "null",
        "bool true",
        "int small",
        "int wide",
        "text A",
        "map",
    ];
    let mut right = list.kind() == Kind::List && list.len() == 7;
    let Some(items) = list.items() else {
        return Ok(false);
    };
    for (item, wanted) in items.zip(wanted) {
        right = right && shown(alloc, item)?.as_str() == wanted;
    }
    Ok(right)
}

#[test]
fn a_document_shows_what_was_built(rt: HostRuntime) {
    let doc = document(rt.alloc());
    assert!(rt;
        matches!(&doc, Ok(doc) if matches!(shows(rt.alloc(), doc.view()), Ok(true)) && doc.side_len() == 2)
    );
}

/// The printed path to the node that has the place, and the place of the node it leads to.
fn path_text(
    alloc: Global,
    doc: &Doc<'_>,
    place: usize,
) -> Result<Option<(String, usize)>, AllocError> {
    let Some(path) = path_of(alloc, doc.view(), place)? else {
        return Ok(None);
    };
    let text = path.print(alloc)?;
    Ok(match node_at(doc.view(), &path) {
        Some(node) => Some((text, node.place())),
        None => None,
    })
}

#[test]
fn a_path_leads_to_its_place(rt: HostRuntime) {
    let doc = document(rt.alloc());
    let Ok(doc) = doc else {
        assert!(rt; false);
        return;
    };
    for (place, wanted) in [
        (0, "/"),
        (1, "/0"),
        (5, "/4"),
        (6, "/5"),
        (7, "/5/0k"),
        (8, "/5/0"),
    ] {
        let found = path_text(rt.alloc(), &doc, place);
        assert!(rt;
            matches!(&found, Ok(Some((text, at))) if text.as_str() == wanted && *at == place),
            "at {place}"
        );
    }
    assert!(rt; matches!(path_of(rt.alloc(), doc.view(), 10), Ok(None)));
    assert!(rt; matches!(path_of(rt.alloc(), doc.view_inside(3), 3), Ok(None)));
    let inside = doc.view_inside(3);
    assert!(rt; inside.place() == 3 && !inside.counts() && doc.view().counts());
    let last = match inside.items() {
        Some(items) => items.skip(5).next(),
        None => None,
    };
    assert!(rt; matches!(last, Some(map) if map.place() == 3 && matches!(map.entries(), Some(_))));
}

/// Lists in lists, so many levels deep.
fn nested(alloc: Global, levels: u8) -> Result<Node, AllocError> {
    let mut node = Node::bytes(Vec::from_slice(alloc, b"ab")?);
    for _ in 1..levels {
        let mut items = Vec::new(alloc);
        items.push(node)?;
        node = match Node::list(items) {
            Ok(list) => list,
            Err(_) => Node::null(),
        };
    }
    Ok(node)
}

/// Whether a list and a map of that node are too deep.
fn too_deep(alloc: Global, levels: u8) -> Result<(bool, bool), AllocError> {
    let mut items = Vec::new(alloc);
    items.push(nested(alloc, levels)?)?;
    let mut pairs = Vec::new(alloc);
    pairs.push((nested(alloc, levels)?, Node::bool(true)))?;
    Ok((Node::list(items).is_err(), Node::map(pairs).is_err()))
}

#[test]
fn a_node_has_at_most_128_levels(rt: HostRuntime) {
    let node = nested(rt.alloc(), 128);
    assert!(rt; matches!(&node, Ok(node) if node.depth() == 128 && node.kind() == Kind::List));
    assert!(rt; matches!(too_deep(rt.alloc(), 127), Ok((false, false))));
    assert!(rt; matches!(too_deep(rt.alloc(), 128), Ok((true, true))));
    let bytes = nested(rt.alloc(), 1);
    assert!(rt; matches!(&bytes, Ok(node) if matches!(node.as_bytes(), Some(b"ab"))));
    assert!(rt; Node::null().kind() == Kind::Null && Node::null().depth() == 0);
    assert!(rt; Node::bool(true).as_bool() == Some(true));
    assert!(rt;
        matches!(Node::int(Whole::from_i128(-5)).as_int(), Some(five) if five == Whole::from_i128(-5))
    );
    assert!(rt; matches!(Node::text(String::new(rt.alloc())).as_text(), Some("")));
}

#[test]
fn whole_numbers_go_from_one_end_to_the_other(rt: HostRuntime) {
    let least = Whole::from_i128(i128::MIN);
    let greatest = Whole::from_u128(u128::MAX);
    assert!(rt; least.to_i128() == Some(i128::MIN) && least.to_u128() == None);
    assert!(rt; greatest.to_u128() == Some(u128::MAX) && greatest.to_i128() == None);
    assert!(rt; Whole::from_i128(i128::MAX).to_i128() == Some(i128::MAX));
    assert!(rt; least < Whole::from_i128(-1) && Whole::from_i128(-1) < Whole::from_u128(0));
    assert!(rt; Whole::from_u128(0) < greatest && Whole::from_i128(3) == Whole::from_u128(3));
}

#[test]
fn refusals_have_names_and_are_logged_in_order(rt: HostRuntime) {
    let first = Refusal {
        error: DeError::InvalidType(Kind::Int),
        place: 3,
    };
    let second = Refusal {
        error: DeError::NoVariant([Some(DeKind::Text), None, None, None]),
        place: 4,
    };
    let mut log = Skipped::new(rt.alloc());
    assert!(rt; log.push(first).is_ok() && log.push(second).is_ok());
    assert!(rt; matches!(log.notes(), [a, b] if *a == first && *b == second));
    assert!(rt; second.error.kind() == DeKind::NoVariant && DeKind::Convert as u8 == 12);
    assert!(rt; SerError::Key as u8 == 4);
    let mode = Mode::plain(WireKind::Json).key().buffer();
    assert!(rt; mode.place == Place::Key && mode.buffered && mode.value().place == Place::Value);
    assert!(rt; Step::Key(1) != Step::Value(1) && DeFail::Memory != DeFail::Refused(first));
}

#[test]
fn a_key_spells_a_number(rt: HostRuntime) {
    for (text, wanted) in [
        ("5", Some(Whole::from_u128(5))),
        ("-5", Some(Whole::from_i128(-5))),
        ("0", Some(Whole::from_u128(0))),
        ("007", None),
        ("-0", None),
        ("1.0", None),
        ("1e2", None),
        ("+5", None),
        ("", None),
        (
            "-170141183460469231731687303715884105728",
            Some(Whole::from_i128(i128::MIN)),
        ),
        ("-170141183460469231731687303715884105729", None),
        (
            "340282366920938463463374607431768211455",
            Some(Whole::from_u128(u128::MAX)),
        ),
        ("340282366920938463463374607431768211456", None),
    ] {
        assert!(rt; key_number(text) == wanted, "{text}");
    }
    assert!(rt; whole_of_spelling(b"-12") == Some(Whole::from_i128(-12)));
    assert!(rt; whole_of_spelling(b"1:").is_none() && whole_of_spelling(b"-").is_none());
    let text = whole_text(rt.alloc(), Whole::from_i128(-7));
    assert!(rt; matches!(&text, Ok(text) if text.as_str() == "-7"));
}

#[test]
fn few_digits_have_a_value(rt: HostRuntime) {
    for (digits, wanted) in [
        ("", None),
        ("0", Some(0)),
        ("007", Some(7)),
        ("1234567890", Some(1_234_567_890)),
        ("9999999999999999999", Some(9_999_999_999_999_999_999)),
        ("00000000000000000001", None),
        ("+5", None),
        ("-5", None),
        ("5/", None),
        (":5", None),
    ] {
        assert!(rt; short_value(digits.as_bytes()) == wanted, "{digits}");
    }
}

/// `[1, "a", -1, null]`.
fn small_list(alloc: Global) -> Result<Node, AllocError> {
    let mut items = Vec::new(alloc);
    items.push(Node::int(Whole::from_u128(1)))?;
    items.push(Node::text(String::from_str(alloc, "a")?))?;
    items.push(Node::int(Whole::from_i128(-1)))?;
    items.push(Node::null())?;
    Ok(match Node::list(items) {
        Ok(list) => list,
        Err(_) => Node::null(),
    })
}

fn is_small_list(view: View<'_>) -> bool {
    let Some(mut items) = view.items() else {
        return false;
    };
    matches!(items.next(), Some(one) if one.as_int() == Some(Whole::from_u128(1)))
        && matches!(items.next(), Some(letter) if letter.as_text() == Some("a"))
        && matches!(items.next(), Some(minus_one) if minus_one.as_int() == Some(Whole::from_i128(-1)))
        && matches!(items.next(), Some(null) if null.kind() == Kind::Null)
        && matches!(items.next(), None)
}

/// Whether the list stays the same as a copy, through a document, and kept as a document.
fn stays(alloc: Global) -> Result<bool, AllocError> {
    let list = small_list(alloc)?;
    let copied = list.copy(alloc)?;
    let doc = Doc::from_node(alloc, &copied)?;
    let kept = doc.view().to_node(alloc)?.copy(alloc)?;
    let again = Doc::from_node(alloc, &kept)?;
    let is_kept = matches!(kept.content(), Content::Document(view) if is_small_list(view));
    Ok(
        is_small_list(doc.view())
            && is_small_list(again.view())
            && is_kept
            && kept.depth() == 1
            && kept.kind() == Kind::List
            && doc.side_len() == 1,
    )
}

#[test]
fn copies_are_equal(rt: HostRuntime) {
    assert!(rt; matches!(stays(rt.alloc()), Ok(true)));
}

/// Writes lists in a list, so many levels deep.
fn write_nested(out: &mut DocWriter<'_>, levels: u8) -> Result<(), SerFail> {
    for _ in 0..levels {
        out.open_list(1)?;
    }
    for _ in 0..levels {
        out.close()?;
    }
    Ok(())
}

#[test]
fn a_written_document_has_at_most_128_levels(rt: HostRuntime) {
    let mut out = DocWriter::new(rt.alloc());
    assert!(rt; write_nested(&mut out, 128).is_ok());
    let mut deep = DocWriter::new(rt.alloc());
    let refused = write_nested(&mut deep, 129);
    assert!(rt; matches!(refused, Err(SerFail::Unwritable(SerError::TooDeep))));
}

/// A map whose key is the small list made by hand, and whose value is that list kept as a document, as a copy.
fn copied_map(alloc: Global) -> Result<Node, AllocError> {
    let mut pairs = Vec::new(alloc);
    let kept = small_list(alloc)?.copy(alloc)?;
    pairs.push((small_list(alloc)?, kept))?;
    match Node::map(pairs) {
        Ok(map) => map.copy(alloc),
        Err(_) => Ok(Node::null()),
    }
}

fn is_map_of_small_lists(view: View<'_>) -> bool {
    let Some(mut entries) = view.entries() else {
        return false;
    };
    matches!(entries.next(), Some((key, value)) if is_small_list(key) && is_small_list(value))
        && matches!(entries.next(), None)
}

#[test]
fn a_copy_of_a_map_made_by_hand_is_a_document(rt: HostRuntime) -> Result<(), AllocError> {
    let copied = copied_map(rt.alloc())?;
    assert!(rt; copied.depth() == 2 && !copied.is_plain());
    assert!(rt; matches!(copied.content(), Content::Document(view) if is_map_of_small_lists(view)));
    Ok(())
}

/// The list in that document, written from a node made by hand, from one that is kept, and from what the view shows.
fn written(alloc: Global, doc: &Doc<'_>) -> Result<Option<[Node; 3]>, SerFail> {
    let (Ok(made), Ok(kept)) = (small_list(alloc), doc.view().to_node(alloc)) else {
        return Err(SerFail::Memory);
    };
    let mut first = NodeBuilder::new(alloc);
    write_node(&mut first, &made)?;
    let mut second = NodeBuilder::new(alloc);
    write_node(&mut second, &kept)?;
    let mut third = NodeBuilder::new(alloc);
    write_view(&mut third, &doc.view())?;
    match (first.finish(), second.finish(), third.finish()) {
        (Some(first), Some(second), Some(third)) => Ok(Some([first, second, third])),
        _ => Ok(None),
    }
}

#[test]
fn a_tree_is_written_whole(rt: HostRuntime) -> Result<(), AllocError> {
    let list = small_list(rt.alloc())?;
    let doc = Doc::from_node(rt.alloc(), &list)?;
    let Ok(Some(nodes)) = written(rt.alloc(), &doc) else {
        assert!(rt; false);
        return Ok(());
    };
    for node in &nodes {
        assert!(rt; is_small_list(Doc::from_node(rt.alloc(), node)?.view()));
    }
    Ok(())
}

/// Null and then the byte string of one byte.
fn null_and_bytes(alloc: Global) -> Result<Vec<Node>, AllocError> {
    let mut items = Vec::new(alloc);
    items.push(Node::null())?;
    items.push(Node::bytes(Vec::from_slice(alloc, &[1])?))?;
    Ok(items)
}

/// The map of null by that key, or null where it is too deep.
fn keyed_by(alloc: Global, key: Node) -> Result<Node, AllocError> {
    let mut pairs = Vec::new(alloc);
    pairs.push((key, Node::null()))?;
    Ok(Node::map(pairs).unwrap_or(Node::null()))
}

#[test]
fn byte_strings_and_keys_that_are_no_texts_are_foreign(rt: HostRuntime) -> Result<(), AllocError> {
    let alloc = rt.alloc();
    let listed = Node::list(null_and_bytes(alloc)?).unwrap_or(Node::null());
    let by_text = keyed_by(alloc, Node::text(String::from_str(alloc, "k")?))?;
    let by_number = keyed_by(alloc, Node::int(Whole::from_i64(5)))?;
    let bytes = Refusal {
        error: DeError::InvalidType(Kind::Bytes),
        place: 2,
    };
    let number = Refusal {
        error: DeError::InvalidType(Kind::Int),
        place: 1,
    };
    for (node, wanted) in [
        (&listed, Some(bytes)),
        (&by_text, None),
        (&by_number, Some(number)),
    ] {
        let doc = Doc::from_node(alloc, node)?;
        assert!(rt; foreign_in(doc.view()) == wanted);
        assert!(rt; node.is_plain() == wanted.is_none());
        assert!(rt; doc.view().to_node(alloc)?.is_plain() == wanted.is_none());
    }
    Ok(())
}

#[test]
fn numbers_of_64_bits_are_numbers(rt: HostRuntime) -> Result<(), AllocError> {
    for value in [0, 7, i64::MIN, i64::MAX] {
        let mut builder = DocBuilder::new(rt.alloc(), b"".as_slice());
        builder.small(value)?;
        assert!(rt; builder.finish().view().as_int() == Some(Whole::from_i64(value)));
        assert!(rt; Whole::from_i64(value).to_i64() == Some(value));
    }
    Ok(())
}

#[test]
fn numbers_at_the_edges_come_back(rt: HostRuntime) -> Result<(), AllocError> {
    for value in [
        Whole::from_i128(0),
        Whole::from_i128(1 << 31),
        Whole::from_i128((1 << 32) - 1),
        Whole::from_i128(1 << 32),
        Whole::from_i128((1 << 63) - 1),
        Whole::from_i128(1 << 63),
        Whole::from_i128((1 << 64) - 1),
        Whole::from_i128(1 << 64),
        Whole::from_u128(u128::MAX),
        Whole::from_i128(-1),
        Whole::from_i128(-(1 << 31)),
        Whole::from_i128(-(1 << 32)),
        Whole::from_i128(-(1 << 32) - 1),
        Whole::from_i128(-(1 << 63)),
        Whole::from_i128(-(1 << 63) - 1),
        Whole::from_i128(i128::MIN),
    ] {
        let mut builder = DocBuilder::new(rt.alloc(), b"".as_slice());
        builder.int(value)?;
        let doc = builder.finish();
        assert!(rt; matches!(doc.view().kind(), Kind::Int));
        assert!(rt; doc.view().as_int() == Some(value));
    }
    Ok(())
}

fn is_small_map(view: View<'_>) -> bool {
    let Some(mut entries) = view.entries() else {
        return false;
    };
    matches!(entries.next(), Some((key, value)) if key.as_text() == Some("k") && value.as_text() == Some("é"))
        && matches!(entries.next(), None)
}

/// Whether the map in the document, copied, is a document of its own.
fn part_stays(alloc: Global) -> Result<bool, AllocError> {
    let doc = document(alloc)?;
    let Some(items) = doc.view().items() else {
        return Ok(false);
    };
    for item in items {
        if item.kind() == Kind::Map {
            let part = item.to_node(alloc)?.copy(alloc)?;
            return Ok(
                matches!(part.content(), Content::Document(view) if is_small_map(view) && view.place() == 0),
            );
        }
    }
    Ok(false)
}

#[test]
fn copied_part_is_a_document(rt: HostRuntime) {
    assert!(rt; matches!(part_stays(rt.alloc()), Ok(true)));
}

/// The list in a document whose cells are shared, and the map in it, copied; the document is let go.
fn shared_nodes(alloc: Global) -> Result<Option<(Node, Node)>, AllocError> {
    let doc = document(alloc)?.shared(alloc)?.shared(alloc)?;
    let Some(items) = doc.view().items() else {
        return Ok(None);
    };
    for item in items {
        if item.kind() == Kind::Map {
            return Ok(Some((doc.view().to_node(alloc)?, item.to_node(alloc)?)));
        }
    }
    Ok(None)
}

/// Whether both are read as what they were copied from, and so is a copy of the first.
fn shared_nodes_stay(alloc: Global) -> Result<bool, AllocError> {
    let Some((list, map)) = shared_nodes(alloc)? else {
        return Ok(false);
    };
    let again = list.copy(alloc)?;
    drop(list);
    Ok(
        matches!(again.content(), Content::Document(view) if shows(alloc, view)? && view.place() == 0)
            && matches!(map.content(), Content::Document(view) if is_small_map(view) && view.place() == 0),
    )
}

#[test]
fn nodes_that_share_cells_outlive_their_document(rt: HostRuntime) {
    assert!(rt; matches!(shared_nodes_stay(rt.alloc()), Ok(true)));
}

/// The key text of the image on JSON of a map with that one key.
fn key_text(alloc: Global, key: Node) -> Result<Option<String>, PrintError> {
    let mut pairs = Vec::new(alloc);
    pairs.push((key, Node::null()))?;
    let Ok(map) = Node::map(pairs) else {
        return Ok(None);
    };
    let image = image(alloc, &map, WireKind::Json)?;
    match image.content() {
        Content::Map([(key, _)]) => match key.as_text() {
            Some(text) => Ok(Some(String::from_str(alloc, text)?)),
            None => Ok(None),
        },
        _ => Ok(None),
    }
}

#[test]
fn an_image_has_texts_for_keys(rt: HostRuntime) {
    let text = key_text(rt.alloc(), Node::int(Whole::from_u128(5)));
    assert!(rt; matches!(&text, Ok(Some(text)) if text.as_str() == "5"));
    assert!(rt; matches!(key_text(rt.alloc(), Node::null()), Err(PrintError::Key)));
}

/// The order of two keys, which is that of their meanings.
fn order_of<K: Keyed>(first: &K, second: &K) -> Ordering
    ensures { result ≡ K.order (K.meaning first.now) (K.meaning second.now) }
{
    first.cmp(second)
}

/// Whether two keys are equal, which they are where their meanings are the same.
fn is_same<K: Keyed>(first: &K, second: &K) -> bool
    ensures { IsTrue result ↔ (K.meaning first.now ≡ K.meaning second.now) }
{
    first.in_hand();
    second.in_hand();
    first == second
}

#[test]
fn values_have_the_order_of_their_meanings(rt: HostRuntime) {
    assert!(rt; order_of(&'é', &'z') == Ordering::Greater);
    assert!(rt; order_of(&(-1i8, true), &(-1, false)) == Ordering::Greater);
    assert!(rt; order_of(&[Some(2u128), None], &[Some(2), Some(1)]) == Ordering::Less);
    assert!(rt; order_of(&(), &()) == Ordering::Equal);
    assert!(rt; order_of(&Whole::from_u128(1 << 64), &Whole::from_u128(1)) == Ordering::Greater);
    assert!(rt; is_same(&true, &true) && !is_same(&7u8, &8));
    assert!(rt; is_same(&Whole::from_i128(3), &Whole::from_u128(3)));
    assert!(rt; !is_same(&[Some(('a', 1i8))], &[Some(('a', 2))]));
}

/// The meaning of a value in hand is one of its type's.
fn is_meant<T: Meant>(value: &T) -> bool
    ensures { IsTrue result × T.is_meaning (T.meaning value.now) }
{
    value.in_hand();
    true
}

#[test]
fn plain_values_are_meant(rt: HostRuntime) {
    assert!(rt;
        is_meant(&Whole::from_i128(-1)) && is_meant(&(1u8,)) && is_meant(&(1u8, 'a', true))
    );
    assert!(rt; is_meant(&(1u8, 2u8, 3u8, 4u8)) && is_meant(&(1u8, 2u8, 3u8, 4u8, 5u8)));
    assert!(rt;
        is_meant(&(1u8, 2u8, 3u8, 4u8, 5u8, 6u8)) && is_meant(&(1u8, 2u8, 3u8, 4u8, 5u8, 6u8, 7u8))
    );
    assert!(rt; is_meant(&(1u8, 2u8, 3u8, 4u8, 5u8, 6u8, 7u8, 8u8)));
    assert!(rt;
        is_meant(&(1u8..2)) && is_meant(&(1u8..)) && is_meant(&(..2u8)) && is_meant(&(1u8..=2))
    );
    assert!(rt; is_meant(&Bound::Included(1u8)) && is_meant(&Bound::<u8>::Unbounded));
    assert!(rt; is_meant(&Ok::<u8, bool>(1)) && is_meant(&Err::<u8, bool>(true)));
}

fn kept_values_are_meant(alloc: Global) -> Result<bool, AllocError> {
    let mut queue = VecDeque::new(alloc);
    queue.push_back(String::from_str(alloc, "a")?)?;
    let mut linked = LinkedList::new(alloc);
    linked.push_back(1u8)?;
    let slice = BoxedSlice::from_slice(alloc, &[1u8, 2])?;
    let end = Bound::Excluded(String::from_str(alloc, "b")?);
    let text = CowStr::Owned(String::from_str(alloc, "c")?);
    Ok(
        is_meant(&queue)
            && is_meant(&linked)
            && is_meant(&slice)
            && is_meant(&end)
            && is_meant(&text),
    )
}

#[test]
fn sequences_and_borrowed_values_are_meant(rt: HostRuntime) {
    assert!(rt; matches!(kept_values_are_meant(rt.alloc()), Ok(true)));
    let bytes = [1u8, 2];
    assert!(rt;
        is_meant(&&bytes[..]) && is_meant(&&bytes) && is_meant(&CowSlice::<u8>::Borrowed(&bytes))
    );
    assert!(rt; is_meant(&CowStr::<Global>::Borrowed("a")) && is_meant(&Cow::Borrowed(&bytes)));
}

/// Calls `in_hand` on a map and a set that are ordered, and on two that are hashed.
fn hold_maps_and_sets(alloc: Global) -> Result<(), AllocError> {
    let mut ordered = BTreeMap::new(alloc);
    ordered.insert(2u8, true)?;
    ordered.insert(1, false)?;
    ordered.in_hand();
    let mut ascending = BTreeSet::new(alloc);
    ascending.insert('b')?;
    ascending.insert('a')?;
    ascending.in_hand();
    let mut hashed = HashMap::new(alloc);
    hashed.insert(String::from_str(alloc, "b")?, Some(-1i8))?;
    hashed.insert(String::from_str(alloc, "a")?, None)?;
    hashed.in_hand();
    let mut scattered = HashSet::new(alloc);
    scattered.insert(2u64)?;
    scattered.insert(1)?;
    scattered.in_hand();
    Ok(())
}

#[test]
fn maps_and_sets_are_in_hand(rt: HostRuntime) {
    assert!(rt; hold_maps_and_sets(rt.alloc()).is_ok());
}

use std::alloc::{AllocError, Global};
use std::boxed::BoxedSlice;
use std::collections::{BTreeMap, BTreeSet, HashMap, HashSet, LinkedList, VecDeque};
use sw_check::blame::CheckFail;
use sw_check::check;
use sw_check::grade::Grade;
use sw_core::adapter::{Adapter, DeserializeAs};
use sw_core::as_::As;
use sw_core::same::Same;
use sw_elem::any::Any;
use sw_pairs::free::{is_map_free, is_seq_free};
use sw_pairs::map::Map;
use sw_pairs::seq::Seq;
use sw_tree::doc::Doc;
use sw_tree::fail::{DeFail, SerError, SerFail};
use sw_tree::mode::{Mode, WireKind};
use sw_tree::node::Node;
use sw_tree::skipped::Skipped;

type Flags = Map<Same, Same>;

type ByList = Map<Vec<Same>, Same>;

/// A list of that many levels.
fn list_of_levels(alloc: Global, levels: u8) -> Result<Node, AllocError> {
    let mut node = Node::null();
    for _ in 0..levels {
        let mut items = Vec::new(alloc);
        items.push(node)?;
        node = match Node::list(items) {
            Ok(list) => list,
            Err(_) => Node::null(),
        };
    }
    Ok(node)
}

/// How many levels the map has whose one value has that many.
fn levels_above(alloc: Global, levels: u8) -> Result<u8, SerFail> {
    let Ok(value) = Any::new(list_of_levels(alloc, levels)?) else {
        return Ok(0);
    };
    let mut pairs = Vec::new(alloc);
    if pairs.push((7u32, value)).is_err() {
        return Err(SerFail::Memory);
    }
    let written = As::<Flags>::serialize(alloc, &pairs, Mode::plain(WireKind::Json))?;
    Ok(written.depth())
}

#[test]
fn a_map_has_at_most_128_levels(rt: HostRuntime) {
    assert!(rt; levels_above(rt.alloc(), 127) == Ok(128));
    assert!(rt; levels_above(rt.alloc(), 128) == Err(SerFail::Unwritable(SerError::TooDeep)));
}

/// What the check answers of lists as keys of the compact wire.
fn lists_as_compact_keys(alloc: Global) -> Result<Grade, CheckFail> {
    let expr = <ByList as Adapter<Vec<(Vec<u32>, u32)>>>::describe(alloc)?;
    check(alloc, &expr, Mode::plain(WireKind::Compact))
}

#[test]
fn a_list_is_a_key_of_the_compact_wire(rt: HostRuntime) {
    match lists_as_compact_keys(rt.alloc()) {
        Ok(grade) => assert!(rt; grade == Grade::Exact),
        Err(_) => assert!(rt; false),
    }
}

#[test]
fn a_map_takes_memory(rt: HostRuntime) {
    assert!(rt; !is_map_free::<u8, u8, Same, Same>());
    assert!(rt; !<Flags as DeserializeAs<Vec<(u32, bool)>>>::FREE);
    assert!(rt; !<Flags as DeserializeAs<VecDeque<(u32, bool)>>>::FREE);
    assert!(rt; !<Flags as DeserializeAs<LinkedList<(u32, bool)>>>::FREE);
    assert!(rt; !<Flags as DeserializeAs<BoxedSlice<(u32, bool)>>>::FREE);
    assert!(rt; !<Flags as DeserializeAs<BTreeSet<(u32, bool)>>>::FREE);
    assert!(rt; !<Flags as DeserializeAs<HashSet<(u32, bool)>>>::FREE);
    assert!(rt; !<Flags as DeserializeAs<[(u32, bool); 2]>>::FREE);
}

/// The entries of the map that is written for an optional pair.
fn entries_of(alloc: Global, pair: Option<(u32, bool)>) -> Result<Vec<(u32, bool)>, DeFail> {
    let mode = Mode::plain(WireKind::Compact);
    let Ok(node) = As::<Flags>::serialize(alloc, &pair, mode) else {
        return Err(DeFail::Memory);
    };
    let doc = Doc::from_node(alloc, &node)?;
    As::<Flags>::deserialize(alloc, doc.view(), mode, &mut Skipped::new(alloc))
}

#[test]
fn an_optional_pair_is_a_map_of_one_entry_or_none(rt: HostRuntime) {
    match entries_of(rt.alloc(), Some((7, true))) {
        Ok(pairs) => assert!(rt; pairs.len() == 1 && pairs[0] == (7, true)),
        Err(_) => assert!(rt; false),
    }
    match entries_of(rt.alloc(), None) {
        Ok(pairs) => assert!(rt; pairs.is_empty()),
        Err(_) => assert!(rt; false),
    }
}

#[test]
fn a_map_as_a_list_takes_memory(rt: HostRuntime) {
    assert!(rt; !is_seq_free::<u8, u8, Same, Same>());
    assert!(rt; !<Vec<(Same, Same)> as DeserializeAs<BTreeMap<u32, bool>>>::FREE);
    assert!(rt; !<Vec<(Same, Same)> as DeserializeAs<HashMap<u32, bool>>>::FREE);
    assert!(rt; !<Seq<(Same, Same)> as DeserializeAs<HashMap<u32, bool>>>::FREE);
}

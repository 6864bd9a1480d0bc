use std::alloc::{AllocError, Global};
use std::collections::{BTreeMap, HashMap};
use sw_core::adapter::DeserializeAs;
use sw_core::as_::As;
use sw_core::same::Same;
use sw_json::JsonWire;
use sw_tree::doc::Doc;
use sw_tree::mode::{Mode, WireKind};
use sw_tree::node::Node;
use sw_tree::skipped::Skipped;
use sw_tree::whole::Whole;
use sw_tree::wire::Wire;

/// A map of so many entries, each with the key `1`; the values count from 0.
fn equal_keys(alloc: Global, count: u32) -> Result<Node, AllocError> {
    let mut pairs = Vec::new(alloc);
    for value in 0..count {
        let key = Node::text(String::from_str(alloc, "1")?);
        if pairs
            .push((key, Node::int(Whole::from_u128(value as u128))))
            .is_err()
        {
            return Err(AllocError);
        }
    }
    Node::map(pairs).map_err(|_| AllocError)
}

/// How many entries an ordered map has of so many with one key, and the value of that key.
fn ordered(alloc: Global, count: u32) -> Option<(usize, u32)> {
    let node = equal_keys(alloc, count).ok()?;
    let doc = Doc::from_node(alloc, &node).ok()?;
    let mut log = Skipped::new(alloc);
    let mode = Mode::plain(WireKind::Json);
    let map = As::<BTreeMap<Same, Same>>::deserialize::<BTreeMap<u32, u32>>(
        alloc,
        doc.view(),
        mode,
        &mut log,
    ).ok()?;
    Some((map.len(), *map.get(&1)?))
}

/// The same of a hashed map.
fn hashed(alloc: Global, count: u32) -> Option<(usize, u32)> {
    let node = equal_keys(alloc, count).ok()?;
    let doc = Doc::from_node(alloc, &node).ok()?;
    let mut log = Skipped::new(alloc);
    let mode = Mode::plain(WireKind::Json);
    let map = As::<HashMap<Same, Same>>::deserialize::<HashMap<u32, u32>>(
        alloc,
        doc.view(),
        mode,
        &mut log,
    ).ok()?;
    Some((map.len(), *map.get(&1)?))
}

#[test]
fn the_last_of_many_equal_keys_stays(rt: HostRuntime) {
    assert!(rt; ordered(rt.alloc(), 20_000) == Some((1, 19_999)));
    assert!(rt; hashed(rt.alloc(), 20_000) == Some((1, 19_999)));
}

/// The text of a hashed map of the numbers below 1,000, put in from the first or from the last.
fn text(alloc: Global, from_the_last: bool) -> Option<Vec<u8>> {
    let mut map = HashMap::new(alloc);
    for number in 0..1_000u32 {
        let key = if from_the_last { 999 - number } else { number };
        map.insert(key, key).ok()?;
    }
    let node = As::<HashMap<Same, Same>>::serialize(alloc, &map, Mode::plain(WireKind::Json)).ok()?;
    JsonWire::print(alloc, &node).ok()
}

#[test]
fn a_hashed_map_has_one_text(rt: HostRuntime) {
    let first = text(rt.alloc(), false);
    let last = text(rt.alloc(), true);
    assert!(rt; first.is_some());
    assert!(rt; first == last);
}

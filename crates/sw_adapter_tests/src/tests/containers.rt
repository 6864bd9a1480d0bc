use std::alloc::Global;
use std::collections::{BTreeMap, HashMap, HashSet};
use std::ops::{Range, RangeFrom, RangeInclusive, RangeTo};
use sw_core::adapter::DeserializeAs;
use sw_core::as_::As;
use sw_core::display::DisplayFromStr;
use sw_core::free::{
    are_copies_free, are_leaves_free, are_parsed_leaves_free, is_list_free, is_parsed_text_free,
};
use sw_core::record::key_name;
use sw_core::same::Same;
use sw_tree::doc::Doc;
use sw_tree::fail::DeError;
use sw_tree::mode::{Kind, Mode, WireKind};
use sw_tree::node::Node;
use sw_tree::skipped::Skipped;
use sw_tree::whole::Whole;

#[test]
fn what_is_copied_takes_memory(rt: HostRuntime) {
    assert!(rt; are_leaves_free());
    assert!(rt; !are_copies_free());
    assert!(rt; are_parsed_leaves_free());
    assert!(rt; !is_parsed_text_free());
    assert!(rt; !is_list_free::<u8, Same>());
}

#[test]
fn a_number_alone_is_read_without_memory(rt: HostRuntime) {
    assert!(rt; <Same as DeserializeAs<u32>>::FREE);
    assert!(rt; !<Same as DeserializeAs<String>>::FREE);
    assert!(rt; <DisplayFromStr as DeserializeAs<u32>>::FREE);
    assert!(rt; !<Vec<DisplayFromStr> as DeserializeAs<Vec<u32>>>::FREE);
    assert!(rt; !<Box<Same> as DeserializeAs<Box<u8>>>::FREE);
    assert!(rt; !<BTreeMap<Same, Same> as DeserializeAs<BTreeMap<u8, u8>>>::FREE);
    assert!(rt; !<HashMap<Same, Same> as DeserializeAs<HashMap<u8, u8>>>::FREE);
    assert!(rt; !<HashSet<Same> as DeserializeAs<HashSet<u8>>>::FREE);
    assert!(rt; !<HashMap<Same, Same> as DeserializeAs<Vec<(u8, u8)>>>::FREE);
    assert!(rt; !<BTreeMap<Same, Same> as DeserializeAs<Option<(u8, u8)>>>::FREE);
    assert!(rt; <Option<Same> as DeserializeAs<Option<u8>>>::FREE);
    assert!(rt; !<Option<Same> as DeserializeAs<Option<String>>>::FREE);
}

#[test]
fn a_tuple_is_free_where_all_parts_are(rt: HostRuntime) {
    assert!(rt; <(Same,) as DeserializeAs<(u8,)>>::FREE);
    assert!(rt; <(Same, DisplayFromStr, Same) as DeserializeAs<(u8, u16, char)>>::FREE);
    assert!(rt; !<(Same, Same) as DeserializeAs<(u8, String)>>::FREE);
    assert!(rt; !<(Vec<Same>, Same) as DeserializeAs<(Vec<u8>, u8)>>::FREE);
}

#[test]
fn an_array_is_free_where_its_part_is(rt: HostRuntime) {
    assert!(rt; <[Same; 3] as DeserializeAs<[u8; 3]>>::FREE);
    assert!(rt; <[[Same; 2]; 3] as DeserializeAs<[[u8; 2]; 3]>>::FREE);
    assert!(rt; <[(Same, Same); 3] as DeserializeAs<[(u8, u8); 3]>>::FREE);
    assert!(rt; !is_list_free::<[u8; 3], [Same; 3]>());
}

#[test]
fn a_range_takes_memory(rt: HostRuntime) {
    assert!(rt; !<Range<Same> as DeserializeAs<Range<u8>>>::FREE);
    assert!(rt; !<RangeFrom<Same> as DeserializeAs<RangeFrom<u8>>>::FREE);
    assert!(rt; !<RangeTo<Same> as DeserializeAs<RangeTo<u8>>>::FREE);
    assert!(rt; !<RangeInclusive<Same> as DeserializeAs<RangeInclusive<u8>>>::FREE);
}

/// The range that is read of what is written of this one.
fn read_again(alloc: Global, range: &RangeInclusive<u8>) -> Option<RangeInclusive<u8>> {
    let mode = Mode::plain(WireKind::Json);
    let Ok(node) = As::<RangeInclusive<Same>>::serialize(alloc, range, mode) else {
        return None;
    };
    let Ok(doc) = Doc::from_node(alloc, &node) else {
        return None;
    };
    let mut log = Skipped::new(alloc);
    match As::<RangeInclusive<Same>>::deserialize(alloc, doc.view(), mode, &mut log) {
        Ok(again) => Some(again),
        Err(_) => None,
    }
}

#[test]
fn a_walked_range_is_read_as_one_that_is_not(rt: HostRuntime) {
    let mut range = 3u8..=4;
    assert!(rt; range.next() == Some(3));
    assert!(rt; range.next() == Some(4));
    assert!(rt; range.next() == None);
    let Some(mut again) = read_again(rt.alloc(), &range) else {
        assert!(rt; false);
        return;
    };
    assert!(rt; again.next() == Some(4));
    assert!(rt; again.next() == None);
}

/// Whether a key with that node has this name, or this refusal.
fn has_name(alloc: Global, key: &Node, want: Result<&str, DeError>) -> bool {
    match Doc::from_node(alloc, key) {
        Ok(doc) => match (key_name(doc.view()), want) {
            (Ok(name), Ok(wanted)) => name == wanted,
            (Err(error), Err(wanted)) => error == wanted,
            _ => false,
        },
        Err(_) => false,
    }
}

#[test]
fn a_records_key_is_a_text(rt: HostRuntime) {
    let Ok(text) = String::from_str(rt.alloc(), "start") else {
        assert!(rt; false);
        return;
    };
    assert!(rt; has_name(rt.alloc(), &Node::text(text), Ok("start")));
    let number = Node::int(Whole::from_u128(5));
    assert!(rt; has_name(rt.alloc(), &number, Err(DeError::InvalidType(Kind::Int))));
}

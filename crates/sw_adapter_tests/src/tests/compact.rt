//! Nests over the compact wire.

use std::alloc::Global;
use sw_check::blame::CheckFail;
use sw_compact::CompactWire;
use sw_core::adapter::Adapter;
use sw_core::as_::As;
use sw_core::display::DisplayFromStr;
use sw_core::faithful::faithful;
use sw_core::formats::{PreferMany, PreferOne};
use sw_core::same::Same;
use sw_json::JsonWire;
use sw_pairs::map::Map;
use sw_policy::one_or_many::OneOrMany;
use sw_policy::pick_first::PickFirst;
use sw_tree::meant::Meant;
use sw_tree::mode::{Mode, WireKind};
use sw_tree::skipped::Skipped;
use sw_tree::wire::Wire;

/// Whether the nest is sound on the compact wire, and these bytes are what the value is written as, and what they
/// are recoded to.
fn settles<A: Adapter<T>, T: Meant>(alloc: Global, value: &T, wanted: &[u8]) -> Option<bool> {
    let Ok(token) = faithful::<A, T, CompactWire>(alloc) else {
        return None;
    };
    let node = As::<A>::serialize(alloc, value, Mode::plain(WireKind::Compact)).ok()?;
    let bytes = CompactWire::print(alloc, &node).ok()?;
    let mut log = Skipped::new(alloc);
    let recoded = As::<A>::recode::<T, CompactWire>(alloc, &token, &mut log, bytes.as_slice());
    let (_, text) = recoded.ok()?;
    Some(bytes.as_slice() == wanted && text.as_slice() == wanted)
}

#[test]
fn numbers_go_by_their_texts_or_by_themselves(rt: HostRuntime) {
    let Ok(value) = Vec::from_slice(rt.alloc(), &[1_u32, 300]) else {
        assert!(rt; false);
        return;
    };
    let texts: &[u8] = &[0xc2, 7, 2, 5, 1, 0x31, 5, 3, 0x33, 0x30, 0x30];
    assert!(rt; settles::<Vec<DisplayFromStr>, Vec<u32>>(rt.alloc(), &value, texts) == Some(true));
    let numbers: &[u8] = &[0xc2, 7, 2, 3, 1, 1, 3, 2, 1, 0x2c];
    assert!(rt;
        settles::<Vec<PickFirst<(Same, DisplayFromStr)>>, Vec<u32>>(rt.alloc(), &value, numbers)
            == Some(true)
    );
    assert!(rt;
        settles::<OneOrMany<Same, PreferOne>, Vec<u32>>(rt.alloc(), &value, numbers) == Some(true)
    );
    assert!(rt;
        settles::<OneOrMany<Same, PreferMany>, Vec<u32>>(rt.alloc(), &value, numbers) == Some(true)
    );
}

/// One entry, whose key is a list.
fn keyed_by_lists(alloc: Global) -> Option<Vec<(Vec<u32>, u32)>> {
    let mut entries = Vec::new(alloc);
    entries.push((Vec::from_slice(alloc, &[7]).ok()?, 5)).ok()?;
    Some(entries)
}

#[test]
fn a_list_is_a_key_on_the_compact_wire_alone(rt: HostRuntime) {
    let Some(value) = keyed_by_lists(rt.alloc()) else {
        assert!(rt; false);
        return;
    };
    let bytes: &[u8] = &[0xc2, 8, 1, 7, 1, 3, 1, 7, 3, 1, 5];
    assert!(rt;
        settles::<Map<Vec<Same>, Same>, Vec<(Vec<u32>, u32)>>(rt.alloc(), &value, bytes)
            == Some(true)
    );
    let json = faithful::<Map<Vec<Same>, Same>, Vec<(Vec<u32>, u32)>, JsonWire>(rt.alloc());
    assert!(rt; matches!(json, Err(CheckFail::Blame(_))));
}

use std::alloc::Global;
use sw_core::display::DisplayFromStr;
use sw_core::wrap::{DeserializeAsWrap, SerializeAsWrap};
use sw_elem::serialize::{Deserialize, Serialize};
use sw_tree::doc::Doc;
use sw_tree::mode::{Mode, WireKind};
use sw_tree::skipped::Skipped;

/// What a number is read as that wrote itself by its text, wrapped in one way or the other.
fn again(alloc: Global, number: u32, from: bool) -> Option<(bool, u32)> {
    let wrap: SerializeAsWrap<'_, u32, DisplayFromStr> = if from {
        SerializeAsWrap::from(&number)
    } else {
        SerializeAsWrap::new(&number)
    };
    let mode = Mode::plain(WireKind::Json);
    let node = wrap.serialize(alloc, mode).ok()?;
    let doc = Doc::from_node(alloc, &node).ok()?;
    let mut log = Skipped::new(alloc);
    let read: DeserializeAsWrap<u32, DisplayFromStr> = Deserialize::deserialize(
        alloc,
        doc.view(),
        mode,
        &mut log,
    ).ok()?;
    Some((node.as_text() == Some("75"), read.into_inner()))
}

#[test]
fn a_wrapped_value_goes_by_its_adapter(rt: HostRuntime) {
    assert!(rt; again(rt.alloc(), 75, false) == Some((true, 75)));
    assert!(rt; again(rt.alloc(), 75, true) == Some((true, 75)));
}

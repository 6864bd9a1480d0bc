use crate::{NonZero, NonZeroI8, NonZeroU8};
use std::alloc::{AllocError, Global};
use sw_elem::{Element, TextForm};
use sw_schema::json_schema::JsonSchema;
use sw_schema::valid;
use sw_tree::doc::Doc;
use sw_tree::fail::{DeError, DeFail};
use sw_tree::mode::{Mode, WireKind};
use sw_tree::node::Node;
use sw_tree::skipped::Skipped;
use sw_tree::whole::Whole;

/// What an element reads of that number, or why it refuses it.
fn read<T: Element>(alloc: Global, number: i128) -> Result<Result<T, DeError>, AllocError> {
    let node = Node::int(Whole::from_i128(number));
    let doc = Doc::from_node(alloc, &node)?;
    let mut log = Skipped::new(alloc);
    match T::deserialize(alloc, doc.view(), Mode::plain(WireKind::Compact), &mut log) {
        Ok(value) => Ok(Ok(value)),
        Err(DeFail::Refused(refusal)) => Ok(Err(refusal.error)),
        Err(DeFail::Memory) => Err(AllocError),
    }
}

#[test]
fn every_number_but_0_is_taken_and_given_back(rt: HostRuntime) {
    assert!(rt; NonZeroU8::new(0).is_none());
    assert!(rt; matches!(NonZero::new(7u8), Some(seven) if seven.get() == 7));
    assert!(rt; matches!(NonZeroI8::new(-128), Some(least) if least.get() == -128));
}

#[test]
fn zero_is_refused_as_a_number_out_of_range_is(rt: HostRuntime) -> Result<(), AllocError> {
    let alloc = rt.alloc();
    assert!(rt; matches!(read::<NonZeroU8>(alloc, 7)?, Ok(seven) if seven.get() == 7));
    assert!(rt; matches!(read::<NonZeroU8>(alloc, 0)?, Err(DeError::InvalidValue)));
    assert!(rt; matches!(read::<NonZeroU8>(alloc, 256)?, Err(DeError::InvalidValue)));
    Ok(())
}

#[test]
fn the_text_is_the_numbers(rt: HostRuntime) -> Result<(), AllocError> {
    let alloc = rt.alloc();
    assert!(rt; matches!(NonZeroI8::parse(alloc, "-7"), Ok(value) if value.get() == -7));
    assert!(rt; NonZeroI8::parse(alloc, "-0").is_err());
    if let Some(least) = NonZeroI8::new(-128) {
        assert!(rt; least.show(alloc)?.as_str() == "-128");
    }
    Ok(())
}

/// Whether that number is valid for the schema of the type.
fn takes<T: JsonSchema>(alloc: Global, number: i128) -> Result<bool, AllocError> {
    let schema = T::json_schema(alloc)?;
    Ok(valid(&schema, &Node::int(Whole::from_i128(number))))
}

#[test]
fn the_schema_is_the_numbers(rt: HostRuntime) -> Result<(), AllocError> {
    let alloc = rt.alloc();
    assert!(rt; NonZeroU8::schema_name(alloc)?.as_str() == "uint8");
    assert!(rt; NonZeroI8::schema_id(alloc)?.as_str() == "int8");
    assert!(rt; NonZeroU8::inline_schema());
    assert!(rt; takes::<NonZeroU8>(alloc, 255)?);
    assert!(rt; takes::<NonZeroU8>(alloc, 0)?);
    assert!(rt; !takes::<NonZeroU8>(alloc, 256)?);
    assert!(rt; takes::<NonZeroI8>(alloc, -128)?);
    Ok(())
}

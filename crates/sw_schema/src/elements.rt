//! The schemas of the types that write themselves.

use crate::json_schema::JsonSchema;
use crate::schema::SchemaTree;
use std::alloc::{AllocError, Global};
use sw_elem::any::Any;
use sw_elem::integer::Integer;
use sw_tree::Whole;

/// A type of whole numbers, with its name in schemas and its bounds.
pub trait NumberSchema: Integer {
    ghost use Rattle.std.specs.Prelude.{◌≡◌, ℕ, ℤ, List};
    ghost use Rattle.sw_elem.specs.Numbers.{number_writes};
    ghost use Rattle.sw_schema.specs.Elements.{number_definition};
    ghost use Rattle.sw_schema.specs.JsonSchema.{WritesSchema};

    ghost named: { List ℕ };

    ghost lowest: { ℤ };

    ghost highest: { ℤ };

    /// Its name.
    fn number_name() -> &'static str
        ensures { result.now ≡ named };

    /// The least number.
    fn minimum() -> Whole
        ensures { result ≡ lowest };

    /// The greatest number.
    fn maximum() -> Whole
        ensures { result ≡ highest };

    ghost within: { WritesSchema Self.is_meaning number_writes ((number_definition named lowest highest).schema) };
}

impl<N: NumberSchema> JsonSchema for N {
    ghost use Rattle.sw_schema.specs.Elements.{number_definition};

    ghost definition = { number_definition N.named N.lowest N.highest };

    fn inline_schema() -> bool {
        true
    }

    fn schema_name(alloc: Global) -> Result<String, AllocError> {
        String::from_str(alloc, N::number_name())
    }

    fn schema_id(alloc: Global) -> Result<String, AllocError> {
        String::from_str(alloc, N::number_name())
    }

    fn json_schema(_alloc: Global) -> Result<SchemaTree, AllocError> {
        Ok(SchemaTree::integer(Some(N::minimum()), Some(N::maximum())))
    }

    ghost fits = { N.within };
}

impl NumberSchema for u8 {
    ghost use Rattle.std.specs.Prelude.{◌^◌, ◌-◌, pos, codes};
    ghost use Rattle.sw_schema.specs.Laws.Leaves.{unsigned_writes_schema};

    ghost named = { codes "uint8" };

    ghost lowest = { pos 0 };

    ghost highest = { pos (2 ^ 8 - 1) };

    fn number_name() -> &'static str {
        "uint8"
    }

    fn minimum() -> Whole {
        Whole::from_u128(0)
    }

    fn maximum() -> Whole {
        Whole::from_u128(u8::MAX as u128)
    }

    ghost within = { unsigned_writes_schema (2 ^ 8) };
}

impl NumberSchema for u16 {
    ghost use Rattle.std.specs.Prelude.{◌^◌, ◌-◌, pos, codes};
    ghost use Rattle.sw_schema.specs.Laws.Leaves.{unsigned_writes_schema};

    ghost named = { codes "uint16" };

    ghost lowest = { pos 0 };

    ghost highest = { pos (2 ^ 16 - 1) };

    fn number_name() -> &'static str {
        "uint16"
    }

    fn minimum() -> Whole {
        Whole::from_u128(0)
    }

    fn maximum() -> Whole {
        Whole::from_u128(u16::MAX as u128)
    }

    ghost within = { unsigned_writes_schema (2 ^ 16) };
}

impl NumberSchema for u32 {
    ghost use Rattle.std.specs.Prelude.{◌^◌, ◌-◌, pos, codes};
    ghost use Rattle.sw_schema.specs.Laws.Leaves.{unsigned_writes_schema};

    ghost named = { codes "uint32" };

    ghost lowest = { pos 0 };

    ghost highest = { pos (2 ^ 32 - 1) };

    fn number_name() -> &'static str {
        "uint32"
    }

    fn minimum() -> Whole {
        Whole::from_u128(0)
    }

    fn maximum() -> Whole {
        Whole::from_u128(u32::MAX as u128)
    }

    ghost within = { unsigned_writes_schema (2 ^ 32) };
}

impl NumberSchema for u64 {
    ghost use Rattle.std.specs.Prelude.{◌^◌, ◌-◌, pos, codes};
    ghost use Rattle.sw_schema.specs.Laws.Leaves.{unsigned_writes_schema};

    ghost named = { codes "uint64" };

    ghost lowest = { pos 0 };

    ghost highest = { pos (2 ^ 64 - 1) };

    fn number_name() -> &'static str {
        "uint64"
    }

    fn minimum() -> Whole {
        Whole::from_u128(0)
    }

    fn maximum() -> Whole {
        Whole::from_u128(u64::MAX as u128)
    }

    ghost within = { unsigned_writes_schema (2 ^ 64) };
}

impl NumberSchema for u128 {
    ghost use Rattle.std.specs.Prelude.{◌^◌, ◌-◌, pos, codes};
    ghost use Rattle.sw_schema.specs.Laws.Leaves.{unsigned_writes_schema};

    ghost named = { codes "uint128" };

    ghost lowest = { pos 0 };

    ghost highest = { pos (2 ^ 128 - 1) };

    fn number_name() -> &'static str {
        "uint128"
    }

    fn minimum() -> Whole {
        Whole::from_u128(0)
    }

    fn maximum() -> Whole {
        Whole::from_u128(u128::MAX as u128)
    }

    ghost within = { unsigned_writes_schema (2 ^ 128) };
}

impl NumberSchema for usize {
    ghost use Rattle.std.specs.Prelude.{◌^◌, ◌-◌, pos, codes};
    ghost use Rattle.sw_schema.specs.Laws.Leaves.{unsigned_writes_schema};

    ghost named = { codes "uint" };

    ghost lowest = { pos 0 };

    ghost highest = { pos (2 ^ 64 - 1) };

    fn number_name() -> &'static str {
        "uint"
    }

    fn minimum() -> Whole {
        Whole::from_u128(0)
    }

    fn maximum() -> Whole {
        Whole::from_u128(usize::MAX as u128)
    }

    ghost within = { unsigned_writes_schema (2 ^ 64) };
}

impl NumberSchema for i8 {
    ghost use Rattle.std.specs.Prelude.{◌^◌, ◌-◌, pos, negsuc, codes};
    ghost use Rattle.std.specs.Int.{w8};
    ghost use Rattle.sw_schema.specs.Laws.Leaves.{signed_writes_schema};

    ghost named = { codes "int8" };

    ghost lowest = { negsuc (2 ^ 7 - 1) };

    ghost highest = { pos (2 ^ 7 - 1) };

    fn number_name() -> &'static str {
        "int8"
    }

    fn minimum() -> Whole {
        Whole::from_i128(i8::MIN as i128)
    }

    fn maximum() -> Whole {
        Whole::from_i128(i8::MAX as i128)
    }

    ghost within = { signed_writes_schema w8 };
}

impl NumberSchema for i16 {
    ghost use Rattle.std.specs.Prelude.{◌^◌, ◌-◌, pos, negsuc, codes};
    ghost use Rattle.std.specs.Int.{w16};
    ghost use Rattle.sw_schema.specs.Laws.Leaves.{signed_writes_schema};

    ghost named = { codes "int16" };

    ghost lowest = { negsuc (2 ^ 15 - 1) };

    ghost highest = { pos (2 ^ 15 - 1) };

    fn number_name() -> &'static str {
        "int16"
    }

    fn minimum() -> Whole {
        Whole::from_i128(i16::MIN as i128)
    }

    fn maximum() -> Whole {
        Whole::from_i128(i16::MAX as i128)
    }

    ghost within = { signed_writes_schema w16 };
}

impl NumberSchema for i32 {
    ghost use Rattle.std.specs.Prelude.{◌^◌, ◌-◌, pos, negsuc, codes};
    ghost use Rattle.std.specs.Int.{w32};
    ghost use Rattle.sw_schema.specs.Laws.Leaves.{signed_writes_schema};

    ghost named = { codes "int32" };

    ghost lowest = { negsuc (2 ^ 31 - 1) };

    ghost highest = { pos (2 ^ 31 - 1) };

    fn number_name() -> &'static str {
        "int32"
    }

    fn minimum() -> Whole {
        Whole::from_i128(i32::MIN as i128)
    }

    fn maximum() -> Whole {
        Whole::from_i128(i32::MAX as i128)
    }

    ghost within = { signed_writes_schema w32 };
}

impl NumberSchema for i64 {
    ghost use Rattle.std.specs.Prelude.{◌^◌, ◌-◌, pos, negsuc, codes};
    ghost use Rattle.std.specs.Int.{w64};
    ghost use Rattle.sw_schema.specs.Laws.Leaves.{signed_writes_schema};

    ghost named = { codes "int64" };

    ghost lowest = { negsuc (2 ^ 63 - 1) };

    ghost highest = { pos (2 ^ 63 - 1) };

    fn number_name() -> &'static str {
        "int64"
    }

    fn minimum() -> Whole {
        Whole::from_i128(i64::MIN as i128)
    }

    fn maximum() -> Whole {
        Whole::from_i128(i64::MAX as i128)
    }

    ghost within = { signed_writes_schema w64 };
}

impl NumberSchema for i128 {
    ghost use Rattle.std.specs.Prelude.{◌^◌, ◌-◌, pos, negsuc, codes};
    ghost use Rattle.std.specs.Int.{w128};
    ghost use Rattle.sw_schema.specs.Laws.Leaves.{signed_writes_schema};

    ghost named = { codes "int128" };

    ghost lowest = { negsuc (2 ^ 127 - 1) };

    ghost highest = { pos (2 ^ 127 - 1) };

    fn number_name() -> &'static str {
        "int128"
    }

    fn minimum() -> Whole {
        Whole::from_i128(i128::MIN as i128)
    }

    fn maximum() -> Whole {
        Whole::from_i128(i128::MAX as i128)
    }

    ghost within = { signed_writes_schema w128 };
}

impl NumberSchema for isize {
    ghost use Rattle.std.specs.Prelude.{◌^◌, ◌-◌, pos, negsuc, codes};
    ghost use Rattle.std.specs.Int.{w64};
    ghost use Rattle.sw_schema.specs.Laws.Leaves.{signed_writes_schema};

    ghost named = { codes "int" };

    ghost lowest = { negsuc (2 ^ 63 - 1) };

    ghost highest = { pos (2 ^ 63 - 1) };

    fn number_name() -> &'static str {
        "int"
    }

    fn minimum() -> Whole {
        Whole::from_i128(isize::MIN as i128)
    }

    fn maximum() -> Whole {
        Whole::from_i128(isize::MAX as i128)
    }

    ghost within = { signed_writes_schema w64 };
}

impl JsonSchema for bool {
    ghost use Rattle.sw_schema.specs.Elements.{boolean_definition};
    ghost use Rattle.sw_schema.specs.Laws.Leaves.{truth_writes_schema};

    ghost definition = { boolean_definition };

    fn inline_schema() -> bool {
        true
    }

    fn schema_name(alloc: Global) -> Result<String, AllocError> {
        String::from_str(alloc, "boolean")
    }

    fn schema_id(alloc: Global) -> Result<String, AllocError> {
        String::from_str(alloc, "boolean")
    }

    fn json_schema(_alloc: Global) -> Result<SchemaTree, AllocError> {
        Ok(SchemaTree::boolean())
    }

    ghost fits = { truth_writes_schema };
}

impl JsonSchema for () {
    ghost use Rattle.sw_schema.specs.Elements.{null_definition};
    ghost use Rattle.sw_tree.specs.Meant.{IsNothing};
    ghost use Rattle.sw_schema.specs.Laws.Leaves.{nothing_writes_schema};

    ghost definition = { null_definition };

    fn inline_schema() -> bool {
        true
    }

    fn schema_name(alloc: Global) -> Result<String, AllocError> {
        String::from_str(alloc, "null")
    }

    fn schema_id(alloc: Global) -> Result<String, AllocError> {
        String::from_str(alloc, "null")
    }

    fn json_schema(_alloc: Global) -> Result<SchemaTree, AllocError> {
        Ok(SchemaTree::null())
    }

    ghost fits = { nothing_writes_schema IsNothing };
}

impl JsonSchema for char {
    ghost use Rattle.sw_schema.specs.Elements.{text_definition};
    ghost use Rattle.sw_tree.specs.Meant.{IsCharText};
    ghost use Rattle.sw_elem.specs.Strings.{text_shows};
    ghost use Rattle.sw_schema.specs.Laws.Leaves.{texted_writes_schema};

    ghost definition = { text_definition };

    fn inline_schema() -> bool {
        true
    }

    fn schema_name(alloc: Global) -> Result<String, AllocError> {
        String::from_str(alloc, "string")
    }

    fn schema_id(alloc: Global) -> Result<String, AllocError> {
        String::from_str(alloc, "string")
    }

    fn json_schema(_alloc: Global) -> Result<SchemaTree, AllocError> {
        Ok(SchemaTree::text(None, false, false))
    }

    ghost fits = { texted_writes_schema IsCharText text_shows };
}

impl JsonSchema for String {
    ghost use Rattle.sw_schema.specs.Elements.{text_definition};
    ghost use Rattle.sw_tree.specs.Meant.{IsText};
    ghost use Rattle.sw_elem.specs.Strings.{text_shows};
    ghost use Rattle.sw_schema.specs.Laws.Leaves.{texted_writes_schema};

    ghost definition = { text_definition };

    fn inline_schema() -> bool {
        true
    }

    fn schema_name(alloc: Global) -> Result<String, AllocError> {
        String::from_str(alloc, "string")
    }

    fn schema_id(alloc: Global) -> Result<String, AllocError> {
        String::from_str(alloc, "string")
    }

    fn json_schema(_alloc: Global) -> Result<SchemaTree, AllocError> {
        Ok(SchemaTree::text(None, false, false))
    }

    ghost fits = { texted_writes_schema IsText text_shows };
}

impl JsonSchema for Any {
    ghost use Rattle.sw_schema.specs.Elements.{any_definition};
    ghost use Rattle.sw_elem.specs.Foreign.{IsAny, any_writes};
    ghost use Rattle.sw_schema.specs.Laws.Leaves.{any_writes_schema};

    ghost definition = { any_definition };

    fn inline_schema() -> bool {
        true
    }

    fn schema_name(alloc: Global) -> Result<String, AllocError> {
        String::from_str(alloc, "AnyValue")
    }

    fn schema_id(alloc: Global) -> Result<String, AllocError> {
        String::from_str(alloc, "AnyValue")
    }

    fn json_schema(_alloc: Global) -> Result<SchemaTree, AllocError> {
        Ok(SchemaTree::any())
    }

    ghost fits = { any_writes_schema IsAny any_writes };
}

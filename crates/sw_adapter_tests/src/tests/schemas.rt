//! The schemas of adapters: their names, and trees that are valid and that aren't, by the table of schemas and JSON Schema 2020-12.

use std::alloc::Global;
use std::boxed::BoxedSlice;
use std::collections::{BTreeMap, BTreeSet, HashMap, HashSet, LinkedList, VecDeque};
use std::ops::{Bound, Range, RangeFrom, RangeInclusive, RangeTo};
use sw_check::blame::CheckFail;
use sw_core::display::DisplayFromStr;
use sw_core::faithful::faithful;
use sw_core::formats::{PreferMany, PreferOne};
use sw_core::same::Same;
use sw_json::JsonWire;
use sw_number::{NonZeroI128, NonZeroU8};
use sw_pairs::map::Map;
use sw_pairs::seq::Seq;
use sw_policy::one_or_many::OneOrMany;
use sw_policy::pick_first::PickFirst;
use sw_schema::{SchemaTree, valid};
use sw_schemas::laws::{is_shown_valid, keeps_schema};
use sw_schemas::{JsonSchemaAs, Schema};
use sw_tree::meant::Meant;
use sw_tree::wire::Wire;

/// Whether the tree of that JSON text is valid for the schema.
fn takes(alloc: Global, schema: &SchemaTree, text: &str) -> Option<bool> {
    let Ok(doc) = JsonWire::read_tree(alloc, text.as_bytes()) else {
        return None;
    };
    match doc.view().to_node(alloc) {
        Ok(node) => Some(valid(schema, &node)),
        Err(_) => None,
    }
}

/// Whether the schema's name and id are these, and whether it stands inline as wanted.
fn is_named<T: Meant, A: JsonSchemaAs<T>>(
    alloc: Global,
    name: &str,
    id: &str,
    inline: bool,
) -> bool {
    let found = Schema::<T, A>::schema_name(alloc);
    let Ok(found) = found else {
        return false;
    };
    match Schema::<T, A>::schema_id(alloc) {
        Ok(own) => {
            found.as_str() == name
                && own.as_str() == id
                && Schema::<T, A>::inline_schema() == inline
        }
        Err(_) => false,
    }
}

/// Whether the first text's tree is valid for the schema, and the second's is not.
fn tells<T: Meant, A: JsonSchemaAs<T>>(alloc: Global, one: &str, other: &str) -> bool {
    match Schema::<T, A>::json_schema(alloc) {
        Ok(schema) => {
            takes(alloc, &schema, one) == Some(true) && takes(alloc, &schema, other) == Some(false)
        }
        Err(_) => false,
    }
}

/// Whether the schema stands inline, with that name and id, and tells these two texts.
fn inlines<T: Meant, A: JsonSchemaAs<T>>(
    alloc: Global,
    name: &str,
    one: &str,
    other: &str,
) -> bool {
    is_named::<T, A>(alloc, name, name, true) && tells::<T, A>(alloc, one, other)
}

type Texts = DisplayFromStr;

#[test]
fn lists_have_items_of_the_part(rt: HostRuntime) {
    let a = rt.alloc();
    assert!(rt; inlines::<Vec<u8>, Vec<Same>>(a, "Array_of_uint8", "[7,7,255]", "[256]"));
    assert!(rt; inlines::<VecDeque<u8>, VecDeque<Same>>(a, "Array_of_uint8", "[]", "{}"));
    assert!(rt;
        inlines::<LinkedList<u8>, LinkedList<Texts>>(a, "Array_of_string", "[\"1\"]", "[1]")
    );
    assert!(rt; inlines::<BoxedSlice<u8>, BoxedSlice<Same>>(a, "Array_of_uint8", "[0]", "[-1]"));
    assert!(rt; inlines::<[u8; 2], [Same; 2]>(a, "[uint8; 2]", "[1,1]", "[1]"));
    assert!(rt; tells::<[u8; 3], [Same; 3]>(a, "[1,2,3]", "[1,2,3,4]"));
    assert!(rt; is_named::<[u8; 12], [Same; 12]>(a, "[uint8; 12]", "[uint8; 12]", true));
    assert!(rt; inlines::<Box<u8>, Box<Same>>(a, "uint8", "255", "[255]"));
    assert!(rt; inlines::<Option<u8>, Option<Same>>(a, "Nullable_uint8", "null", "256"));
    assert!(rt; tells::<Option<u8>, Option<Same>>(a, "255", "false"));
    assert!(rt; inlines::<BTreeSet<u8>, BTreeSet<Same>>(a, "Set_of_uint8", "[2,1]", "[1,2,1]"));
    assert!(rt; inlines::<HashSet<u8>, HashSet<Same>>(a, "Set_of_uint8", "[]", "[1,1]"));
}

#[test]
fn maps_have_values_of_the_part(rt: HostRuntime) {
    let a = rt.alloc();
    let (one, other) = ("{\"x\":1,\"x\":255}", "{\"x\":1,\"y\":256}");
    assert!(rt;
        inlines::<BTreeMap<String, u8>, BTreeMap<Same, Same>>(a, "Map_of_uint8", one, other)
    );
    assert!(rt; inlines::<HashMap<String, u8>, HashMap<Same, Same>>(a, "Map_of_uint8", one, other));
    assert!(rt; inlines::<Vec<(String, u8)>, BTreeMap<Same, Same>>(a, "Map_of_uint8", one, other));
    assert!(rt; inlines::<Vec<(String, u8)>, HashMap<Same, Same>>(a, "Map_of_uint8", one, other));
    assert!(rt;
        inlines::<Option<(String, u8)>, BTreeMap<Same, Same>>(a, "Map_of_uint8", one, other)
    );
    assert!(rt;
        inlines::<Option<(String, u8)>, HashMap<Same, Same>>(a, "Map_of_uint8", one, other)
    );
    assert!(rt; inlines::<Vec<(String, u8)>, Map<Same, Same>>(a, "Map_of_uint8", one, other));
    assert!(rt; inlines::<VecDeque<(String, u8)>, Map<Same, Same>>(a, "Map_of_uint8", one, other));
    assert!(rt;
        inlines::<LinkedList<(String, u8)>, Map<Same, Same>>(a, "Map_of_uint8", one, other)
    );
    assert!(rt;
        inlines::<BoxedSlice<(String, u8)>, Map<Same, Same>>(a, "Map_of_uint8", one, other)
    );
    assert!(rt; inlines::<[(u8, u8); 2], Map<Same, Same>>(a, "Map_of_uint8", one, other));
    assert!(rt; inlines::<BTreeSet<(String, u8)>, Map<Same, Same>>(a, "Map_of_uint8", one, other));
    assert!(rt; inlines::<HashSet<(String, u8)>, Map<Same, Same>>(a, "Map_of_uint8", one, other));
}

#[test]
fn maps_as_lists_have_tuples_of_two(rt: HostRuntime) {
    let a = rt.alloc();
    let name = "Array_of_Tuple_of_uint8_and_string";
    let (one, other) = ("[[1,\"x\"],[1,\"y\"]]", "[[\"x\",1]]");
    assert!(rt; inlines::<BTreeMap<u8, String>, Vec<(Same, Same)>>(a, name, one, other));
    assert!(rt; inlines::<HashMap<u8, String>, Vec<(Same, Same)>>(a, name, one, other));
    assert!(rt; inlines::<BTreeMap<u8, String>, Seq<(Same, Same)>>(a, name, one, other));
    assert!(rt; inlines::<HashMap<u8, String>, Seq<(Same, Same)>>(a, name, one, other));
}

#[test]
fn tuples_have_parts_by_their_places(rt: HostRuntime) {
    type S = Same;
    let a = rt.alloc();
    assert!(rt; inlines::<(u8,), (S,)>(a, "Tuple_of_uint8", "[1]", "[]"));
    assert!(rt;
        inlines::<(u8, bool), (S, S)>(a, "Tuple_of_uint8_and_boolean", "[1,true]", "[true,1]")
    );
    assert!(rt;
        inlines::<(u8, bool, ()), (S, S, S)>(
            a,
            "Tuple_of_uint8_and_boolean_and_null",
            "[1,true,null]",
            "[1,true]"
        )
    );
    assert!(rt; tells::<(u8, u8, u8, bool), (S, S, S, S)>(a, "[1,2,3,true]", "[1,2,3,4]"));
    assert!(rt;
        tells::<(u8, u8, u8, u8, bool), (S, S, S, S, S)>(a, "[1,2,3,4,true]", "[1,2,3,4,5]")
    );
    assert!(rt;
        tells::<(u8, u8, u8, u8, u8, bool), (S, S, S, S, S, S)>(
            a,
            "[1,2,3,4,5,true]",
            "[1,2,3,4,5,6]"
        )
    );
    assert!(rt;
        tells::<(u8, u8, u8, u8, u8, u8, bool), (S, S, S, S, S, S, S)>(
            a,
            "[1,2,3,4,5,6,true]",
            "[1,2,3,4,5,6,7]"
        )
    );
    assert!(rt;
        tells::<(u8, u8, u8, u8, u8, u8, u8, bool), (S, S, S, S, S, S, S, S)>(
            a,
            "[1,2,3,4,5,6,7,true]",
            "[1,2,3,4,5,6,7,true,9]"
        )
    );
}

#[test]
fn ranges_have_their_bounds(rt: HostRuntime) {
    let a = rt.alloc();
    let (both, one) = ("{\"start\":1,\"end\":2}", "{\"start\":1}");
    assert!(rt; inlines::<Range<u8>, Range<Same>>(a, "Range_of_uint8", both, one));
    assert!(rt;
        inlines::<RangeInclusive<u8>, RangeInclusive<Same>>(a, "Range_of_uint8", both, one)
    );
    assert!(rt;
        inlines::<RangeFrom<u8>, RangeFrom<Same>>(a, "RangeFrom_of_uint8", one, "{\"end\":1}")
    );
    assert!(rt; inlines::<RangeTo<u8>, RangeTo<Same>>(a, "RangeTo_of_uint8", both, one));
}

#[test]
fn tagged_values_are_of_exactly_one_variant(rt: HostRuntime) {
    let a = rt.alloc();
    let two = "{\"Included\":1,\"Excluded\":2}";
    assert!(rt; inlines::<Bound<u8>, Bound<Same>>(a, "Bound_of_uint8", "\"Unbounded\"", two));
    assert!(rt; tells::<Bound<u8>, Bound<Same>>(a, "{\"Excluded\":255}", "{\"Included\":256}"));
    assert!(rt;
        inlines::<Result<u8, String>, Result<Same, Same>>(
            a,
            "Result_of_uint8_or_string",
            "{\"Err\":\"x\"}",
            "{\"Ok\":\"x\"}"
        )
    );
    assert!(rt; tells::<Result<u8, String>, Result<Same, Same>>(a, "{\"Ok\":1}", "{}"));
}

/// Whether the schema has that name, and that word before it as its id, doesn't stand inline, and tells these two texts.
fn names<T: Meant, A: JsonSchemaAs<T>>(alloc: Global, id: &str, one: &str, other: &str) -> bool {
    match id.strip_prefix("serde_with::") {
        Some(name) => is_named::<T, A>(alloc, name, id, false) && tells::<T, A>(alloc, one, other),
        None => false,
    }
}

#[test]
fn choices_take_what_an_option_takes(rt: HostRuntime) {
    let a = rt.alloc();
    assert!(rt; names::<u8, PickFirst<(Same,)>>(a, "serde_with::PickFirst(uint8)", "1", "\"1\""));
    assert!(rt;
        names::<u8, PickFirst<(Same, Texts)>>(
            a,
            "serde_with::PickFirst(uint8string)",
            "\"1\"",
            "[]"
        )
    );
    assert!(rt; tells::<u8, PickFirst<(Same, Texts, Same)>>(a, "255", "256"));
    assert!(rt; tells::<u8, PickFirst<(Texts, Texts, Texts, Same)>>(a, "255", "256"));
}

#[test]
fn one_or_many_take_both(rt: HostRuntime) {
    type One = OneOrMany<Same, PreferOne>;
    type Many = OneOrMany<Same, PreferMany>;
    let a = rt.alloc();
    let id = "serde_with::OneOrMany(uint8,PreferOne)";
    assert!(rt; names::<Vec<u8>, One>(a, id, "1", "256"));
    assert!(rt;
        names::<Vec<u8>, Many>(
            a,
            "serde_with::OneOrMany<uint8, PreferMany>",
            "[1,1]",
            "[256]"
        )
    );
    assert!(rt; names::<VecDeque<u8>, One>(a, id, "[]", "{}"));
    assert!(rt; names::<LinkedList<u8>, One>(a, id, "[1,1]", "[null]"));
    assert!(rt; names::<BoxedSlice<u8>, One>(a, id, "255", "null"));
    assert!(rt; names::<BTreeSet<u8>, One>(a, id, "[1,2]", "[1,1]"));
    assert!(rt;
        names::<HashSet<u8>, Many>(a, "serde_with::OneOrMany<uint8, PreferMany>", "1", "[1,1]")
    );
}

#[test]
fn a_number_without_0_has_its_number_types_schema(rt: HostRuntime) {
    let a = rt.alloc();
    assert!(rt; inlines::<NonZeroU8, Same>(a, "uint8", "0", "256"));
    assert!(rt; is_named::<NonZeroI128, Same>(a, "int128", "int128", true));
}

/// Whether what is written of these numbers as texts is valid for the schema.
fn is_written_valid(alloc: Global) -> Result<bool, CheckFail> {
    let token = faithful::<Vec<DisplayFromStr>, Vec<u32>, JsonWire>(alloc)?;
    let mut numbers = Vec::new(alloc);
    numbers.push(20u32)?;
    keeps_schema(&token, &numbers);
    Ok(matches!(is_shown_valid(alloc, &token, &numbers), Ok(true)))
}

#[test]
fn what_is_written_is_valid(rt: HostRuntime) {
    assert!(rt; matches!(is_written_valid(rt.alloc()), Ok(true)));
}

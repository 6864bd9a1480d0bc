//! Trees compared, and the items of a list with one another.

ghost use Rattle.std.specs.Prelude.{◌≡◌, drop};
ghost use Rattle.sw_tree.specs.Tree.{trees, entries};
ghost use Rattle.sw_schema.specs.Inner.Parts.{part_tree};
ghost use Rattle.sw_schema.specs.SameTree.{same_tree, same_trees, same_entries, same_truth, same_int};
ghost use Rattle.sw_schema.specs.Valid as valid;

use crate::part::{Part, PartPairs, Parts, Shown};
use sw_tree::mode::Kind;
use sw_tree::whole::Whole;

/// Whether the trees are the same, entries in order. It takes stack for each level.
#[cycle(same)]
pub(crate) fn same(first: Part<'_>, second: Part<'_>) -> bool
    ensures { result ≡ same_tree (part_tree first.entry) (part_tree second.entry) }
{
    match first.shown() {
        Shown::Null => matches!(second.kind(), Kind::Null),
        Shown::Bool(first) => match second.as_bool() {
            Some(second) => same_bools(first, second),
            None => false,
        },
        Shown::Int(first) => match second.as_int() {
            Some(second) => same_numbers(first, second),
            None => false,
        },
        Shown::Text(first) => match second.as_text() {
            Some(second) => first == second,
            None => false,
        },
        Shown::Bytes(first) => match second.as_bytes() {
            Some(second) => first == second,
            None => false,
        },
        Shown::List(first) => match second.items() {
            Some(second) => same_items(first, second),
            None => false,
        },
        Shown::Map(first) => match second.entries() {
            Some(second) => same_pairs(first, second),
            None => false,
        },
    }
}

fn same_bools(first: bool, second: bool) -> bool
    ensures { result ≡ same_truth first second }
{
    first == second
}

fn same_numbers(first: Whole, second: Whole) -> bool
    ensures { result ≡ same_int first second }
{
    first == second
}

/// Whether the items are the same, one by one.
#[cycle(same)]
fn same_items(first: Parts<'_>, second: Parts<'_>) -> bool
    ensures { result ≡ same_trees (trees first.entry) (trees second.entry) }
{
    let mut second = second;
    for item in first {
        match second.next() {
            Some(other) => {
                if !same(item, other) {
                    return false;
                }
            }
            None => return false,
        }
    }
    second.next().is_none()
}

/// Whether the entries are the same, one by one.
#[cycle(same)]
fn same_pairs(first: PartPairs<'_>, second: PartPairs<'_>) -> bool
    ensures { result ≡ same_entries (entries first.entry) (entries second.entry) }
{
    let mut second = second;
    for (key, value) in first {
        match second.next() {
            Some((other_key, other_value)) => {
                if !same(key, other_key) || !same(value, other_value) {
                    return false;
                }
            }
            None => return false,
        }
    }
    second.next().is_none()
}

/// Whether none of the others is the same tree.
fn is_new(item: Part<'_>, others: Parts<'_>) -> bool
    ensures { result ≡ valid.is_new (part_tree item.entry) others.entry }
{
    for other in others {
        if same(item, other) {
            return false;
        }
    }
    true
}

/// The items without so many of the first.
fn after<'a>(items: Parts<'a>, count: usize) -> Parts<'a>
    ensures { result ≡ drop count items.entry }
{
    let mut items = items;
    for _index in 0..count {
        let Some(_item) = items.next() else {
            return items;
        };
    }
    items
}

/// Whether it is a list whose items are pairwise different.
pub(crate) fn are_different(part: Part<'_>) -> bool
    ensures { result ≡ valid.passes_items valid.are_different (part_tree part.entry) }
{
    let Some(items) = part.items() else {
        return false;
    };
    let mut items = items;
    for index in 0..part.len() {
        let Some(others) = part.items() else {
            return false;
        };
        match items.next() {
            Some(item) => {
                if !is_new(item, after(others, index + 1)) {
                    return false;
                }
            }
            None => return true,
        }
    }
    true
}

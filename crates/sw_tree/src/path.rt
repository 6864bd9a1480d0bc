ghost use Rattle.std.specs.Prelude.{◌≡◌, ◌<◌, ◌++◌, OnOk, string_bytes, length, if◌then◌else◌, Some, None, option_map, slice_get, IfOk, MatchOption};
ghost use Rattle.sw_tree.specs.PathText.{step_text};
ghost use Rattle.sw_tree.specs.Inner.View.{seen};
ghost use Rattle.sw_tree.specs.Path.{child, node_seen, HasPlace, Leads};
ghost use Rattle.sw_tree.specs.Inner.Path.{Holds, HoldsPair, IsNear, Nearer};

use crate::view::{Entries, Items, View};
use itoa::Buffer;
use std::alloc::{AllocError, Global};
use std::marker::Model;

/// A step to a child, by its position from 0: to an item of a list, or to the key or the
/// value of an entry of a map.
#[derive(Clone, Copy, PartialEq, Eq)]
pub enum Step {
    Item(usize),
    Key(usize),
    Value(usize),
}

/// The way from a node to one below it, step by step.
#[derive(Drop)]
pub struct NodePath {
    steps: Vec<Step>,
}

impl Model for NodePath {
    ghost use Rattle.std.specs.Prelude.{List};
    ghost use Rattle.sw_tree.specs.declared.path.Step.{Step};

    ghost Value = { List Step };

    ghost view = { λ p. p.steps.items };
}

impl NodePath {
    ghost use Rattle.std.specs.Prelude.{string_bytes};
    ghost use Rattle.sw_tree.specs.PathText.{path_text};

    /// The steps, the first from the view's node.
    pub fn steps(&self) -> &[Step]
        ensures { result.now ≡ self.now }
    {
        self.steps.as_slice()
    }

    /// The path as text: `/` for no steps, else for each step `/` and its position in
    /// decimal, followed by `k` where it leads to a key.
    pub fn print(&self, alloc: Global) -> Result<String, AllocError>
        ensures { IfOk result (λ s. string_bytes s ≡ path_text self.now) }
    {
        let mut text = String::new(alloc);
        if self.steps.is_empty() {
            text.push_str("/")?;
        }
        for step in self.steps.as_slice() {
            push_step(&mut text, *step)?;
        }
        Ok(text)
    }
}

/// Appends the text of a step.
fn push_step(text: &mut String, step: Step) -> Result<(), AllocError>
    ensures { OnOk result (string_bytes text.new ≡ string_bytes text.old ++ step_text step) }
{
    let (position, mark) = match step {
        Step::Item(index) => (index, ""),
        Step::Key(index) => (index, "k"),
        Step::Value(index) => (index, ""),
    };
    let mut digits = Buffer::new();
    text.push_str("/")?;
    text.push_str(digits.format(position))?;
    text.push_str(mark)
}

/// The item at that position.
fn item_at<'a>(items: Items<'a>, index: usize) -> Option<View<'a>>
    ensures { option_map seen result ≡ slice_get items.entry index }
{
    let mut items = items;
    items.nth(index)
}

/// The entry at that position.
fn entry_at<'a>(entries: Entries<'a>, index: usize) -> Option<(View<'a>, View<'a>)>
    ensures { option_map (λ e. (seen e.0, seen e.1)) result ≡ slice_get entries.entry index }
{
    let mut entries = entries;
    entries.nth(index)
}

/// The child that the step leads to.
fn child_at<'a>(view: View<'a>, step: Step) -> Option<View<'a>>
    ensures { option_map seen result ≡ child step (seen view.entry) }
{
    match step {
        Step::Item(index) => match view.items() {
            None => None,
            Some(items) => item_at(items, index),
        },
        Step::Key(index) => match view.entries() {
            None => None,
            Some(entries) => match entry_at(entries, index) {
                None => None,
                Some((key, _)) => Some(key),
            },
        },
        Step::Value(index) => match view.entries() {
            None => None,
            Some(entries) => match entry_at(entries, index) {
                None => None,
                Some((_, value)) => Some(value),
            },
        },
    }
}

/// The node that the steps lead to: `None` exactly where a step leads to no child.
pub fn node_at<'a>(view: View<'a>, path: &NodePath) -> Option<View<'a>>
    ensures { option_map seen result ≡ node_seen path.now (seen view.entry) }
{
    let mut here = view;
    for step in path.steps() {
        here = match child_at(here, *step) {
            None => return None,
            Some(child) => child,
        };
    }
    Some(here)
}

/// The item that has the place, or under which it is, with its position.
fn toward_item<'a>(
    items: Items<'a>,
    count: usize,
    low: usize,
    place: usize,
) -> Option<(usize, View<'a>)>
    requires holds { Holds low place items }
    requires all { length items ≡ count }
    ensures { MatchOption result ⊥ (λ p. IsNear low place (seen p.1) × (slice_get items.entry p.0 ≡ Some (seen p.1))) }
{
    let mut index = 0usize;
    for item in items {
        if place < item.end() {
            return Some((index, item));
        }
        index += 1;
    }
    None
}

/// The same for a map's keys and values.
fn toward_entry<'a>(
    entries: Entries<'a>,
    count: usize,
    low: usize,
    place: usize,
) -> Option<(usize, bool, View<'a>, View<'a>)>
    requires holds { HoldsPair low place entries }
    requires all { length entries ≡ count }
    ensures { MatchOption
        result
        ⊥
        (λ p. IsNear low place (if p.1 then seen p.2 else seen p.3) × (slice_get entries.entry p.0 ≡ Some (seen p.2, seen p.3))) }
{
    let mut index = 0usize;
    for (key, value) in entries {
        if place < key.end() {
            return Some((index, true, key, value));
        }
        if place < value.end() {
            return Some((index, false, key, value));
        }
        index += 1;
    }
    None
}

/// The step to the child that has the place, or under which it is.
fn toward<'a>(view: View<'a>, place: usize) -> Option<(Step, View<'a>)>
    requires inside { HasPlace (seen view) place }
    requires below { (seen view).place < place }
    ensures { MatchOption result ⊥ (λ p. Nearer (seen view.entry) (seen p.1) p.0 place) }
{
    if let Some(items) = view.items() {
        return match toward_item(items, view.len(), view.place(), place) {
            None => None,
            Some((index, item)) => Some((Step::Item(index), item)),
        };
    }
    if let Some(entries) = view.entries() {
        return match toward_entry(entries, view.len(), view.place(), place) {
            None => None,
            Some((index, is_key, key, value)) => {
                if is_key {
                    Some((Step::Key(index), key))
                } else {
                    Some((Step::Value(index), value))
                }
            }
        };
    }
    None
}

/// The way from the view's node to the one below it that has that place. It is there
/// exactly where the view counts and the place is that of a node of its tree.
pub fn path_of(alloc: Global, view: View<'_>, place: usize) -> Result<Option<NodePath>, AllocError>
    ensures { IfOk result (λ o. MatchOption o (¬ HasPlace (seen view.entry) place) (λ p. Leads (seen view.entry) place p)) }
{
    let mut steps = Vec::new(alloc);
    if !view.counts() {
        return Ok(None);
    }
    if place < view.place() || place >= view.end() {
        return Ok(None);
    }
    let mut here = view;
    while here.place() < place {
        match toward(here, place) {
            None => return Ok(None),
            Some((step, child)) => {
                steps.push(step)?;
                here = child;
            }
        }
    }
    Ok(Some(NodePath { steps }))
}

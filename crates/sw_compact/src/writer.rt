//! Bytes that values are put straight into.
#![tactic(auto, using(crate::proofs::Marks::marking))]

ghost use Rattle.std.specs.Prelude.{◌≡◌, ℕ, List, ◌+◌, ◌≤◌, ◌<◌, ◌∷◌, ◌++◌, [], Ok, length, take, drop, vec_len};
ghost use Rattle.sw_tree.specs.Building.{IsBuilt};
ghost use Rattle.sw_compact.specs.Lengths.{length_bytes};
ghost use Rattle.sw_compact.specs.Inner.Appended.{IsAppended, IsTurned, opening_tag, truth_tag};
ghost use Rattle.sw_compact.specs.Inner.Written.{IsLaid, settled};

use crate::length::{append, append_byte, push_head, push_length};
use crate::number::push_int;
use crate::version::Version;
use itoa::Buffer;
use std::alloc::{AllocError, Global};
use std::marker::Model;
use sw_tree::{Builds, Node, PrintError, SerError, SerFail, Whole};

/// A list or map whose parts go down, or all the bytes, where nothing is open.
#[derive(Clone, Copy)]
struct Open {
    is_map: bool,
    /// How many parts are there, a map's keys and values counted.
    parts: usize,
    /// How many levels the deepest part has.
    height: u8,
    /// Where its tag stands.
    tag: usize,
    /// Where its parts begin.
    start: usize,
    /// The count that stands behind the tag.
    told: usize,
}

impl Open {
    ghost use Rattle.sw_compact.specs.Inner.Written.{root, longer, count};

    /// All the bytes.
    fn root() -> Open
        ensures { result ≡ root }
    {
        Open {
            is_map: false,
            parts: 0,
            height: 0,
            tag: 0,
            start: 0,
            told: 0,
        }
    }

    /// The same with a further part of so many levels.
    #[inline]
    fn with(self, height: u8) -> Open
        requires { self.parts < usize.MAX }
        ensures { result ≡ longer self height }
    {
        Open {
            parts: self.parts + 1,
            height: self.height.max(height),
            ..self
        }
    }

    /// How many items, or entries, there are.
    #[inline]
    fn count(self) -> usize
        ensures { result ≡ count self.is_map self.parts }
    {
        if self.is_map {
            self.parts / 2
        } else {
            self.parts
        }
    }
}

/// The tag of a list or map.
#[inline]
fn opening_tag(is_map: bool) -> u8
    ensures { result ≡ opening_tag is_map }
{
    if is_map { 8 } else { 7 }
}

/// The tag of a truth value.
#[inline]
fn truth_tag(value: bool) -> u8
    ensures { result ≡ truth_tag value }
{
    if value { 2 } else { 1 }
}

/// Appends a tag, and bytes behind their length. The one refusal is `Memory`.
#[inline]
fn push_content(out: &mut Vec<u8>, version: Version, tag: u8, content: &[u8]) -> Result<(), SerFail>
    ensures { IsAppended result out.old.items out.new.items (tag ∷ length_bytes version (length content.now) ++ content.now) }
{
    push_head(out, version, tag, content.len())?;
    append(out, content)
}

/// So many bytes in front, and so many at the end, change places.
fn exchange(bytes: &mut [u8], front: usize, end: usize)
    requires { front + end ≤ length bytes.old }
    ensures { (o q n : List ℕ) → bytes.old ≡ o ++ (q ++ n) → length o ≡ front → length n ≡ end → bytes.new ≡ n ++ (q ++ o) }
{
    bytes.rotate_left(front);
    let kept = bytes.len() - front;
    bytes[..kept].rotate_right(end);
}

/// Spells a count between two places anew: what is behind them moves, if the spelling is longer or shorter.
fn respell(
    out: &mut Vec<u8>,
    version: Version,
    at: usize,
    start: usize,
    count: usize,
) -> Result<(), SerFail>
    requires ordered { at ≤ start }
    requires in_bounds { start ≤ vec_len out.old }
    ensures { IsTurned result out.old.items out.new.items (take at out.old.items ++ length_bytes version count ++ drop start out.old.items) }
{
    let end = out.len();
    push_length(out, version, count)?;
    let width = out.len() - end;
    let told = start - at;
    if width == told {
        out.copy_within(end.., at);
        out.truncate(end);
    } else {
        exchange(&mut out[at..], told, width);
        out.truncate(end + width - told);
    }
    Ok(())
}

/// Spells the count of a list or map anew, if another one stands there. The one refusal is `Memory`.
fn settle(out: &mut Vec<u8>, version: Version, inner: Open) -> Result<(), SerFail>
    requires { IsLaid version out.old.items inner }
    ensures { IsTurned result out.old.items out.new.items (settled version out.old.items inner) }
{
    let count = inner.count();
    if count == inner.told {
        return Ok(());
    }
    respell(out, version, inner.tag + 1, inner.start, count)
}

/// A tree's bytes as they go down, and the lists and maps that are open in them.
///
/// The count of a list or map is spelled as it opens, by advice. Where it closes with another, the count is spelled anew.
#[derive(Drop)]
pub struct CompactWriter {
    version: Version,
    out: Vec<u8>,
    top: Open,
    outer: Vec<Open>,
}

impl Model for CompactWriter {
    ghost use Rattle.std.specs.Prelude.{reverse};
    ghost use Rattle.sw_compact.specs.Inner.Written.{Written, shown, AreLaid};

    ghost Value = { Written };

    ghost view = { λ w. shown w.version w.out.items w.top (reverse w.outer.items) };

    ghost invariant = { λ w. AreLaid w.version w.out.items w.top (reverse w.outer.items) };
}

impl CompactWriter {
    ghost use Rattle.std.specs.Prelude.{IfOk, Some};
    ghost use Rattle.sw_tree.specs.Short.{IsShort};
    ghost use Rattle.sw_tree.specs.Tree.{Tree};
    ghost use Rattle.sw_tree.specs.Wires.{IsPrinted};
    ghost use Rattle.sw_compact.specs.Spelling.{text_by};
    ghost use Rattle.sw_compact.specs.Inner.Written.{fresh, put, opened};
    ghost use Rattle.sw_compact.specs.declared.version.Version.{Version};

    /// The mark of the version alone, with room for so many bytes.
    pub(crate) fn new(
        alloc: Global,
        version: Version,
        bytes: usize,
    ) -> Result<CompactWriter, AllocError>
        ensures { IfOk result (λ w. w ≡ fresh version) }
    {
        let mut out = Vec::with_capacity(alloc, bytes)?;
        if let Version::Two = version {
            out.extend_from_slice(&[0xc2])?;
        }
        Ok(CompactWriter {
            version,
            out,
            top: Open::root(),
            outer: Vec::new(alloc),
        })
    }

    #[inline]
    fn open(&mut self, is_map: bool, told: usize) -> Result<(), SerFail>
        ensures { IsBuilt result (Ok (opened is_map self.old)) self.new }
    {
        let tag = self.out.len();
        push_head(&mut self.out, self.version, opening_tag(is_map), told)?;
        if self.outer.push(self.top).is_err() {
            return Err(SerFail::Memory);
        }
        self.top = Open {
            is_map,
            parts: 0,
            height: 0,
            tag,
            start: self.out.len(),
            told,
        };
        Ok(())
    }

    /// The text of the tree that was put into a fresh writer; then the tree is short.
    pub(crate) fn finish(self) -> Result<Vec<u8>, PrintError>
        ensures text { (v : Version) (t : Tree) → self ≡ put t (fresh v) → IsPrinted result (Some (text_by v t)) }
        ensures short { (v : Version) (t : Tree) → self ≡ put t (fresh v) → IfOk result (λ _. IsShort t) }
    {
        Ok(self.out)
    }
}

impl Builds for CompactWriter {
    ghost use Rattle.sw_compact.specs.Inner.Written.{put, opened, closed};
    ghost use Rattle.sw_compact.specs.Laws.Writing.{lists, maps};

    ghost put = { put };

    ghost opened = { opened };

    ghost closed = { closed };

    fn null(&mut self) -> Result<(), SerFail> {
        append_byte(&mut self.out, 0)?;
        self.top = self.top.with(0);
        Ok(())
    }

    fn bool(&mut self, value: bool) -> Result<(), SerFail> {
        append_byte(&mut self.out, truth_tag(value))?;
        self.top = self.top.with(0);
        Ok(())
    }

    #[inline]
    fn int(&mut self, value: Whole) -> Result<(), SerFail> {
        push_int(&mut self.out, value)?;
        self.top = self.top.with(0);
        Ok(())
    }

    fn int_text(&mut self, value: Whole) -> Result<(), SerFail> {
        let mut digits = Buffer::new();
        let text = value.format(&mut digits);
        push_content(&mut self.out, self.version, 5, text.as_bytes())?;
        self.top = self.top.with(0);
        Ok(())
    }

    #[inline]
    fn text(&mut self, value: &str) -> Result<(), SerFail> {
        push_content(&mut self.out, self.version, 5, value.as_bytes())?;
        self.top = self.top.with(0);
        Ok(())
    }

    fn bytes(&mut self, value: &[u8]) -> Result<(), SerFail> {
        push_content(&mut self.out, self.version, 6, value)?;
        self.top = self.top.with(1);
        Ok(())
    }

    /// Bytes take no node whole.
    fn whole(&mut self, _value: &Node) -> Result<bool, SerFail> {
        Ok(false)
    }

    fn open_list(&mut self, items: usize) -> Result<(), SerFail> {
        self.open(false, items)
    }

    fn open_map(&mut self, entries: usize) -> Result<(), SerFail> {
        self.open(true, entries)
    }

    fn close(&mut self) -> Result<(), SerFail> {
        if self.outer.is_empty() {
            return Ok(());
        }
        if self.top.height >= 128 {
            return Err(SerFail::Unwritable(SerError::TooDeep));
        }
        settle(&mut self.out, self.version, self.top)?;
        let Some(around) = self.outer.pop() else {
            unreachable!();
        };
        self.top = around.with(self.top.height + 1);
        Ok(())
    }

    ghost lists = { lists };

    ghost maps = { maps };
}

#[cfg(test)]
mod tests {
    use super::*;

    /// A list of a number, a text, a number and null, whose length is told so.
    fn put_four(out: &mut CompactWriter, told: usize) -> Result<(), SerFail> {
        out.open_list(told)?;
        out.int(Whole::from_i64(1))?;
        out.text("a")?;
        out.int(Whole::from_i64(-1))?;
        out.null()?;
        out.close()
    }

    /// What is put into fresh bytes is that.
    fn are_put(alloc: Global, version: Version, told: usize, wanted: &[u8]) -> bool {
        let Ok(mut out) = CompactWriter::new(alloc, version, 0) else {
            return false;
        };
        if put_four(&mut out, told).is_err() {
            return false;
        }
        matches!(out.finish(), Ok(bytes) if bytes.as_slice() == wanted)
    }

    #[test]
    fn a_list_stands_behind_its_count(rt: HostRuntime) {
        for told in [4, 0, 300, usize::MAX] {
            let first: &[u8] = &[
                7, 0, 0, 0, 0, 0, 0, 0, 4, 3, 1, 1, 5, 0, 0, 0, 0, 0, 0, 0, 1, 0x61, 4, 0, 0,
            ];
            assert!(rt; are_put(rt.alloc(), Version::One, told, first));
            let second: &[u8] = &[0xc2, 7, 4, 3, 1, 1, 5, 1, 0x61, 4, 0, 0];
            assert!(rt; are_put(rt.alloc(), Version::Two, told, second));
        }
    }

    /// A map of that number to a list of so many nulls, and of a text to bytes.
    fn put_nested(out: &mut CompactWriter, told: usize, items: usize) -> Result<(), SerFail> {
        out.open_map(told)?;
        out.int(Whole::from_i64(300))?;
        out.open_list(told)?;
        for _ in 0..items {
            out.null()?;
        }
        out.close()?;
        out.int_text(Whole::from_i64(-7))?;
        out.bytes(&[1, 255])?;
        out.close()
    }

    fn nested(alloc: Global, told: usize, items: usize) -> Option<Vec<u8>> {
        let mut out = CompactWriter::new(alloc, Version::Two, 0).ok()?;
        put_nested(&mut out, told, items).ok()?;
        out.finish().ok()
    }

    #[test]
    fn counts_that_were_told_wrong_are_spelled_anew(rt: HostRuntime) {
        for told in [0, 2, 200, 300, 20000] {
            let bytes = nested(rt.alloc(), told, 200);
            let Some(bytes) = bytes else {
                assert!(rt; false);
                return;
            };
            assert!(rt; bytes.len() == 218);
            assert!(rt; bytes[..9] == [0xc2, 8, 2, 3, 2, 1, 44, 7, 200]);
            assert!(rt; bytes[9] == 1);
            assert!(rt; bytes[10..210].iter().all(|byte| *byte == 0));
            assert!(rt; bytes[210..] == [5, 2, 45, 55, 6, 2, 1, 255]);
        }
    }
}

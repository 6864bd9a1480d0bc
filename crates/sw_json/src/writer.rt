//! A text that values are put straight into.
#![tactic(auto, using(crate::proofs::Keeping::keeping))]

ghost use Rattle.std.specs.Prelude.{◌≡◌, Ok};
ghost use Rattle.sw_tree.specs.Building.{IsBuilt};
ghost use Rattle.sw_json.specs.Inner.Kept.{IsKept};

use crate::level::Level;
use crate::piece::{
    put_bool, put_bytes, put_ending, put_int, put_int_text, put_null, put_open, put_text,
};
use crate::turn::Turn;
use std::alloc::{AllocError, Global};
use std::marker::Model;
use sw_tree::{Builds, Node, PrintError, SerError, SerFail, Whole};

/// A compact JSON text as it goes down, and the lists and maps that are open in it.
///
/// A key that has no image is told at the end: what stands in the text is void from there on.
#[derive(Drop)]
pub struct TextWriter {
    out: Vec<u8>,
    /// A key has no image.
    lost: bool,
    top: Level,
    outer: Vec<Level>,
}

impl Model for TextWriter {
    ghost use Rattle.std.specs.Prelude.{reverse};
    ghost use Rattle.sw_json.specs.Inner.Written.{Written, shown};

    ghost Value = { Written };

    ghost view = { λ w. record { text = shown w.lost w.out.items; top = w.top; outer = reverse w.outer.items } };
}

/// Marks the text as void where a key has no image. The one refusal is `Memory`.
#[inline]
fn keep(lost: &mut bool, pushed: Result<(), PrintError>) -> Result<(), SerFail>
    ensures { IsKept result pushed lost.old lost.new }
{
    match pushed {
        Ok(()) => Ok(()),
        Err(PrintError::Key) => {
            *lost = true;
            Ok(())
        }
        Err(PrintError::Memory) => Err(SerFail::Memory),
    }
}

impl TextWriter {
    ghost use Rattle.std.specs.Prelude.{IfOk, length};
    ghost use Rattle.sw_tree.specs.Short.{IsLength};
    ghost use Rattle.sw_tree.specs.Wires.{IsPrinted};
    ghost use Rattle.sw_json.specs.Inner.Written.{fresh, opened};

    /// An empty text, with room for so many bytes.
    pub(crate) fn new(alloc: Global, bytes: usize) -> Result<TextWriter, AllocError>
        ensures { IfOk result (λ w. w ≡ fresh) }
    {
        let out = Vec::with_capacity(alloc, bytes)?;
        Ok(TextWriter {
            out,
            lost: false,
            top: Level {
                turn: Turn::Root,
                height: 0,
            },
            outer: Vec::new(alloc),
        })
    }

    #[inline]
    fn open(&mut self, is_map: bool) -> Result<(), SerFail>
        ensures { IsBuilt result (Ok (opened is_map self.old)) self.new }
    {
        let pushed = put_open(&mut self.out, self.top.turn, is_map);
        keep(&mut self.lost, pushed)?;
        if self.outer.push(self.top).is_err() {
            return Err(SerFail::Memory);
        }
        self.top = Level::first(is_map);
        Ok(())
    }

    /// The text. `Key` exactly where some key has no image.
    pub(crate) fn finish(self) -> Result<Vec<u8>, PrintError>
        ensures text { IsPrinted result self.text }
        ensures short { IfOk result (λ v. IsLength (length v.items)) }
    {
        if self.lost {
            Err(PrintError::Key)
        } else {
            let _bytes = self.out.len();
            Ok(self.out)
        }
    }
}

impl Builds for TextWriter {
    ghost use Rattle.sw_json.specs.Inner.Written.{put, opened, closed};
    ghost use Rattle.sw_json.specs.Laws.Writing.{lists, maps};

    ghost put = { put };

    ghost opened = { opened };

    ghost closed = { closed };

    fn null(&mut self) -> Result<(), SerFail> {
        let pushed = put_null(&mut self.out, self.top.turn);
        keep(&mut self.lost, pushed)?;
        self.top = self.top.with(0);
        Ok(())
    }

    fn bool(&mut self, value: bool) -> Result<(), SerFail> {
        let pushed = put_bool(&mut self.out, self.top.turn, value);
        keep(&mut self.lost, pushed)?;
        self.top = self.top.with(0);
        Ok(())
    }

    #[inline]
    fn int(&mut self, value: Whole) -> Result<(), SerFail> {
        let pushed = put_int(&mut self.out, self.top.turn, value);
        keep(&mut self.lost, pushed)?;
        self.top = self.top.with(0);
        Ok(())
    }

    #[inline]
    fn int_text(&mut self, value: Whole) -> Result<(), SerFail> {
        let pushed = put_int_text(&mut self.out, self.top.turn, value);
        keep(&mut self.lost, pushed)?;
        self.top = self.top.with(0);
        Ok(())
    }

    #[inline]
    fn text(&mut self, value: &str) -> Result<(), SerFail> {
        let pushed = put_text(&mut self.out, self.top.turn, value);
        keep(&mut self.lost, pushed)?;
        self.top = self.top.with(0);
        Ok(())
    }

    fn bytes(&mut self, value: &[u8]) -> Result<(), SerFail> {
        let pushed = put_bytes(&mut self.out, self.top.turn, value);
        keep(&mut self.lost, pushed)?;
        self.top = self.top.with(1);
        Ok(())
    }

    /// A text takes no node whole.
    fn whole(&mut self, _value: &Node) -> Result<bool, SerFail> {
        Ok(false)
    }

    fn open_list(&mut self, _items: usize) -> Result<(), SerFail> {
        self.open(false)
    }

    fn open_map(&mut self, _entries: usize) -> Result<(), SerFail> {
        self.open(true)
    }

    fn close(&mut self) -> Result<(), SerFail> {
        let Some(around) = self.outer.pop() else {
            return Ok(());
        };
        if self.top.height >= 128 {
            return Err(SerFail::Unwritable(SerError::TooDeep));
        }
        let pushed = put_ending(&mut self.out, self.top.turn);
        keep(&mut self.lost, pushed)?;
        self.top = around.with(self.top.height + 1);
        Ok(())
    }

    ghost lists = { lists };

    ghost maps = { maps };
}

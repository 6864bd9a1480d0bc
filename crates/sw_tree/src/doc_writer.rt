ghost use Rattle.std.specs.Prelude.{◌≡◌, Ok, Some, true, is_some};
ghost use Rattle.sw_tree.specs.Building.{IsBuilt};
ghost use Rattle.sw_tree.specs.Inner.DocWriter.{with_room, close_doc, built_of, document};

use crate::builder::DocBuilder;
use crate::builds::Builds;
use crate::doc::Doc;
use crate::fail::{SerError, SerFail};
use crate::node::Node;
use crate::whole::Whole;
use itoa::Buffer;
use std::alloc::{AllocError, Global};
use std::marker::Model;

/// A document that is built part by part, with copies of all texts and byte strings beside its input, which is empty.
///
/// That a list or map is too deep is told when it closes, so more of them may be open than a document takes. The
/// document is then lost, and of what comes the levels alone are counted.
#[derive(Drop)]
pub(crate) struct DocWriter<'de> {
    top: u8,
    outer: Vec<u8>,
    doc: Option<DocBuilder<'de>>,
}

impl<'de> Model for DocWriter<'de> {
    ghost use Rattle.std.specs.Prelude.{reverse};
    ghost use Rattle.sw_tree.specs.Inner.DocWriter.{Draft, coded_draft};

    ghost Value = { Draft };

    ghost coded = { coded_draft };

    ghost view = { λ w. record { top = w.top; outer = reverse w.outer.items; doc = w.doc } };
}

/// Gives the document up where it doesn't take a tree of so many levels.
fn make_room(doc: &mut Option<DocBuilder<'_>>, levels: u8)
    ensures { doc.new ≡ with_room doc.old levels }
{
    let takes = match doc {
        Some(builder) => builder.takes(levels),
        None => false,
    };
    if !takes {
        *doc = None;
    }
}

/// Closes the innermost list or map, and gives the document up where a map has a key without a value.
fn close_innermost(doc: &mut Option<DocBuilder<'_>>) -> Result<(), SerFail>
    ensures { IsBuilt result (Ok (close_doc doc.old)) doc.new }
{
    let complete = match doc {
        Some(builder) => builder.can_close(),
        None => false,
    };
    if !complete {
        *doc = None;
        return Ok(());
    }
    match doc {
        Some(builder) => built(builder.close()),
        None => Ok(()),
    }
}

/// A builder's answer, as one of writing.
fn built(answer: Result<(), AllocError>) -> Result<(), SerFail>
    ensures { result ≡ built_of answer }
{
    match answer {
        Ok(()) => Ok(()),
        Err(_) => Err(SerFail::Memory),
    }
}

impl<'de> DocWriter<'de> {
    ghost use Rattle.sw_tree.specs.Inner.DocWriter.{fresh, opened};

    /// Nothing open and no root. It takes no memory.
    pub(crate) fn new(alloc: Global) -> DocWriter<'de>
        ensures { result ≡ fresh }
    {
        DocWriter {
            top: 0,
            outer: Vec::new(alloc),
            doc: Some(DocBuilder::new(alloc, b"")),
        }
    }

    fn open(&mut self, is_map: bool) -> Result<(), SerFail>
        ensures { IsBuilt result (Ok (opened is_map self.old)) self.new }
    {
        if self.outer.push(self.top).is_err() {
            return Err(SerFail::Memory);
        }
        self.top = 0;
        make_room(&mut self.doc, 1);
        match &mut self.doc {
            Some(doc) if is_map => built(doc.open_map()),
            Some(doc) => built(doc.open_list()),
            None => Ok(()),
        }
    }

    /// The document of the tree that was put in. It takes no memory.
    pub(crate) fn finish(self) -> Doc<'de>
        requires { is_some (document self.doc) ≡ true }
        ensures { Some result ≡ document self.entry.doc }
    {
        let DocWriter {
            top: _,
            outer: _,
            doc,
        } = self;
        match doc {
            Some(doc) => doc.finish(),
            None => unreachable!(),
        }
    }
}

impl<'de> Builds for DocWriter<'de> {
    ghost use Rattle.sw_tree.specs.Inner.DocWriter.{put, opened, closed};
    ghost use Rattle.sw_tree.specs.Laws.DocWriter.{lists, maps};

    ghost put = { put };

    ghost opened = { opened };

    ghost closed = { closed };

    fn null(&mut self) -> Result<(), SerFail> {
        make_room(&mut self.doc, 0);
        match &mut self.doc {
            Some(doc) => built(doc.null()),
            None => Ok(()),
        }
    }

    fn bool(&mut self, value: bool) -> Result<(), SerFail> {
        make_room(&mut self.doc, 0);
        match &mut self.doc {
            Some(doc) => built(doc.bool(value)),
            None => Ok(()),
        }
    }

    fn int(&mut self, value: Whole) -> Result<(), SerFail> {
        make_room(&mut self.doc, 0);
        match &mut self.doc {
            Some(doc) => built(doc.int(value)),
            None => Ok(()),
        }
    }

    fn int_text(&mut self, value: Whole) -> Result<(), SerFail> {
        let mut digits = Buffer::new();
        self.text(value.format(&mut digits))
    }

    fn text(&mut self, value: &str) -> Result<(), SerFail> {
        make_room(&mut self.doc, 0);
        match &mut self.doc {
            Some(doc) => built(doc.copied(value)),
            None => Ok(()),
        }
    }

    fn bytes(&mut self, value: &[u8]) -> Result<(), SerFail> {
        self.top = self.top.max(1);
        make_room(&mut self.doc, 1);
        match &mut self.doc {
            Some(doc) => built(doc.copied_bytes(value)),
            None => Ok(()),
        }
    }

    fn whole(&mut self, _: &Node) -> Result<bool, SerFail> {
        Ok(false)
    }

    fn open_list(&mut self, _: usize) -> Result<(), SerFail> {
        self.open(false)
    }

    fn open_map(&mut self, _: usize) -> Result<(), SerFail> {
        self.open(true)
    }

    fn close(&mut self) -> Result<(), SerFail> {
        let Some(around) = self.outer.pop() else {
            return Ok(());
        };
        if self.top >= 128 {
            return Err(SerFail::Unwritable(SerError::TooDeep));
        }
        self.top = around.max(self.top + 1);
        close_innermost(&mut self.doc)
    }

    ghost lists = { lists };

    ghost maps = { maps };
}

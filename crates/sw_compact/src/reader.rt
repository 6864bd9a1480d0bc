//! Reading a compact text.

ghost use Rattle.std.specs.Prelude.{◌≡◌, ◌++◌, IfOk, None, Ok, option_map, reverse};
ghost use Rattle.sw_tree.specs.Wires.{IsFound};
ghost use Rattle.sw_compact.specs.Spelling.{mark};
ghost use Rattle.sw_compact.specs.Spelled.{judged, spelled};
ghost use Rattle.sw_compact.specs.Decoding.{tree_of};
ghost use Rattle.sw_compact.specs.Inner.Heads.{head_of};
ghost use Rattle.sw_compact.specs.Inner.Machine.{opens_level, with_head, with_close, settle, enter, follow};
ghost use Rattle.sw_compact.specs.Inner.Kept.{IsBehindMark, progress_of, CanBuild, CanClose, HasCome, HasOpened, CanFollow, Stands};

use crate::head::{Head, read_head};
use crate::level::Level;
use crate::version::Version;
use std::alloc::{AllocError, Global};
use sw_tree::builder::DocBuilder;
use sw_tree::doc::Doc;
use sw_tree::fail::WireError;
use sw_tree::whole::Whole;

/// A text has usually no more nodes than one for so many bytes, for which room is taken ahead.
const USUAL: usize = 4;

/// The most levels that may be open.
const LEVELS: usize = 128;

/// Whether the node has a level of its own.
#[inline]
fn has_level(head: Head<'_>) -> bool
    ensures { result ≡ opens_level (head_of head.entry) }
{
    match head {
        Head::Bytes(_) => true,
        Head::List(_) => true,
        Head::Map(_) => true,
        _ => false,
    }
}

/// Adds the head of the node at that offset, which ends before another, below so many levels; or gives its fault.
fn build(
    builder: &mut DocBuilder<'_>,
    at: usize,
    end: usize,
    depth: usize,
    head: Head<'_>,
) -> Result<Option<WireError>, AllocError>
    requires { CanBuild builder.old end depth (head_of head) }
    ensures { IfOk result (λ f. with_head at depth (head_of head.entry) (Ok builder.old) ≡ progress_of f builder.new) }
{
    if depth >= LEVELS && has_level(head) {
        return Ok(Some(WireError::TooDeep { at }));
    }
    match head {
        Head::Null => builder.null()?,
        Head::Truth(value) => builder.bool(value)?,
        Head::Natural(value) => builder.int(Whole::from_u128(value))?,
        Head::Negative(value) => builder.int(Whole::from_i128(-1 - value as i128))?,
        Head::Text(text) => builder.text(end - text.len(), end)?,
        Head::Bytes(bytes) => builder.bytes(end - bytes.len(), end)?,
        Head::List(_) => builder.open_list()?,
        Head::Map(_) => builder.open_map()?,
    }
    Ok(None)
}

/// Adds the head as long as no fault has come; gives the first fault so far.
fn keep(
    builder: &mut DocBuilder<'_>,
    fault: Option<WireError>,
    at: usize,
    end: usize,
    depth: usize,
    head: Head<'_>,
) -> Result<Option<WireError>, AllocError>
    requires { fault ≡ None → CanBuild builder.old end depth (head_of head) }
    ensures { IfOk result (λ f. with_head at depth (head_of head.entry) (progress_of fault builder.old) ≡ progress_of f builder.new) }
{
    if fault.is_some() {
        return Ok(fault);
    }
    build(builder, at, end, depth, head)
}

/// Closes the innermost, as long as no fault has come.
fn close(builder: &mut DocBuilder<'_>, fault: Option<WireError>) -> Result<(), AllocError>
    requires { fault ≡ None → CanClose builder.old }
    ensures { IfOk result (λ _. with_close (progress_of fault builder.old) ≡ progress_of fault builder.new) }
{
    if fault.is_none() {
        builder.close()?;
    }
    Ok(())
}

/// Behind a finished node: closes what has no part left.
fn settle_levels(
    builder: &mut DocBuilder<'_>,
    fault: Option<WireError>,
    levels: &mut Vec<Level>,
) -> Result<(), AllocError>
    requires { fault ≡ None → HasCome builder.old (reverse levels.old.items) }
    ensures { IfOk result (λ _. Stands (settle (progress_of fault builder.old) (reverse levels.old.items)) fault builder.new (reverse levels.new.items)) }
{
    while let Some(level) = levels.pop() {
        if level.due > 0 {
            return levels
                .push(Level {
                    is_map: level.is_map,
                    due: level.due - 1,
                })
                .map_err(|_| AllocError);
        }
        close(builder, fault)?;
    }
    Ok(())
}

/// Behind the head of a node: goes into its parts, or closes it.
fn enter(
    builder: &mut DocBuilder<'_>,
    fault: Option<WireError>,
    levels: &mut Vec<Level>,
    is_map: bool,
    parts: usize,
) -> Result<(), AllocError>
    requires { fault ≡ None → HasOpened builder.old is_map parts (reverse levels.old.items) }
    ensures { IfOk result (λ _. Stands (enter is_map parts (progress_of fault builder.old) (reverse levels.old.items)) fault builder.new (reverse levels.new.items)) }
{
    if parts > 0 {
        return levels
            .push(Level {
                is_map,
                due: parts - 1,
            })
            .map_err(|_| AllocError);
    }
    close(builder, fault)?;
    settle_levels(builder, fault, levels)
}

/// Behind the head of a node: what is open then.
fn step(
    builder: &mut DocBuilder<'_>,
    fault: Option<WireError>,
    levels: &mut Vec<Level>,
    head: Head<'_>,
) -> Result<(), AllocError>
    requires { fault ≡ None → CanFollow builder.old (head_of head) (reverse levels.old.items) }
    ensures { IfOk result (λ _. Stands (follow (head_of head.entry) (progress_of fault builder.old) (reverse levels.old.items)) fault builder.new (reverse levels.new.items)) }
{
    match head {
        Head::List(parts) => enter(builder, fault, levels, false, parts),
        Head::Map(parts) => enter(builder, fault, levels, true, parts),
        _ => settle_levels(builder, fault, levels),
    }
}

/// The document of the tree that the bytes spell behind the mark of that version, of so many bytes.
pub(crate) fn read_by<'de>(
    alloc: Global,
    version: Version,
    bytes: &'de [u8],
    body: &'de [u8],
) -> Result<Doc<'de>, WireError>
    requires { bytes.now ≡ mark version ++ body.now }
    ensures found { IsFound result (judged version (tree_of version body.entry.now)) }
    ensures side { IfOk result (λ d. d.side_len ≡ 0) }
{
    let mut rest = body;
    let mut levels = Vec::new(alloc);
    let mut fault = None;
    let mut builder = DocBuilder::new(alloc, bytes);
    if builder.reserve(bytes.len() / USUAL).is_err() {
        return Err(WireError::Memory);
    }
    loop {
        let Some((head, behind)) = read_head(version, rest) else {
            return Err(WireError::Syntax);
        };
        let at = bytes.len() - rest.len();
        let end = bytes.len() - behind.len();
        let Ok(first) = keep(&mut builder, fault, at, end, levels.len(), head) else {
            return Err(WireError::Memory);
        };
        fault = first;
        rest = behind;
        if step(&mut builder, fault, &mut levels, head).is_err() {
            return Err(WireError::Memory);
        }
        if levels.is_empty() {
            break;
        }
    }
    if !rest.is_empty() {
        return Err(WireError::Syntax);
    }
    if let Some(fault) = fault {
        return Err(fault);
    }
    let Ok(document) = builder.finish().shared(alloc) else {
        return Err(WireError::Memory);
    };
    Ok(document)
}

/// The bytes behind the mark of version 2, if they begin with it.
fn behind_mark(bytes: &[u8]) -> Option<&[u8]>
    ensures { IsBehindMark bytes.now (option_map (λ b. b.now) result) }
{
    let (first, body) = bytes.split_first()?;
    if *first == 0xc2 { Some(body) } else { None }
}

/// The document of the tree that the bytes spell in either version, of which the first byte tells.
pub(crate) fn read_either<'de>(alloc: Global, bytes: &'de [u8]) -> Result<Doc<'de>, WireError>
    ensures found { IsFound result (spelled bytes.entry.now) }
    ensures side { IfOk result (λ d. d.side_len ≡ 0) }
{
    match behind_mark(bytes) {
        Some(body) => read_by(alloc, Version::Two, bytes, body),
        None => read_by(alloc, Version::One, bytes, bytes),
    }
}

use crate::fail::SerFail;
use crate::node::Node;
use crate::whole::Whole;

/// What is built node by node: a list or map is opened, its parts are put in, a map's keys and values
/// by turns, and it is closed.
///
/// It names what becomes of it where a whole tree is put in, where a list or map is opened, and where
/// the innermost is closed. By its laws, to open a list, put its parts in and close it is to put the
/// list in, unless it is too deep; and so it is with a map. So what is too deep is told where a list or map
/// closes, after its parts.
///
/// After a refusal or want of memory nothing is said of what is built. A whole node is put in by `write_node`.
pub trait Builds {
    ghost use Rattle.std.specs.Prelude.{Bool, true, false, Result, Ok, Err};
    ghost use Rattle.std.specs.Fmt.{signed_decimal};
    ghost use Rattle.sw_tree.specs.Tree as tree;
    ghost use Rattle.sw_tree.specs.Tree.{Tree};
    ghost use Rattle.sw_tree.specs.declared.fail.SerError.{SerError};
    ghost use Rattle.sw_tree.specs.Building.{IsBuilt, IsTaken, BuildsLists, BuildsMaps};

    /// With that tree put in.
    ghost put: { Tree → Self → Self };

    /// With a map opened, or a list.
    ghost opened: { Bool → Self → Self };

    /// With the innermost closed, or why it isn't.
    ghost closed: { Self → Result Self SerError };

    fn null(&mut self) -> Result<(), SerFail>
        ensures { IsBuilt result (Ok (put tree.null self.old)) self.new };

    fn bool(&mut self, value: bool) -> Result<(), SerFail>
        ensures { IsBuilt result (Ok (put (tree.truth value) self.old)) self.new };

    fn int(&mut self, value: Whole) -> Result<(), SerFail>
        ensures { IsBuilt result (Ok (put (tree.int value) self.old)) self.new };

    /// Puts in the text of the number in decimal digits.
    fn int_text(&mut self, value: Whole) -> Result<(), SerFail>
        ensures { IsBuilt result (Ok (put (tree.text (signed_decimal value)) self.old)) self.new };

    fn text(&mut self, value: &str) -> Result<(), SerFail>
        ensures { IsBuilt result (Ok (put (tree.text value.now) self.old)) self.new };

    fn bytes(&mut self, value: &[u8]) -> Result<(), SerFail>
        ensures { IsBuilt result (Ok (put (tree.bytes value.now) self.old)) self.new };

    /// Takes the node whole, if that is cheaper here than part by part: `true` where its tree is put in, `false` where
    /// nothing is.
    fn whole(&mut self, value: &Node) -> Result<bool, SerFail>
        ensures { IsTaken result (put value.now self.old) self.old self.new };

    /// Opens a list. That it will have so many items is advice.
    fn open_list(&mut self, items: usize) -> Result<(), SerFail>
        ensures { IsBuilt result (Ok (opened false self.old)) self.new };

    /// Opens a map. That it will have so many entries is advice.
    fn open_map(&mut self, entries: usize) -> Result<(), SerFail>
        ensures { IsBuilt result (Ok (opened true self.old)) self.new };

    /// Closes the innermost list or map. `TooDeep` exactly where a part of it has 128 levels.
    fn close(&mut self) -> Result<(), SerFail>
        ensures { IsBuilt result (closed self.old) self.new };

    ghost lists: { BuildsLists put opened closed };

    ghost maps: { BuildsMaps put opened closed };
}

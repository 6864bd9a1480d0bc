use crate::serialize::{Deserialize, Serialize};
use sw_check::facts::Facts;

/// A type that writes and reads itself by the laws.
///
/// It names its facts: the modes in which what is written reads back, the kinds that are written and
/// read, and its grade. In each mode that it claims what it writes has an image, which reads back. It
/// passes nothing over.
pub trait Element: Serialize + Deserialize {
    ghost use Rattle.std.specs.Prelude.{◌≡◌, []};
    ghost use Rattle.sw_tree.specs.Tree.{Tree};
    ghost use Rattle.sw_tree.specs.declared.mode.Mode.{Mode};
    ghost use Rattle.sw_check.specs.declared.facts.Facts.{Facts};
    ghost use Rattle.sw_elem.specs.Lawful.{LawfulLeaf, same_norm};

    ghost known: { Facts };

    /// Its facts.
    fn facts() -> Facts
        ensures { result ≡ known };

    ghost keeps: { LawfulLeaf Self.is_meaning Self.writes Self.reads Self.spot known same_norm (Unit {0}) };

    ghost passes_nothing: { (m : Mode) (t : Tree) → Self.skips m t ≡ [] };
}

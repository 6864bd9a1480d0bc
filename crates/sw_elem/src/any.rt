ghost use Rattle.std.specs.Prelude.{◌≡◌, true};
ghost use Rattle.sw_tree.specs.Proper.{IsNodeTree};
ghost use Rattle.sw_tree.specs.Laws.Proper.{IsNodeTree-prop};
ghost use Rattle.sw_tree.specs.Foreign as foreign;

use crate::element::Element;
use crate::facts;
use crate::serialize::{Deserialize, Serialize};
use std::alloc::Global;
use sw_check::facts::Facts;
use sw_tree::builds::Builds;
use sw_tree::fail::{DeFail, SerFail};
use sw_tree::foreign::foreign_in;
use sw_tree::meant::{Meant, Named};
use sw_tree::mode::Mode;
use sw_tree::node::Node;
use sw_tree::skipped::Skipped;
use sw_tree::view::View;
use sw_tree::write::write_node;

/// A tree whose keys are all texts and that has no byte string: whatever a JSON text may say.
#[derive(Drop)]
pub struct Any {
    node: Node,
    ghost held: { foreign.is_plain node ≡ true },
    ghost bounded: { IsNodeTree node } by { IsNodeTree-prop node },
}

impl Any {
    ghost use Rattle.std.specs.Prelude.{false, MatchResult};

    /// That tree. It takes no memory, and gives back exactly the trees that have a byte string or a
    /// key that is no text.
    pub fn new(node: Node) -> Result<Any, Node>
        ensures { MatchResult
            result
            (λ a. (a.node ≡ node) × (foreign.is_plain node ≡ true))
            (λ n. (n ≡ node) × (foreign.is_plain node ≡ false)) }
    {
        let _kind = node.kind();
        if node.is_plain() {
            Ok(Any { node })
        } else {
            Err(node)
        }
    }

    /// Its tree.
    pub fn node(&self) -> &Node
        ensures { result.now ≡ self.now.node }
    {
        &self.node
    }
}

impl Named for Any {
    ghost use Rattle.sw_tree.specs.Meaning.{tree};
    ghost use Rattle.sw_elem.specs.Foreign.{IsAny};

    ghost meaning = { λ a. tree a.node };

    ghost is_meaning = { IsAny };
}

impl Meant for Any {
    fn in_hand(&self) {
        let _kind = self.node.kind();
    }
}

impl Serialize for Any {
    ghost use Rattle.sw_elem.specs.Foreign.{any_writes};

    ghost writes = { any_writes };

    fn write<B: Builds>(&self, _alloc: Global, out: &mut B, _mode: Mode) -> Result<(), SerFail> {
        write_node(out, &self.node)
    }
}

/// The tree, copied. The first node in reading order, a key before its value, that is a byte string
/// or a key that is no text is refused as `InvalidType` of its kind.
impl Deserialize for Any {
    ghost use Rattle.std.specs.Prelude.{false};
    ghost use Rattle.sw_elem.specs.Equations.{no_skips};
    ghost use Rattle.sw_elem.specs.Foreign.{any_reads, any_spot};
    ghost use Rattle.sw_elem.specs.Laws.Foreign.{any_lawful};

    const FREE: bool = false;

    ghost FREE = { false };

    ghost reads = { any_reads };

    ghost spot = { any_spot };

    ghost skips = { no_skips };

    #[tactic(auto, using(crate::proofs::Foreigns::any_answers))]
    fn deserialize(
        alloc: Global,
        view: View<'_>,
        _mode: Mode,
        _log: &mut Skipped,
    ) -> Result<Any, DeFail> {
        if let Some(refusal) = foreign_in(view) {
            return Err(DeFail::Refused(refusal));
        }
        match view.to_node(alloc) {
            Ok(node) => {
                let _kind = node.kind();
                Ok(Any { node })
            }
            Err(_) => Err(DeFail::Memory),
        }
    }

    ghost lawful_reading = { any_lawful };
}

impl Element for Any {
    ghost use Rattle.std.specs.Prelude.{refl};
    ghost use Rattle.sw_elem.specs.Facts.{any_facts};
    ghost use Rattle.sw_elem.specs.Laws.AnyLeaf.{any_keeps};

    ghost known = { any_facts };

    fn facts() -> Facts {
        facts::any_facts()
    }

    ghost keeps = { any_keeps };

    ghost passes_nothing = { λ _ _. refl };
}

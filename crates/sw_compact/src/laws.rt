//! What holds of the texts of the compact wire among each other.

ghost use Rattle.std.specs.Prelude.{◌≡◌, ◌↔◌, ◌++◌, ℕ, List, [], Ok, Err};
ghost use Rattle.sw_tree.specs.Proper.{IsProper};
ghost use Rattle.sw_tree.specs.Short.{IsShort};
ghost use Rattle.sw_tree.specs.Tree.{Tree};
ghost use Rattle.sw_tree.specs.Wires.{SpellsTree, IsCause};
ghost use Rattle.sw_tree.specs.declared.fail.WireError.{WireError};
ghost use Rattle.sw_compact.specs.Spelling.{text_by};
ghost use Rattle.sw_compact.specs.Spelled.{spells, spells1, spelled, spelled1};
ghost use Rattle.sw_compact.specs.Texts.{IsText};
ghost use Rattle.sw_compact.specs.declared.version.Version.{Version};
ghost use Rattle.sw_compact.specs.declared.version.Version.TheVariants.{One, Two};

/// Does nothing. Its contract: what bytes are read as is what the grammar says: a tree exactly where they are a text of
/// it, and otherwise an error exactly where it is the cause.
pub fn spelled_is_the_grammar()
    ensures tree { (bytes : List ℕ) (t : Tree) → (spelled bytes ≡ Ok t) ↔ SpellsTree spells bytes t }
    ensures none { (bytes : List ℕ) (e : WireError) → (spelled bytes ≡ Err e) ↔ IsCause spells bytes e }
    ensures tree1 { (bytes : List ℕ) (t : Tree) → (spelled1 bytes ≡ Ok t) ↔ SpellsTree spells1 bytes t }
    ensures none1 { (bytes : List ℕ) (e : WireError) → (spelled1 bytes ≡ Err e) ↔ IsCause spells1 bytes e }
{}

/// Does nothing. Its contract: in each version two proper short trees with the same text are the same tree.
#[tactic(auto, using(crate::specs::Laws::Prefix::one_tree))]
pub fn texts_tell_apart()
    ensures { (v : Version) (t u : Tree) → IsProper t → IsShort t → IsProper u → IsShort u → text_by v t ≡ text_by v u → t ≡ u }
{}

/// Does nothing. Its contract: no text of version 1 is one of version 2.
#[tactic(auto, using(crate::specs::Laws::Prefix::no_text_of_both))]
pub fn versions_tell_apart()
    ensures { (t u : Tree) → text_by One t ≡ text_by Two u → ⊥ }
{}

/// Does nothing. Its contract: a text of either version, cut short, is a text of neither.
pub fn texts_end()
    ensures { (front rest : List ℕ) → IsText front → IsText (front ++ rest) → rest ≡ [] }
{}

#[cfg(test)]
mod tests {
    use super::*;

    #[test]
    fn laws_are_called(_rt: HostRuntime) {
        spelled_is_the_grammar();
        texts_tell_apart();
        versions_tell_apart();
        texts_end();
    }
}

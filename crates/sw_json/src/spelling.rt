//! What bytes spell, as laws: each is the contract of a function that does nothing.

ghost use Rattle.std.specs.Prelude.{◌≡◌, ◌≤◌, ◌↔◌, ◌++◌, ℕ, List, [], Some, None, Ok, Err};
ghost use Rattle.std.specs.Str.{IsUtf8};
ghost use Rattle.sw_tree.specs.Tree.{Tree, depth};
ghost use Rattle.sw_tree.specs.Number.{key_number, whole_of};
ghost use Rattle.sw_tree.specs.Proper.{IsProper};
ghost use Rattle.sw_tree.specs.Image.{image};
ghost use Rattle.sw_tree.specs.Wires.{SpellsTree, IsCause};
ghost use Rattle.sw_tree.specs.declared.mode.WireKind.TheVariants.{Json};
ghost use Rattle.sw_tree.specs.declared.mode.Place.TheVariants.{Value};
ghost use Rattle.sw_tree.specs.declared.fail.WireError.{WireError};
ghost use Rattle.sw_json.specs.Raw.{Raw};
ghost use Rattle.sw_json.specs.Grammar.{Spells, IsNumber};
ghost use Rattle.sw_json.specs.Spelled.{spells, spelled};
ghost use Rattle.sw_json.specs.Text.{text_of, json_text};
ghost use Rattle.sw_json.specs.Images.{IsImage, HasOtherKey};

/// Given bytes spell at most one raw tree at an offset.
pub fn at_most_one_tree()
    ensures { (off : ℕ) (bytes : List ℕ) (r s : Raw) → Spells off bytes r → Spells off bytes s → r ≡ s }
{}

/// What `spelled` computes is what the grammar says: a tree exactly where the bytes spell
/// it, and otherwise an error exactly where it is the cause: `Syntax` where the bytes spell
/// no raw tree, and a fault where it is the first of the one that they spell.
pub fn spelled_is_the_grammar()
    ensures tree { (bytes : List ℕ) (t : Tree) → (spelled bytes ≡ Ok t) ↔ SpellsTree spells bytes t }
    ensures none { (bytes : List ℕ) (e : WireError) → (spelled bytes ≡ Err e) ↔ IsCause spells bytes e }
{}

/// The compact text of a tree spells that tree, and so no other, where it has at most 128
/// levels, its numbers are from -2^127 to 2^128 - 1, its texts and keys are UTF-8, and no
/// byte string is in it.
pub fn printed_text_spells_the_tree()
    ensures { (t : Tree) → IsImage t → depth t ≤ 128 → spelled (text_of t []) ≡ Ok t }
{}

/// The image in JSON of a proper tree is such a tree, and has no more levels; so what a
/// proper tree of at most 128 levels prints as spells its image.
pub fn printed_text_spells_the_image()
    ensures imaged { (t i : Tree) → IsProper t → image Json Value t ≡ Some i → IsImage i × (depth i ≤ depth t) }
    ensures spells { (t : Tree) (s : List ℕ) → IsProper t → depth t ≤ 128 → json_text t ≡ Some s → (i : Tree) × (image Json Value t ≡ Some i) × (spelled s ≡ Ok i) }
{}

/// The compact text of an image is UTF-8, and so what a proper tree prints as is.
pub fn printed_text_is_utf8()
    ensures image { (t : Tree) → IsImage t → IsUtf8 (text_of t []) }
    ensures printed { (t i : Tree) → IsProper t → image Json Value t ≡ Some i → IsUtf8 (text_of i []) }
{}

/// The value of a number is that of its digits where it has neither a fraction nor an
/// exponent, and otherwise it has none: so `NotWhole` comes at a number that has one of
/// these, is minus zero, or isn't from -2^127 to 2^128 - 1.
pub fn value_is_that_of_the_digits()
    ensures digits { (s : List ℕ) (n : IsNumber s) → n.fraction ++ n.exponent ≡ [] → key_number s ≡ whole_of s }
    ensures none { (s : List ℕ) (n : IsNumber s) → (n.fraction ++ n.exponent ≡ [] → ⊥) → key_number s ≡ None }
{}

/// A tree isn't printed exactly where some key is null, a byte string, a list or a map.
pub fn refused_keys_are_those_of_other_kinds()
    ensures { (t : Tree) → (json_text t ≡ None) ↔ HasOtherKey t }
{}

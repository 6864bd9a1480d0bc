ghost use Rattle.std.specs.Prelude.{◌≡◌, ◌||◌, true, false, IsTrue, IsFalse};
ghost use Rattle.sw_tree.specs.KindsWithin.{within, implied as implied_by};

use crate::mode::Kind;

/// A set of kinds.
#[derive(Clone, Copy, PartialEq, Eq)]
pub struct Kinds {
    null: bool,
    truth: bool,
    int: bool,
    text: bool,
    bytes: bool,
    list: bool,
    map: bool,
}

impl Kinds {
    ghost use Rattle.sw_tree.specs.Kinds.{has, is_kind};
    ghost use Rattle.sw_tree.specs.declared.mode.Kind.{Kind};

    /// No kind.
    pub fn none() -> Kinds
        ensures { (k : Kind) → has result k ≡ false }
    {
        Kinds {
            null: false,
            truth: false,
            int: false,
            text: false,
            bytes: false,
            list: false,
            map: false,
        }
    }

    /// Every kind.
    pub fn all() -> Kinds
        ensures { (k : Kind) → has result k ≡ true }
    {
        Kinds {
            null: true,
            truth: true,
            int: true,
            text: true,
            bytes: true,
            list: true,
            map: true,
        }
    }

    /// That kind alone.
    pub fn one(kind: Kind) -> Kinds
        ensures { (k : Kind) → has result k ≡ is_kind kind k }
    {
        Kinds::none().with(kind)
    }

    /// The set with that kind.
    pub fn with(self, kind: Kind) -> Kinds
        ensures { (k : Kind) → has result k ≡ (has self k || is_kind kind k) }
    {
        let mut kinds = self;
        match kind {
            Kind::Null => kinds.null = true,
            Kind::Bool => kinds.truth = true,
            Kind::Int => kinds.int = true,
            Kind::Text => kinds.text = true,
            Kind::Bytes => kinds.bytes = true,
            Kind::List => kinds.list = true,
            Kind::Map => kinds.map = true,
        }
        kinds
    }

    /// The kinds of either set.
    pub fn union(self, other: Kinds) -> Kinds
        ensures { (k : Kind) → has result k ≡ (has self k || has other k) }
    {
        Kinds {
            null: self.null || other.null,
            truth: self.truth || other.truth,
            int: self.int || other.int,
            text: self.text || other.text,
            bytes: self.bytes || other.bytes,
            list: self.list || other.list,
            map: self.map || other.map,
        }
    }

    /// Whether the kind is in the set.
    pub fn has(self, kind: Kind) -> bool
        ensures { result ≡ has self kind }
    {
        match kind {
            Kind::Null => self.null,
            Kind::Bool => self.truth,
            Kind::Int => self.int,
            Kind::Text => self.text,
            Kind::Bytes => self.bytes,
            Kind::List => self.list,
            Kind::Map => self.map,
        }
    }

    /// Whether all its kinds are in the other set.
    #[tactic(auto, using(crate::proofs::KindsLemmas::kinds))]
    pub fn within(self, other: Kinds) -> bool
        ensures yes { IsTrue result → (k : Kind) → has self k ≡ true → has other k ≡ true }
        ensures no { IsFalse result → (k : Kind) × (has self k ≡ true) × (has other k ≡ false) }
    {
        is_within(self, other)
    }
}

/// Whether all kinds of the first set are in the second.
fn is_within(kinds: Kinds, other: Kinds) -> bool
    ensures { result ≡ within kinds other }
{
    implied(kinds.null, other.null)
        && implied(kinds.truth, other.truth)
        && implied(kinds.int, other.int)
        && implied(kinds.text, other.text)
        && implied(kinds.bytes, other.bytes)
        && implied(kinds.list, other.list)
        && implied(kinds.map, other.map)
}

fn implied(first: bool, second: bool) -> bool
    ensures { result ≡ implied_by first second }
{
    !first || second
}

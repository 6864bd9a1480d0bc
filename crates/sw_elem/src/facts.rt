//! What is known of the types that stand at the leaves: sets of kinds, claims, and facts over them.

ghost use Rattle.std.specs.Prelude.{◌≡◌};
ghost use Rattle.sw_elem.specs.Facts as facts;

use sw_check::facts::{Claims, Facts};
use sw_check::grade::Grade;
use sw_tree::kinds::Kinds;
use sw_tree::mode::Kind;

/// Of whole numbers: written as numbers, and read from them; as a key of JSON that isn't buffered also
/// from a text. As a buffered key of JSON they don't read back.
pub fn number_facts() -> Facts
    ensures { result ≡ facts.number_facts }
{
    keyed(Kind::Int, Grade::Exact)
}

/// Of truth values: as of numbers.
pub fn truth_facts() -> Facts
    ensures { result ≡ facts.truth_facts }
{
    keyed(Kind::Bool, Grade::Exact)
}

/// Of texts, and of what is written as its text: written as texts, and read from them, in every mode.
pub fn text_facts() -> Facts
    ensures { result ≡ facts.text_facts }
{
    everywhere(only(Kind::Text), stands(true, true))
}

/// Of nothing: the null, which is no key of JSON.
pub fn nothing_facts() -> Facts
    ensures { result ≡ facts.nothing_facts }
{
    everywhere(only(Kind::Null), stands(false, false))
}

/// Of trees without byte strings: every other kind, so that they are no keys of JSON.
pub fn any_facts() -> Facts
    ensures { result ≡ facts.any_facts }
{
    everywhere(all_but_bytes(), stands(false, false))
}

/// That kind alone.
#[tactic(auto, using(crate::proofs::KindSets::only_from))]
pub fn only(kind: Kind) -> Kinds
    ensures { result ≡ facts.only kind }
{
    Kinds::one(kind)
}

/// One kind and another.
pub fn either(first: Kind, second: Kind) -> Kinds
    ensures { result ≡ facts.either first second }
{
    with(only(first), second)
}

/// Those kinds, and that one.
pub fn with(kinds: Kinds, kind: Kind) -> Kinds
    ensures { result ≡ facts.with_kind kinds kind }
{
    kinds.with(kind)
}

fn all_but_bytes() -> Kinds
    ensures { result ≡ facts.all_but_bytes }
{
    let leaves = with(with(either(Kind::Null, Kind::Bool), Kind::Int), Kind::Text);
    with(with(leaves, Kind::List), Kind::Map)
}

/// As values and on the compact wire; as keys of JSON, and as buffered keys, where it is said.
pub fn stands(key: bool, buffered_key: bool) -> Claims
    ensures { result ≡ facts.stands key buffered_key }
{
    Claims {
        value: true,
        buffered_value: true,
        key,
        buffered_key,
        compact: true,
    }
}

/// Those kinds written, and those read, in every mode.
pub fn told(written: Kinds, read: Kinds, claims: Claims, grade: Grade) -> Facts
    ensures { result ≡ facts.told written read claims grade }
{
    Facts {
        claims,
        written,
        read_value: read,
        read_key: read,
        read_buffered_key: read,
        grade,
    }
}

/// Those kinds, written and read in every mode.
pub fn everywhere(kinds: Kinds, claims: Claims) -> Facts
    ensures { result ≡ facts.everywhere kinds claims }
{
    told(kinds, kinds, claims, Grade::Exact)
}

/// That kind, for which a text may stand as a key of JSON that isn't buffered; as a buffered key it doesn't stand.
pub fn keyed(kind: Kind, grade: Grade) -> Facts
    ensures { result ≡ facts.keyed kind grade }
{
    let kinds = only(kind);
    Facts {
        claims: stands(true, false),
        written: kinds,
        read_value: kinds,
        read_key: either(kind, Kind::Text),
        read_buffered_key: kinds,
        grade,
    }
}

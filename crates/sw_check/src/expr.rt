ghost use Rattle.std.specs.Prelude.{◌≡◌, ◌≤◌, length, IfOk};
ghost use Rattle.sw_check.specs.Form.{leaf, vec, map, map_set, one_or_many, one_or_many_set, option, set, key_map, pairs, tuple, fields, tagged, separated, empty_none, skip, map_skip, default, default_null, by_wire, conv, json_text, forms, choice};

use crate::class::TextClass;
use crate::exprs::ExprList;
use crate::facts::Facts;
use crate::grade::Grade;
use std::alloc::{AllocError, Global};
use std::marker::Model;

/// The expression of an adapter: which form it has, and the expressions of its parts.
///
/// It may be as deep as its user builds it. Letting it go and checking it take stack for each level.
#[cycle(expr)]
#[derive(Drop)]
pub struct Expr {
    pub(crate) shape: Shape,
}

#[cycle(expr)]
#[derive(Drop)]
pub(crate) enum Shape {
    Leaf(Facts),
    Vec(Box<Expr>),
    Map(Box<Expr>, Box<Expr>),
    MapSet(Box<Expr>, Box<Expr>),
    PickFirst(Vec<Expr>),
    OneOrMany(Box<Expr>),
    OneOrManySet(Box<Expr>),
    Option(Box<Expr>),
    Set(Box<Expr>),
    KeyMap(Box<Expr>, Box<Expr>),
    Pairs(Box<Expr>, Box<Expr>),
    Tuple(Vec<Expr>),
    Fields(Vec<Expr>, bool, Grade),
    Tagged(Vec<Expr>, bool),
    Separated(TextClass, TextClass),
    EmptyNone(TextClass),
    Skip(Box<Expr>),
    MapSkip(Box<Expr>, Box<Expr>),
    Default(Box<Expr>),
    DefaultNull(Box<Expr>),
    ByWire(Box<Expr>, Box<Expr>),
    Conv(Facts, bool),
    JsonText(Box<Expr>),
}

impl Model for Expr {
    ghost use Rattle.std.specs.Prelude.{◌≤◌};
    ghost use Rattle.sw_check.specs.Form.{Form, levels};
    ghost use Rattle.sw_check.specs.Laws.FormCode.{coded_form};

    ghost Value = { Form };

    ghost coded = { coded_form };

    ghost use Rattle.sw_check.specs.Inner.Shape.{shape_form, fewest, count};

    ghost view = { λ a. shape_form a.shape };

    ghost invariant = { λ a. (fewest a.shape ≤ count a.shape) × (count a.shape ≤ 65535) };

    ghost size = { levels };

    ghost use Rattle.sw_check.specs.Laws.Shape.{deep_le-levels};

    ghost size_decreases = { λ a h. deep_le-levels a.shape };
}

impl Expr {
    /// A leaf, of which these facts are known.
    pub fn leaf(facts: Facts) -> Expr
        ensures { result ≡ leaf facts }
    {
        Expr {
            shape: Shape::Leaf(facts),
        }
    }

    /// A conversion into a proxy of which these facts are known; `returns` says that it gives back what
    /// it was given.
    pub fn conv(facts: Facts, returns: bool) -> Expr
        ensures { result ≡ conv facts returns }
    {
        Expr {
            shape: Shape::Conv(facts, returns),
        }
    }

    /// `StringWithSeparator`: texts of a class, joined by a separator, whose class has exactly its bytes.
    pub fn separated(class: TextClass, separator: TextClass) -> Expr
        ensures { result ≡ separated class separator }
    {
        Expr {
            shape: Shape::Separated(class, separator),
        }
    }

    /// `NoneAsEmptyString`: texts of a class, and the empty one.
    pub fn empty_none(class: TextClass) -> Expr
        ensures { result ≡ empty_none class }
    {
        Expr {
            shape: Shape::EmptyNone(class),
        }
    }

    /// `PickFirst` of these options, one to four.
    pub fn pick_first(parts: ExprList) -> Expr
        requires some { 1 ≤ length parts }
        requires few { length parts ≤ 4 }
        ensures { result ≡ choice parts }
    {
        Expr {
            shape: Shape::PickFirst(parts.into_parts()),
        }
    }

    /// Tuples of these parts.
    pub fn tuple(parts: ExprList) -> Expr
        ensures { result ≡ tuple (forms parts) }
    {
        Expr {
            shape: Shape::Tuple(parts.into_parts()),
        }
    }

    /// Records with these fields: `listed` where a list is read too, with the record's own grade.
    pub fn fields(parts: ExprList, listed: bool, grade: Grade) -> Expr
        ensures { result ≡ fields (forms parts) listed grade }
    {
        Expr {
            shape: Shape::Fields(parts.into_parts(), listed, grade),
        }
    }

    /// Tagged values with these variants: `unit` where a text stands for one more.
    pub fn tagged(parts: ExprList, unit: bool) -> Expr
        ensures { result ≡ tagged (forms parts) unit }
    {
        Expr {
            shape: Shape::Tagged(parts.into_parts(), unit),
        }
    }

    /// Lists and arrays: the part is that of the items.
    pub fn vec(alloc: Global, part: Expr) -> Result<Expr, AllocError>
        ensures { IfOk result (λ e. e ≡ vec part) }
    {
        Ok(Expr {
            shape: Shape::Vec(Box::new(alloc, part)?),
        })
    }

    /// `OneOrMany` over lists.
    pub fn one_or_many(alloc: Global, part: Expr) -> Result<Expr, AllocError>
        ensures { IfOk result (λ e. e ≡ one_or_many part) }
    {
        Ok(Expr {
            shape: Shape::OneOrMany(Box::new(alloc, part)?),
        })
    }

    /// `OneOrMany` over sets.
    pub fn one_or_many_set(alloc: Global, part: Expr) -> Result<Expr, AllocError>
        ensures { IfOk result (λ e. e ≡ one_or_many_set part) }
    {
        Ok(Expr {
            shape: Shape::OneOrManySet(Box::new(alloc, part)?),
        })
    }

    /// `Option`: the part stands for all that isn't null.
    pub fn option(alloc: Global, part: Expr) -> Result<Expr, AllocError>
        ensures { IfOk result (λ e. e ≡ option part) }
    {
        Ok(Expr {
            shape: Shape::Option(Box::new(alloc, part)?),
        })
    }

    /// Sets: the part is that of the items.
    pub fn set(alloc: Global, part: Expr) -> Result<Expr, AllocError>
        ensures { IfOk result (λ e. e ≡ set part) }
    {
        Ok(Expr {
            shape: Shape::Set(Box::new(alloc, part)?),
        })
    }

    /// `VecSkipError`.
    pub fn skip(alloc: Global, part: Expr) -> Result<Expr, AllocError>
        ensures { IfOk result (λ e. e ≡ skip part) }
    {
        Ok(Expr {
            shape: Shape::Skip(Box::new(alloc, part)?),
        })
    }

    /// `DefaultOnError`.
    pub fn default(alloc: Global, part: Expr) -> Result<Expr, AllocError>
        ensures { IfOk result (λ e. e ≡ default part) }
    {
        Ok(Expr {
            shape: Shape::Default(Box::new(alloc, part)?),
        })
    }

    /// `DefaultOnNull`.
    pub fn default_null(alloc: Global, part: Expr) -> Result<Expr, AllocError>
        ensures { IfOk result (λ e. e ≡ default_null part) }
    {
        Ok(Expr {
            shape: Shape::DefaultNull(Box::new(alloc, part)?),
        })
    }

    /// `JsonString`: the part is written into a text of JSON.
    pub fn json_text(alloc: Global, part: Expr) -> Result<Expr, AllocError>
        ensures { IfOk result (λ e. e ≡ json_text part) }
    {
        Ok(Expr {
            shape: Shape::JsonText(Box::new(alloc, part)?),
        })
    }

    /// `Map`, and lists of pairs as maps.
    pub fn map(alloc: Global, key: Expr, value: Expr) -> Result<Expr, AllocError>
        ensures { IfOk result (λ e. e ≡ map key value) }
    {
        let key = Box::new(alloc, key)?;
        let value = Box::new(alloc, value)?;
        Ok(Expr {
            shape: Shape::Map(key, value),
        })
    }

    /// `Map` over sets of pairs.
    pub fn map_set(alloc: Global, key: Expr, value: Expr) -> Result<Expr, AllocError>
        ensures { IfOk result (λ e. e ≡ map_set key value) }
    {
        let key = Box::new(alloc, key)?;
        let value = Box::new(alloc, value)?;
        Ok(Expr {
            shape: Shape::MapSet(key, value),
        })
    }

    /// Maps.
    pub fn key_map(alloc: Global, key: Expr, value: Expr) -> Result<Expr, AllocError>
        ensures { IfOk result (λ e. e ≡ key_map key value) }
    {
        let key = Box::new(alloc, key)?;
        let value = Box::new(alloc, value)?;
        Ok(Expr {
            shape: Shape::KeyMap(key, value),
        })
    }

    /// Maps as lists of pairs.
    pub fn pairs(alloc: Global, key: Expr, value: Expr) -> Result<Expr, AllocError>
        ensures { IfOk result (λ e. e ≡ pairs key value) }
    {
        let key = Box::new(alloc, key)?;
        let value = Box::new(alloc, value)?;
        Ok(Expr {
            shape: Shape::Pairs(key, value),
        })
    }

    /// `MapSkipError`.
    pub fn map_skip(alloc: Global, key: Expr, value: Expr) -> Result<Expr, AllocError>
        ensures { IfOk result (λ e. e ≡ map_skip key value) }
    {
        let key = Box::new(alloc, key)?;
        let value = Box::new(alloc, value)?;
        Ok(Expr {
            shape: Shape::MapSkip(key, value),
        })
    }

    /// `IfIsHumanReadable`: the first part on JSON, the second on Compact.
    pub fn by_wire(alloc: Global, human: Expr, compact: Expr) -> Result<Expr, AllocError>
        ensures { IfOk result (λ e. e ≡ by_wire human compact) }
    {
        let human = Box::new(alloc, human)?;
        let compact = Box::new(alloc, compact)?;
        Ok(Expr {
            shape: Shape::ByWire(human, compact),
        })
    }
}

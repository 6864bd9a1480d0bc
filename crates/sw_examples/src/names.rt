//! The words for refusals, kinds, reasons, rules and grades.

use sw_check::grade::Grade;
use sw_check::rule::Rule;
use sw_tree::fail::{DeKind, SerError};
use sw_tree::mode::Kind;

pub(crate) fn error_name(error: DeKind) -> &'static str {
    match error {
        DeKind::InvalidType => "InvalidType",
        DeKind::InvalidValue => "InvalidValue",
        DeKind::InvalidLength => "InvalidLength",
        DeKind::MissingField => "MissingField",
        DeKind::UnknownField => "UnknownField",
        DeKind::UnknownVariant => "UnknownVariant",
        DeKind::DuplicateKey => "DuplicateKey",
        DeKind::DuplicateValue => "DuplicateValue",
        DeKind::DuplicateField => "DuplicateField",
        DeKind::NoVariant => "NoVariant",
        DeKind::Text => "Text",
        DeKind::Convert => "Convert",
    }
}

pub(crate) fn kind_name(kind: Kind) -> &'static str {
    match kind {
        Kind::Null => "Null",
        Kind::Bool => "Bool",
        Kind::Int => "Int",
        Kind::Text => "Text",
        Kind::Bytes => "Bytes",
        Kind::List => "List",
        Kind::Map => "Map",
    }
}

pub(crate) fn reason_name(reason: SerError) -> &'static str {
    match reason {
        SerError::TooDeep => "TooDeep",
        SerError::OutOfRange => "OutOfRange",
        SerError::Convert => "Convert",
        SerError::Key => "Key",
    }
}

pub(crate) fn rule_name(rule: Rule) -> &'static str {
    match rule {
        Rule::S1 => "S1",
        Rule::S2 => "S2",
        Rule::S3 => "S3",
        Rule::S4 => "S4",
        Rule::S5 => "S5",
        Rule::S6 => "S6",
        Rule::S7 => "S7",
        Rule::S8 => "S8",
    }
}

pub(crate) fn grade_name(grade: Grade) -> &'static str {
    match grade {
        Grade::Exact => "exact",
        Grade::Rounded => "rounded",
    }
}

ghost use Rattle.std.specs.Prelude.{◌≡◌};
ghost use Rattle.sw_tool.specs.Names.{kind_name, reason_name, rule_name, grade_name};

use sw_check::grade::Grade;
use sw_check::rule::Rule;
use sw_tree::fail::{DeKind, SerError};

/// The name of a refusal.
pub(crate) fn kind_name(kind: DeKind) -> &'static str
    ensures { result.now ≡ kind_name kind }
{
    match kind {
        DeKind::InvalidType => "InvalidType",
        DeKind::InvalidValue => "InvalidValue",
        DeKind::InvalidLength => "InvalidLength",
        DeKind::MissingField => "MissingField",
        DeKind::UnknownField => "UnknownField",
        DeKind::UnknownVariant => "UnknownVariant",
        DeKind::DuplicateKey => "DuplicateKey",
        DeKind::DuplicateValue => "DuplicateValue",
        DeKind::DuplicateField => "DuplicateField",
        DeKind::NoVariant => "NoVariant",
        DeKind::Text => "Text",
        DeKind::Convert => "Convert",
    }
}

/// The name of the reason why a value isn't written.
pub(crate) fn reason_name(reason: SerError) -> &'static str
    ensures { result.now ≡ reason_name reason }
{
    match reason {
        SerError::TooDeep => "TooDeep",
        SerError::OutOfRange => "OutOfRange",
        SerError::Convert => "Convert",
        SerError::Key => "Key",
    }
}

/// The name of a rule of the check.
pub(crate) fn rule_name(rule: Rule) -> &'static str
    ensures { result.now ≡ rule_name rule }
{
    match rule {
        Rule::S1 => "S1",
        Rule::S2 => "S2",
        Rule::S3 => "S3",
        Rule::S4 => "S4",
        Rule::S5 => "S5",
        Rule::S6 => "S6",
        Rule::S7 => "S7",
        Rule::S8 => "S8",
    }
}

/// The name of a grade.
pub(crate) fn grade_name(grade: Grade) -> &'static str
    ensures { result.now ≡ grade_name grade }
{
    match grade {
        Grade::Exact => "exact",
        Grade::Rounded => "rounded",
    }
}

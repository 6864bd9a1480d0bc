//! Formats and kinds of strictness: types without values that name how an adapter writes or reads.

/// A format that a value is written in.
pub trait Format {}

impl Format for u8 {}

impl Format for u16 {}

impl Format for u32 {}

impl Format for u64 {}

impl Format for u128 {}

impl Format for i8 {}

impl Format for i16 {}

impl Format for i32 {}

impl Format for i64 {}

impl Format for i128 {}

impl Format for bool {}

impl Format for String {}

/// Upper-case letters.
#[derive(PartialEq, Eq, PartialOrd, Ord, Hash)]
pub struct Uppercase;

impl Format for Uppercase {}

/// Lower-case letters.
#[derive(PartialEq, Eq, PartialOrd, Ord, Hash)]
pub struct Lowercase;

impl Format for Lowercase {}

/// A collection of one element as the element alone, any other as a list.
#[derive(PartialEq, Eq, PartialOrd, Ord, Hash)]
pub struct PreferOne;

impl Format for PreferOne {}

/// A collection always as a list.
#[derive(PartialEq, Eq, PartialOrd, Ord, Hash)]
pub struct PreferMany;

impl Format for PreferMany {}

/// With padding.
#[derive(PartialEq, Eq, PartialOrd, Ord, Hash)]
pub struct Padded;

impl Format for Padded {}

/// Without padding.
#[derive(PartialEq, Eq, PartialOrd, Ord, Hash)]
pub struct Unpadded;

impl Format for Unpadded {}

/// How lenient a reader is.
pub trait Strictness {}

/// Takes what is written alone.
#[derive(PartialEq, Eq, PartialOrd, Ord, Hash)]
pub struct Strict;

impl Strictness for Strict {}

/// Takes other forms of the same value too.
#[derive(PartialEq, Eq, PartialOrd, Ord, Hash)]
pub struct Flexible;

impl Strictness for Flexible {}

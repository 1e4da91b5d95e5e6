//! Kinds of tokens as a person reads them: in groups, and each by itself.

ghost use Rattle.std.specs.Prelude.{◌≤◌, length, IfOk};

use crate::kinds::written;
use ps_diagnostic::Expected;
use ps_scan::Kind;
use std::alloc::{AllocError, Global};

// How many are shown at most.
const MOST: usize = 8;

const TYPE: [Kind; 11] = [
    Kind::Name,
    Kind::Number,
    Kind::Text,
    Kind::Plus,
    Kind::Minus,
    Kind::LeftParen,
    Kind::Caret,
    Kind::Packed,
    Kind::Array,
    Kind::Record,
    Kind::Set,
];

const STATEMENT: [Kind; 8] = [
    Kind::Begin,
    Kind::Case,
    Kind::For,
    Kind::If,
    Kind::Repeat,
    Kind::While,
    Kind::With,
    Kind::Name,
];

const SIGNED_VALUE: [Kind; 9] = [
    Kind::Nil,
    Kind::Not,
    Kind::Name,
    Kind::Number,
    Kind::Text,
    Kind::Plus,
    Kind::Minus,
    Kind::LeftParen,
    Kind::LeftBracket,
];

const VALUE: [Kind; 7] = [
    Kind::Nil,
    Kind::Not,
    Kind::Name,
    Kind::Number,
    Kind::Text,
    Kind::LeftParen,
    Kind::LeftBracket,
];

const CONSTANT: [Kind; 5] = [
    Kind::Name,
    Kind::Number,
    Kind::Text,
    Kind::Plus,
    Kind::Minus,
];

const OPERATOR: [Kind; 14] = [
    Kind::Star,
    Kind::Div,
    Kind::Mod,
    Kind::And,
    Kind::Plus,
    Kind::Minus,
    Kind::Or,
    Kind::Equal,
    Kind::NotEqual,
    Kind::Less,
    Kind::Greater,
    Kind::LessEqual,
    Kind::GreaterEqual,
    Kind::In,
];

const COMPUTING: [Kind; 7] = [
    Kind::Star,
    Kind::Div,
    Kind::Mod,
    Kind::And,
    Kind::Plus,
    Kind::Minus,
    Kind::Or,
];

// Whether all of these kinds are present.
fn has_all(kinds: &[Kind], all: &[Kind]) -> bool {
    for kind in all.iter() {
        if !kinds.contains(kind) {
            return false;
        }
    }
    true
}

// Removes the kinds of a group and adds the group, if all of them are present.
fn take_group(
    told: &mut Vec<Expected>,
    kinds: &mut Vec<Kind>,
    all: &[Kind],
    name: &'static str,
) -> Result<(), AllocError> {
    if has_all(kinds.as_slice(), all) {
        kinds.retain(|kind| !all.contains(kind));
        told.push(Expected::Group(name))?;
    }
    Ok(())
}

// Adds the groups that are present, and removes their kinds.
fn take_groups(told: &mut Vec<Expected>, kinds: &mut Vec<Kind>) -> Result<(), AllocError> {
    take_group(told, kinds, &TYPE, "a type")?;
    take_group(told, kinds, &STATEMENT, "a statement")?;
    take_group(told, kinds, &SIGNED_VALUE, "a value")?;
    take_group(told, kinds, &VALUE, "a value")?;
    take_group(told, kinds, &CONSTANT, "a constant")?;
    take_group(told, kinds, &OPERATOR, "an operator")?;
    take_group(
        told,
        kinds,
        &COMPUTING,
        "an operator other than a comparison",
    )?;
    take_group(told, kinds, &[Kind::Name], "a name")?;
    take_group(told, kinds, &[Kind::Number], "a number")?;
    take_group(told, kinds, &[Kind::Text], "a string")
}

/// The kinds as they are shown: groups whose kinds are all present, then words in alphabetical order, then signs; at
/// most eight. (The kinds come in the order of `Kind`, in which words are in that order.)
pub fn grouped(alloc: Global, mut kinds: Vec<Kind>) -> Result<Vec<Expected>, AllocError>
    ensures { IfOk result (λ told. length told.items ≤ MOST) }
{
    let mut told = Vec::new(alloc);
    take_groups(&mut told, &mut kinds)?;
    for kind in kinds.iter() {
        if let Some(text) = written(*kind) {
            told.push(Expected::Token(text))?;
        }
    }
    told.truncate(MOST);
    Ok(told)
}

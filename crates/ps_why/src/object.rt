//! An account as a JSON object, for programs.

use crate::account::{Account, Ending};
use ps_map::Place;
use ps_scene::{Activation, Value};
use serde::Serialize;
use serde_json::Error;
use std::alloc::{AllocError, Global};

// A place in the text: line and column from 1.
#[derive(Clone, Copy, Serialize)]
struct PlaceObject {
    line: u32,
    column: u32,
}

#[derive(Clone, Copy, Serialize)]
struct LoopObject {
    word: &'static str,
    line: u32,
    column: u32,
}

#[derive(Drop, Serialize)]
struct VariableObject<'a> {
    name: &'a str,
    #[serde(rename = "type")]
    denoter: &'a str,
    value: &'a str,
}

#[derive(Drop, Serialize)]
struct CallObject<'a> {
    routine: &'a str,
    #[serde(skip_serializing_if = "Option::is_none")]
    at: Option<PlaceObject>,
    #[serde(skip_serializing_if = "Option::is_none")]
    called: Option<PlaceObject>,
    variables: Vec<VariableObject<'a>>,
}

// Where an account is reported, each part separately.
#[derive(Clone, Copy, Serialize)]
struct ToldObject {
    #[serde(skip_serializing_if = "Option::is_none")]
    from: Option<u32>,
    #[serde(skip_serializing_if = "Option::is_none")]
    to: Option<u32>,
    #[serde(skip_serializing_if = "Option::is_none")]
    line: Option<u32>,
    #[serde(skip_serializing_if = "Option::is_none")]
    column: Option<u32>,
}

// A value that was found, and its bounds, each separately.
#[derive(Clone, Copy, Serialize)]
struct FoundObject {
    #[serde(skip_serializing_if = "Option::is_none")]
    value: Option<i64>,
    #[serde(skip_serializing_if = "Option::is_none")]
    low: Option<i64>,
    #[serde(skip_serializing_if = "Option::is_none")]
    high: Option<i64>,
}

#[derive(Drop, Serialize)]
struct AccountObject<'a> {
    file: &'a str,
    ending: &'a str,
    #[serde(skip_serializing_if = "Option::is_none")]
    number: Option<u32>,
    text: &'a str,
    #[serde(flatten)]
    told: ToldObject,
    #[serde(flatten)]
    found: FoundObject,
    #[serde(rename = "loop", skip_serializing_if = "Option::is_none")]
    round: Option<LoopObject>,
    open: u64,
    calls: Vec<CallObject<'a>>,
    objects: Vec<&'a str>,
    notes: Vec<&'a str>,
}

// The word for an ending.
fn word_of(ending: Ending) -> &'static str {
    match ending {
        Ending::Normal => "normal",
        Ending::Error => "error",
        Ending::Stack => "stack",
        Ending::Heap => "heap",
        Ending::Steps => "steps",
        Ending::Input => "input",
        Ending::Output => "output",
        Ending::Fault => "fault",
    }
}

fn place_object(place: Option<Place>) -> Option<PlaceObject> {
    match place {
        Some(Place { line, column }) => Some(PlaceObject { line, column }),
        None => None,
    }
}

fn found_object(account: &Account) -> FoundObject {
    let Some(found) = account.found else {
        return FoundObject {
            value: None,
            low: None,
            high: None,
        };
    };
    match found.bounds {
        Some(bounds) => FoundObject {
            value: Some(found.value),
            low: Some(bounds.low),
            high: Some(bounds.high),
        },
        None => FoundObject {
            value: Some(found.value),
            low: None,
            high: None,
        },
    }
}

fn loop_object(account: &Account) -> Option<LoopObject> {
    match account.round {
        Some(round) => Some(LoopObject {
            word: round.word,
            line: round.at.line,
            column: round.at.column,
        }),
        None => None,
    }
}

fn variables_of(alloc: Global, values: &[Value]) -> Result<Vec<VariableObject<'_>>, AllocError> {
    let mut objects = Vec::new(alloc);
    for value in values.iter() {
        objects.push(VariableObject {
            name: value.name.as_str(),
            denoter: value.denoter.as_str(),
            value: value.value.as_str(),
        })?;
    }
    Ok(objects)
}

fn calls_of(alloc: Global, open: &[Activation]) -> Result<Vec<CallObject<'_>>, AllocError> {
    let mut objects = Vec::new(alloc);
    for call in open.iter() {
        objects.push(CallObject {
            routine: call.name.as_str(),
            at: place_object(call.at),
            called: place_object(call.called),
            variables: variables_of(alloc, call.values.as_slice())?,
        })?;
    }
    Ok(objects)
}

fn texts_of(alloc: Global, texts: &[String]) -> Result<Vec<&'_ str>, AllocError> {
    let mut parts = Vec::new(alloc);
    for text in texts.iter() {
        parts.push(text.as_str())?;
    }
    Ok(parts)
}

fn told_object(account: &Account) -> ToldObject {
    match account.at {
        Some(Place { line, column }) => ToldObject {
            from: Some(account.from),
            to: Some(account.to),
            line: Some(line),
            column: Some(column),
        },
        None => ToldObject {
            from: None,
            to: None,
            line: None,
            column: None,
        },
    }
}

fn account_object<'a>(
    alloc: Global,
    file: &'a str,
    account: &'a Account,
) -> Result<AccountObject<'a>, AllocError> {
    Ok(AccountObject {
        file,
        ending: word_of(account.ending),
        number: account.number,
        text: account.text.as_str(),
        told: told_object(account),
        found: found_object(account),
        round: loop_object(account),
        open: account.scene.count,
        calls: calls_of(alloc, account.scene.open.as_slice())?,
        objects: texts_of(alloc, account.scene.objects.as_slice())?,
        notes: texts_of(alloc, account.notes.as_slice())?,
    })
}

/// The account as a JSON object, without an end of line in it. Its members are `file`, `ending`, `number`, `text`,
/// `from`, `to`, `line`, `column`, `value`, `low`, `high`, `loop`, `open`, `calls`, `objects` and `notes`. `number` is
/// that of an error or a stop; `value`, `low`, `high` and `loop` are present if they are known, and `from`, `to`,
/// `line` and `column` if it has a place.
pub fn object_of(alloc: Global, file: &str, account: &Account) -> Result<String, Error> {
    let object = account_object(alloc, file, account)?;
    serde_json::to_string(alloc, &object)
}

//! The loops in which a run was.

use ps_diagnose_outline::{Construct, Outline};
use ps_diagnose_warnings::Warning;
use ps_map::{Lines, Place};
use ps_scene::Scene;
use std::alloc::{AllocError, Global};

/// A loop of the text.
#[derive(Clone, Copy)]
pub struct Loop {
    /// The word that it begins with.
    pub word: &'static str,
    /// Where that is.
    pub at: Place,
}

// The name of the warning about loops that change nothing that their conditions depend on.
const UNCHANGED: &str = "LoopUnchanged";

/// A text, with those of its loops that change nothing.
#[derive(Clone, Copy)]
pub(crate) struct Loops<'a> {
    pub(crate) outline: &'a Outline<'a>,
    pub(crate) lines: &'a Lines,
    pub(crate) warnings: &'a [Warning],
}

// A loop that changes nothing that its condition depends on, from its first token up to the one after it.
#[derive(Clone, Copy)]
struct Unchanged<'a> {
    first: usize,
    end: usize,
    round: Loop,
    warning: &'a Warning,
}

// The innermost of these loops around a token: the last one that begins before it and has not ended.
fn innermost_of<'a>(loops: &[Unchanged<'a>], at: usize) -> Option<Unchanged<'a>> {
    let mut found: Option<Unchanged<'a>> = None;
    for unchanged in loops {
        let least = match found {
            Some(other) => other.first,
            None => 0,
        };
        if least <= unchanged.first && unchanged.first <= at && at < unchanged.end {
            found = Some(*unchanged);
        }
    }
    found
}

// The word with which a loop begins.
fn word_of(construct: Construct) -> Option<&'static str> {
    match construct {
        Construct::While => Some("while"),
        Construct::Repeat => Some("repeat"),
        Construct::For => Some("for"),
        _ => None,
    }
}

impl<'a> Loops<'a> {
    // The innermost loop around a token.
    fn round(&self, at: usize) -> Option<Loop> {
        let mut found = None;
        for part in self.outline.constructions() {
            if part.first <= at && at < part.end {
                if let Some(word) = word_of(part.construct) {
                    let from = self.outline.span(part.first).from;
                    let at = self.lines.place_of(from);
                    found = Some(Loop { word, at });
                }
            }
        }
        found
    }

    // The number of the token at a place.
    fn token_at(&self, place: Place) -> usize {
        self.outline.token_at(self.lines.offset_of(place))
    }

    /// The innermost loop of a scene: one of its innermost call, or else of one further out.
    pub(crate) fn innermost(&self, scene: &Scene) -> Option<Loop> {
        for open in scene.open.iter() {
            if let Some(place) = open.at {
                let found = self.round(self.token_at(place));
                if found.is_some() {
                    return found;
                }
            }
        }
        None
    }

    // The loop that a warning is about. Constructions are in the order of the text.
    fn loop_of(&self, warning: &'a Warning) -> Option<Unchanged<'a>> {
        let first = self.outline.token_at(warning.place.from);
        let constructions = self.outline.constructions();
        let number = constructions.partition_point(|part| part.first < first);
        let Some(part) = constructions.get(number) else {
            return None;
        };
        let at = self.lines.place_of(warning.place.from);
        match word_of(part.construct) {
            Some(word) if part.first == first => Some(Unchanged {
                first,
                end: part.end,
                round: Loop { word, at },
                warning,
            }),
            _ => None,
        }
    }

    // The loops that change nothing that their conditions depend on.
    fn unchanged_loops(&self, alloc: Global) -> Result<Vec<Unchanged<'a>>, AllocError> {
        let mut loops = Vec::new(alloc);
        for warning in self.warnings {
            if warning.name == UNCHANGED {
                if let Some(found) = self.loop_of(warning) {
                    loops.push(found)?;
                }
            }
        }
        Ok(loops)
    }

    // The innermost of these loops in which a scene is: of its innermost call, or else of one further out.
    fn unchanged(&self, scene: &Scene, loops: &[Unchanged<'a>]) -> Option<Unchanged<'a>> {
        for open in scene.open.iter() {
            if let Some(place) = open.at {
                let found = innermost_of(loops, self.token_at(place));
                if found.is_some() {
                    return found;
                }
            }
        }
        None
    }

    /// What is said of the innermost loop of a scene that changes nothing that its condition depends on, if there is
    /// one, besides the loop that was reported.
    pub(crate) fn note(
        &self,
        alloc: Global,
        scene: &Scene,
        told: Option<Loop>,
    ) -> Result<Option<String>, AllocError> {
        let loops = self.unchanged_loops(alloc)?;
        match self.unchanged(scene, loops.as_slice()) {
            Some(Unchanged { round, warning, .. }) => {
                let is_told = match told {
                    Some(told) => told.at == round.at,
                    None => false,
                };
                let note = note_of(alloc, round, is_told, warning.draft.text.as_str())?;
                Ok(Some(note))
            }
            None => Ok(None),
        }
    }
}

// The sentence about a loop that changes nothing, with the names that a warning mentions after the loop's word.
fn note_of(alloc: Global, found: Loop, is_told: bool, warning: &str) -> Result<String, AllocError> {
    let names = names_in(alloc, warning)?;
    let names = names.as_str();
    if is_told {
        return format!(in alloc;
            "nothing in this loop changes what its condition looks at ({names})"
        );
    }
    let (word, line) = (found.word, found.at.line);
    format!(in alloc;
        "nothing in the `{word}` of line {line} changes what its condition looks at ({names})"
    )
}

// The names between backticks, except the first.
fn names_in(alloc: Global, warning: &str) -> Result<String, AllocError> {
    let mut out = String::new(alloc);
    for (number, piece) in warning.split('`').enumerate() {
        if number >= 3 && number % 2 == 1 {
            let between = if number == 3 { "" } else { ", " };
            write!(out, "{between}{piece}")?;
        }
    }
    Ok(out)
}

//! What is at addresses of memory, in the terms of the text.

use ps_diagnose::put_shown;
use ps_map::{Role, Variable, shown_name, small, variable_before};
use ps_scene::{Components, Object, Surroundings, components_of, ordinal_text, type_of, word_at};
use ps_tree::tree::Routine;
use ps_tree::types::{Fields, Ordinal, Ty};
use risc_machine::Machine;
use std::alloc::{AllocError, Global};

// How many levels of nested types are searched.
const DEEP: u32 = 100;

// After this many bytes of a name, further parts of it are left out: something a hundred levels deep may be stored
// often.
const MOST_OF_A_NAME: usize = 500;

/// Bytes of memory.
#[derive(Clone, Copy)]
pub(crate) struct Stretch {
    pub(crate) from: u32,
    /// The address after the last byte.
    pub(crate) to: u32,
}

/// A frame in memory, and the routine to which it belongs.
#[derive(Clone, Copy)]
pub(crate) struct Frame {
    pub(crate) at: u32,
    pub(crate) routine: u32,
}

/// The frames whose variables are searched.
#[derive(Clone, Copy)]
pub(crate) struct Frames {
    pub(crate) innermost: Option<Frame>,
    /// The one that contains an address, if there is one.
    pub(crate) holder: Option<Frame>,
}

/// A variable, or a component of one, in memory.
#[derive(Drop)]
pub(crate) struct Named<'a> {
    pub(crate) name: String,
    pub(crate) ty: &'a Ty,
    pub(crate) at: u32,
}

// A variable, or a part of one: its type, and where it begins.
#[derive(Clone, Copy)]
struct Part<'a> {
    ty: &'a Ty,
    at: u32,
}

// What the name of a variable begins with.
#[derive(Clone, Copy)]
enum Title<'a> {
    Variable(&'a str),
    /// An object, by its number.
    Object(usize),
}

// A variable that is not part of another one, or an object.
#[derive(Clone, Copy)]
struct Whole<'a> {
    title: Title<'a>,
    part: Part<'a>,
}

// The variables of a frame, which begin at an address.
#[derive(Clone, Copy)]
struct Locals<'a> {
    tree: &'a Routine,
    variables: &'a [Variable],
    first: u32,
}

// Whether a stretch is within this many bytes from an address on.
fn is_within(stretch: Stretch, at: u32, bytes: u32) -> bool {
    at <= stretch.from && stretch.to <= at.saturating_add(bytes)
}

impl<'a> Locals<'a> {
    // A variable at an address, by its number, if a stretch is in it.
    fn variable(
        &self,
        number: usize,
        variable: &'a Variable,
        at: u32,
        stretch: Stretch,
    ) -> Option<Whole<'a>> {
        match type_of(self.tree, number) {
            Some(ty) if is_within(stretch, at, ty.bytes()) => Some(Whole {
                title: Title::Variable(variable.name.as_str()),
                part: Part { ty, at },
            }),
            _ => None,
        }
    }

    // The variable of the routine itself in which a stretch is.
    fn own(&self, stretch: Stretch) -> Option<Whole<'a>> {
        let place = stretch.from.saturating_sub(self.first);
        let Some(number) = variable_before(self.variables, place) else {
            return None;
        };
        match self.variables.get(number) {
            Some(variable) if !matches!(variable.role, Role::Reference) => {
                let at = self.first.saturating_add(variable.home);
                self.variable(number, variable, at, stretch)
            }
            _ => None,
        }
    }

    // The variable, referred to by one of the routine's parameters, in which a stretch is.
    fn referred(&self, machine: &Machine, stretch: Stretch) -> Option<Whole<'a>> {
        let count = self.tree.formals.len().saturating_add(1);
        for (number, variable) in self.variables.iter().enumerate().take(count) {
            let home = self.first.saturating_add(variable.home);
            if let (Role::Reference, Some(at)) = (variable.role, word_at(machine, home)) {
                let found = self.variable(number, variable, at, stretch);
                if found.is_some() {
                    return found;
                }
            }
        }
        None
    }
}

// The variable of a frame in which a stretch is, including those referred to.
fn in_frame<'a>(
    around: &Surroundings<'a>,
    machine: &Machine,
    frame: Frame,
    stretch: Stretch,
) -> Option<Whole<'a>> {
    let number = frame.routine as usize;
    let (Some(told), Some(tree)) = (
        around.map.routines.get(number),
        around.checked.routines().get(number),
    ) else {
        return None;
    };
    let locals = Locals {
        tree,
        variables: told.variables.as_slice(),
        first: frame.at.saturating_add(told.frame),
    };
    locals.referred(machine, stretch).or(locals.own(stretch))
}

// The object in which a stretch is. Objects are numbered in the order of their addresses.
fn in_objects<'a>(
    around: &Surroundings<'a>,
    objects: &[Object],
    stretch: Stretch,
) -> Option<Whole<'a>> {
    let number = objects.partition_point(|object| object.address <= stretch.from);
    let Some(last) = number.checked_sub(1) else {
        return None;
    };
    let Some(object) = objects.get(last) else {
        return None;
    };
    match around.checked.domains().get(object.pointer as usize) {
        Some(ty) if is_within(stretch, object.address, ty.bytes()) => Some(Whole {
            title: Title::Object(number),
            part: Part {
                ty,
                at: object.address,
            },
        }),
        _ => None,
    }
}

// The variable or the object in which a stretch is.
fn outermost<'a>(
    around: &Surroundings<'a>,
    machine: &Machine,
    frames: Frames,
    objects: &[Object],
    stretch: Stretch,
) -> Option<Whole<'a>> {
    if let Some(innermost) = frames.innermost {
        let found = in_frame(around, machine, innermost, stretch);
        if found.is_some() {
            return found;
        }
    }
    match frames.holder {
        Some(frame) => in_frame(around, machine, frame, stretch),
        None => in_objects(around, objects, stretch),
    }
}

// The number of the component of an array in which a stretch is, if it is in only one.
fn number_in(components: Components<'_>, array: u32, stretch: Stretch) -> Option<u32> {
    let distance = stretch.from.saturating_sub(array);
    let Some(number) = distance.checked_div(components.bytes) else {
        return None;
    };
    let at = component_at(components, array, number);
    if is_within(stretch, at, components.bytes) {
        Some(number)
    } else {
        None
    }
}

// Where a component of an array begins.
fn component_at(components: Components<'_>, array: u32, number: u32) -> u32 {
    array.saturating_add(number.saturating_mul(components.bytes))
}

// Whether a further part is added to a name. For those that aren't, `..` is added once.
fn takes_part(name: &mut String) -> Result<bool, AllocError> {
    if name.len() < MOST_OF_A_NAME {
        return Ok(true);
    }
    if !name.as_str().ends_with("..") {
        name.push_str("..")?;
    }
    Ok(false)
}

// Adds an index to a name.
fn put_index(
    alloc: Global,
    around: &Surroundings<'_>,
    name: &mut String,
    index: Ordinal,
    number: u32,
) -> Result<(), AllocError> {
    if !takes_part(name)? {
        return Ok(());
    }
    let value = i64::from(index.low).saturating_add(i64::from(number));
    let told = ordinal_text(alloc, around, index.host, value)?;
    let told = told.as_str();
    write!(name, "[{told}]")
}

// The component of an array in which a stretch is, if it is in only one. Its index is added to the name.
fn element<'a>(
    alloc: Global,
    around: &Surroundings<'a>,
    name: &mut String,
    components: Components<'a>,
    array: u32,
    stretch: Stretch,
) -> Result<Option<Part<'a>>, AllocError> {
    let Some(number) = number_in(components, array, stretch) else {
        return Ok(None);
    };
    let Components {
        index,
        ty,
        bytes: _,
    } = components;
    put_index(alloc, around, name, index, number)?;
    Ok(Some(Part {
        ty,
        at: component_at(components, array, number),
    }))
}

// The number of the last field that begins at or before a place in a record. The fields follow one another, and those
// between which it is are halved until one is left.
fn field_before(fields: &Fields, place: u32) -> usize {
    let mut number: usize = 0;
    let mut behind = fields.types().len();
    for _ in 0..u32::BITS {
        let left = behind.saturating_sub(number);
        if left < 2 {
            break;
        }
        let middle = number.saturating_add(left / 2);
        if fields.offset(small(middle)) <= place {
            number = middle;
        } else {
            behind = middle;
        }
    }
    number
}

// The field of a record in which a stretch is, if it is in only one, with its number.
fn field_of(fields: &Fields, record: u32, stretch: Stretch) -> Option<(usize, Part<'_>)> {
    let number = field_before(fields, stretch.from.saturating_sub(record));
    let at = record.saturating_add(fields.offset(small(number)));
    match fields.types().get(number) {
        Some(ty) if is_within(stretch, at, ty.bytes()) => Some((number, Part { ty, at })),
        _ => None,
    }
}

// The component in which a stretch is, if it is in only one. How the component is written is added to the name.
fn component<'a>(
    alloc: Global,
    around: &Surroundings<'a>,
    name: &mut String,
    outer: Part<'a>,
    stretch: Stretch,
) -> Result<Option<Part<'a>>, AllocError> {
    if let Some(components) = components_of(outer.ty) {
        return element(alloc, around, name, components, outer.at, stretch);
    }
    let Ty::Record { at, fields, .. } = outer.ty else {
        return Ok(None);
    };
    let Some((number, inner)) = field_of(fields, outer.at, stretch) else {
        return Ok(None);
    };
    if takes_part(name)? {
        name.push_str(".")?;
        put_shown(name, around.field(*at, number))?;
    }
    Ok(Some(inner))
}

fn title_told(alloc: Global, title: Title<'_>) -> Result<String, AllocError> {
    match title {
        Title::Variable(name) => shown_name(alloc, name),
        Title::Object(number) => format!(in alloc; "object {number}"),
    }
}

/// The smallest variable or component in which a stretch is.
pub(crate) fn found_at<'a>(
    alloc: Global,
    around: &Surroundings<'a>,
    machine: &Machine,
    frames: Frames,
    objects: &[Object],
    stretch: Stretch,
) -> Result<Option<Named<'a>>, AllocError> {
    let Some(found) = outermost(around, machine, frames, objects, stretch) else {
        return Ok(None);
    };
    let mut name = title_told(alloc, found.title)?;
    let mut least = found.part;
    for _ in 0..DEEP {
        match component(alloc, around, &mut name, least, stretch)? {
            Some(inner) => least = inner,
            None => break,
        }
    }
    let Part { ty, at } = least;
    Ok(Some(Named { name, ty, at }))
}

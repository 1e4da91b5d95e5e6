//! Where a program is when it stopped.

use crate::frames::{Frames, Standing, View, routine_of};
use crate::memory::word_at;
use crate::names::FieldName;
use crate::types::type_of;
use crate::values::{Length, Printer};
use ps_diagnose::put_shown;
use ps_map::{Map, Place, Role, Row, Variable, shown_name};
use ps_scan::Token;
use ps_text::Source;
use ps_tree::program::Checked;
use ps_tree::types::Ty;
use risc_image::ImageView;
use risc_machine::{Machine, Stop};
use std::alloc::{AllocError, Global};

// How many of the innermost open calls are shown.
const FEW_CALLS: usize = 8;

const MANY_CALLS: usize = 1_000;

// After this many bytes of values, parts of further ones are left out.
const MOST_BYTES: usize = 4_000_000;

/// A text with its program, in whose terms values are shown.
#[derive(Clone, Copy)]
pub struct Surroundings<'a> {
    pub source: &'a Source<'a>,
    pub tokens: &'a [Token],
    /// The names of the fields of its record types.
    pub fields: &'a [FieldName],
    pub checked: &'a Checked,
    pub map: &'a Map,
}

/// A variable and its value, in the terms of the text.
#[derive(Drop)]
pub struct Value {
    pub name: String,
    /// Its type; empty if it isn't known.
    pub denoter: String,
    pub value: String,
    /// Whether it is the result of a function that still has its first value, since nothing was assigned to it.
    pub is_unset: bool,
}

/// An open call.
#[derive(Drop)]
pub struct Activation {
    /// The name of its routine; empty if it isn't known.
    pub name: String,
    /// Where it is: at the token at which an error or a call is reported, otherwise where its statement begins; `None`
    /// if that isn't known.
    pub at: Option<Place>,
    /// Where it was called; `None` for the program block.
    pub called: Option<Place>,
    /// Whether its variables have values yet.
    pub has_begun: bool,
    /// The first ones, if too many are shown before.
    pub values: Vec<Value>,
}

/// Where a program is when it stopped.
#[derive(Drop)]
pub struct Scene {
    /// The place of the stop.
    pub at: Option<Place>,
    /// Where the statement of the stop begins.
    pub statement: Option<Place>,
    /// The routine of the program in whose words the machine is.
    pub routine: Option<u32>,
    /// The open calls: the innermost ones, at most as many as are shown, followed by the program block.
    pub open: Vec<Activation>,
    /// How many there are, including the program block.
    pub count: u64,
    /// How many of them belong to each routine, by its number.
    pub counts: Vec<u64>,
    /// The contents of the objects identified by pointers that were shown, by their numbers from 1 on.
    pub objects: Vec<String>,
    /// Whether parts of values, or variables, were left out because too much was shown before them.
    pub is_cut: bool,
}

// The token of a row, otherwise where its statement begins.
fn place_of(row: Option<Row>) -> Option<Place> {
    match row {
        Some(row) => row.token.or(row.statement),
        None => None,
    }
}

/// A printer for values of a machine, up to about this many bytes.
pub(crate) fn printer_of<'a>(
    alloc: Global,
    around: &Surroundings<'a>,
    machine: &'a Machine,
    length: Length,
    most: usize,
) -> Printer<'a> {
    Printer {
        alloc,
        machine,
        text: around.text(),
        fields: around.fields,
        length,
        out: String::new(alloc),
        objects: Vec::new(alloc),
        told: 0,
        most,
        variables: 0,
    }
}

// The name of the routine whose address is at a home.
fn routine_at<'a>(map: &'a Map, machine: &Machine, home: u32) -> &'a str {
    let row = match word_at(machine, home) {
        Some(address) => map.row_of(address / 4),
        None => None,
    };
    match routine_of(row) {
        Some(routine) => map.name_of(routine).unwrap_or("?"),
        None => "?",
    }
}

// The address of a variable whose home is at an address.
fn address_of(machine: &Machine, variable: &Variable, home: u32) -> Option<u32> {
    match variable.role {
        Role::Reference => word_at(machine, home),
        _ => Some(home),
    }
}

// Whether it is the result of a function that still has its first value.
fn is_unset(printer: &Printer<'_>, variable: &Variable, ty: Option<&Ty>, home: u32) -> bool {
    match (variable.role, ty) {
        (Role::Result, Some(ty)) => printer.has_first(ty, home),
        _ => false,
    }
}

// Adds the value of a variable whose home is at an address.
fn put_value(
    printer: &mut Printer<'_>,
    map: &Map,
    variable: &Variable,
    ty: Option<&Ty>,
    home: u32,
) -> Result<(), AllocError> {
    let address = address_of(printer.machine, variable, home);
    match (ty, address) {
        (Some(ty), Some(address)) => printer.put_variable(ty, address),
        (None, _) => put_shown(&mut printer.out, routine_at(map, printer.machine, home)),
        (Some(_), None) => printer.out.push_str("?"),
    }
}

// A variable whose home is at an address, with its value.
fn value_of(
    printer: &mut Printer<'_>,
    map: &Map,
    variable: &Variable,
    ty: Option<&Ty>,
    home: u32,
) -> Result<Value, AllocError> {
    put_value(printer, map, variable, ty, home)?;
    Ok(Value {
        name: shown_name(printer.alloc, variable.name.as_str())?,
        denoter: String::from_str(printer.alloc, variable.denoter.as_str())?,
        value: printer.take(),
        is_unset: is_unset(printer, variable, ty, home),
    })
}

// The values of a routine's variables in an activation.
fn put_values(
    printer: &mut Printer<'_>,
    around: &Surroundings<'_>,
    routine: u32,
    activation: u32,
) -> Result<Vec<Value>, AllocError> {
    let mut values = Vec::new(printer.alloc);
    let (Some(told), Some(tree)) = (
        around.map.routines.get(routine as usize),
        around.checked.routines().get(routine as usize),
    ) else {
        return Ok(values);
    };
    let first = activation.saturating_add(told.frame);
    for (number, variable) in told.variables.iter().enumerate() {
        if !printer.takes_variable() {
            break;
        }
        let home = first.saturating_add(variable.home);
        let ty = type_of(tree, number);
        values.push(value_of(printer, around.map, variable, ty, home)?)?;
    }
    Ok(values)
}

// An open call.
fn call_of(
    printer: &mut Printer<'_>,
    around: &Surroundings<'_>,
    standing: Standing,
) -> Result<Activation, AllocError> {
    let number = standing.routine.unwrap_or(u32::MAX);
    let values = if standing.has_begun {
        put_values(printer, around, number, standing.frame)?
    } else {
        Vec::new(printer.alloc)
    };
    Ok(Activation {
        name: shown_name(printer.alloc, around.map.name_of(number).unwrap_or(""))?,
        at: place_of(standing.at),
        called: standing.called,
        has_begun: standing.has_begun,
        values,
    })
}

// The contents of the objects that were shown, and of those shown with them, as many as this length allows.
fn objects_of(
    printer: &mut Printer<'_>,
    around: &Surroundings<'_>,
) -> Result<Vec<String>, AllocError> {
    let mut objects = Vec::new(printer.alloc);
    for number in 0..printer.most_objects() {
        let Some(object) = printer.objects.get(number).copied() else {
            break;
        };
        let Some(ty) = around.checked.domains().get(object.pointer as usize) else {
            break;
        };
        printer.put_variable(ty, object.address)?;
        objects.push(printer.take())?;
    }
    Ok(objects)
}

// A scene without open calls.
fn empty_scene(alloc: Global, here: Option<Row>) -> Scene {
    let statement = match here {
        Some(row) => row.statement,
        None => None,
    };
    Scene {
        at: place_of(here),
        statement,
        routine: routine_of(here),
        open: Vec::new(alloc),
        count: 0,
        counts: Vec::new(alloc),
        objects: Vec::new(alloc),
        is_cut: false,
    }
}

// Adds the open calls to a scene.
fn add_open(
    scene: &mut Scene,
    printer: &mut Printer<'_>,
    around: &Surroundings<'_>,
    frames: Frames,
) -> Result<(), AllocError> {
    let Frames {
        shown,
        count,
        counts,
    } = frames;
    scene.count = count;
    scene.counts = counts;
    for standing in shown.iter() {
        scene.open.push(call_of(printer, around, *standing)?)?;
    }
    scene.objects = objects_of(printer, around)?;
    scene.is_cut = printer.was_full();
    Ok(())
}

// How many of the innermost open calls are shown.
fn most_calls(length: Length) -> usize {
    match length {
        Length::Short => FEW_CALLS,
        Length::All => MANY_CALLS,
    }
}

/// Where a program is that was loaded from an image and stopped, with the innermost open calls, as many as this length
/// allows, and the outermost one.
pub fn scene_of<'a>(
    alloc: Global,
    around: &Surroundings<'a>,
    image: &'a ImageView<'a>,
    machine: &'a Machine,
    stop: Stop,
    length: Length,
) -> Result<Scene, AllocError> {
    let view = View {
        machine,
        image,
        map: around.map,
    };
    let (here, innermost) = view.innermost(stop);
    let mut scene = empty_scene(alloc, here);
    if let Some(innermost) = innermost {
        let frames = view.frames(alloc, innermost, most_calls(length))?;
        let mut printer = printer_of(alloc, around, machine, length, MOST_BYTES);
        add_open(&mut scene, &mut printer, around, frames)?;
    }
    Ok(scene)
}

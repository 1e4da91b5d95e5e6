//! Values in the terms of the text.

use crate::memory::{byte_at, word_at};
use crate::names::{FieldName, Text};
use crate::types::{Components, components_of, is_byte};
use ps_diagnose::put_shown;
use ps_map::{shown_name, small};
use ps_tree::types::{Fields, Host, Ordinal, Ty};
use risc_machine::Machine;
use std::alloc::{AllocError, Global};
use std::mem::replace;

/// How much of arrays and records is shown.
#[derive(Clone, Copy)]
pub enum Length {
    /// The first three components and the last one, and at most three types deep.
    Short,
    All,
}

// How many levels of nested types are shown.
const DEEP_SHORT: u32 = 3;

const DEEP: u32 = 100;

// The numbers that may be in a set are below this.
const MEMBERS: u32 = 256;

// How many of the first components are shown.
const FIRST: u32 = 3;

// How many characters of a long string are shown.
const MOST_CHARACTERS: u32 = 60;

// How many fields of a record are shown.
const FEW_FIELDS: usize = 12;

const MANY_FIELDS: usize = 1_000;

// How many objects are shown with their contents.
const FEW_OBJECTS: usize = 6;

const MANY_OBJECTS: usize = 1_000;

// How many variables are shown.
const MOST_VARIABLES: u32 = 100_000;

// Up to this many objects that are shown get numbers.
const MOST_NUMBERED: i64 = 1_000;

/// An object that was shown.
#[derive(Clone, Copy)]
pub struct Object {
    pub address: u32,
    /// The number of the pointer type of the pointer for which it is shown.
    pub pointer: u32,
}

/// Text to which values are added.
#[derive(Drop)]
pub(crate) struct Printer<'a> {
    pub(crate) alloc: Global,
    pub(crate) machine: &'a Machine,
    pub(crate) text: Text<'a>,
    pub(crate) fields: &'a [FieldName],
    pub(crate) length: Length,
    pub(crate) out: String,
    /// The objects that were shown, in the order of their numbers.
    pub(crate) objects: Vec<Object>,
    /// The bytes of the values shown before.
    pub(crate) told: usize,
    /// After this many bytes of values, parts of further ones are left out.
    pub(crate) most: usize,
    /// How many variables were to be shown.
    pub(crate) variables: u32,
}

// A character, or `chr` and its number if it isn't printable.
fn char_told(alloc: Global, value: i64) -> Result<String, AllocError> {
    match u8::try_from(value) {
        Ok(b'\'') => String::from_str(alloc, "''''"),
        Ok(shown) if is_shown(shown) => {
            let bytes = [shown];
            let letter = str::from_utf8(&bytes).unwrap_or("?");
            format!(in alloc; "'{letter}'")
        }
        _ => format!(in alloc; "chr({value})"),
    }
}

/// A value of an ordinal type in the terms of a text; a long name of a constant as `shown_name` has it.
pub fn ordinal_in(
    alloc: Global,
    text: Text<'_>,
    host: Host,
    value: i64,
) -> Result<String, AllocError> {
    match host {
        Host::Integer => format!(in alloc; "{value}"),
        Host::Boolean => String::from_str(alloc, if value == 0 { "false" } else { "true" }),
        Host::Char => char_told(alloc, value),
        Host::Enumeration { at, .. } => {
            let number = u32::try_from(value).unwrap_or(u32::MAX);
            shown_name(alloc, text.constant(at, number))
        }
    }
}

impl<'a> Printer<'a> {
    fn put(&mut self, words: &str) -> Result<(), AllocError> {
        self.out.push_str(words)
    }

    /// Returns what was added since the last call.
    pub(crate) fn take(&mut self) -> String {
        self.told = self.told.saturating_add(self.out.len());
        let empty = String::new(self.alloc);
        replace(&mut self.out, empty)
    }

    // A value that is not in memory.
    fn put_unknown(&mut self) -> Result<(), AllocError> {
        self.put("?")
    }

    // Whether so much has been shown that parts of values are left out from here on.
    fn is_full(&self) -> bool {
        self.told.saturating_add(self.out.len()) >= self.most
    }

    /// Whether so much was shown that parts of values, or variables, were left out.
    pub(crate) fn was_full(&self) -> bool {
        self.told >= self.most || self.variables > MOST_VARIABLES
    }

    /// Counts a variable that is to be shown. Returns whether it is among the first ones.
    pub(crate) fn takes_variable(&mut self) -> bool {
        self.variables = self.variables.saturating_add(1);
        self.variables <= MOST_VARIABLES
    }

    /// Adds the value of a variable of a type at an address.
    pub(crate) fn put_variable(&mut self, ty: &Ty, at: u32) -> Result<(), AllocError> {
        if self.is_full() {
            return self.put_deepest(ty, at);
        }
        let left = match self.length {
            Length::Short => DEEP_SHORT,
            Length::All => DEEP,
        };
        self.put_value(ty, at, left)
    }

    // The same; at most `left` levels of nested types are shown.
    #[cycle(values)]
    fn put_value(&mut self, ty: &Ty, at: u32, left: u32) -> Result<(), AllocError> {
        let Some(left) = left.checked_sub(1) else {
            return self.put_deepest(ty, at);
        };
        match ty {
            Ty::Simple(ordinal) => self.put_simple(*ordinal, at),
            Ty::Pointer { number } => self.put_pointer(*number, at),
            Ty::Nil => self.put("nil"),
            Ty::Set { base, .. } => self.put_set(*base, at),
            Ty::EmptySet => self.put("[]"),
            Ty::Text { length } => self.put_string(at, *length),
            Ty::Array { .. } => self.put_array(ty, at, left),
            Ty::Record {
                at: denoter,
                fields,
                ..
            } => self.put_record(*denoter, fields, at, left),
        }
    }

    // A value that is nested too deeply: if it has parts, it is left out.
    fn put_deepest(&mut self, ty: &Ty, at: u32) -> Result<(), AllocError> {
        match ty {
            Ty::Simple(ordinal) => self.put_simple(*ordinal, at),
            Ty::Pointer { number } => self.put_pointer(*number, at),
            _ => self.put("(..)"),
        }
    }

    fn put_simple(&mut self, ordinal: Ordinal, at: u32) -> Result<(), AllocError> {
        match simple_at(self.machine, ordinal, at) {
            Some(value) => self.put_ordinal(ordinal.host, value),
            None => self.put_unknown(),
        }
    }

    /// Adds a value of an ordinal type.
    pub(crate) fn put_ordinal(&mut self, host: Host, value: i64) -> Result<(), AllocError> {
        let told = ordinal_in(self.alloc, self.text, host, value)?;
        self.put(told.as_str())
    }

    fn put_byte(&mut self, shown: u8) -> Result<(), AllocError> {
        self.put(str::from_utf8(&[shown]).unwrap_or("?"))
    }

    // A pointer of the type with this number.
    fn put_pointer(&mut self, pointer: u32, at: u32) -> Result<(), AllocError> {
        match word_at(self.machine, at) {
            None => self.put_unknown(),
            Some(0) => self.put("nil"),
            Some(address) => self.put_object(Object { address, pointer }),
        }
    }

    // The number of an object among those that were shown, if they are in the order of their addresses.
    fn number_in_order(&self, object: Object) -> Option<i64> {
        let place = self
            .objects
            .as_slice()
            .partition_point(|told| told.address < object.address);
        match self.objects.get(place) {
            Some(told) if told.address == object.address => i64::try_from(place.saturating_add(
                1,
            )).ok(),
            _ => None,
        }
    }

    // The number of an object, from 1 on, in the order in which they are shown; `None` for an object after too many
    // others.
    fn number_of(&mut self, object: Object) -> Result<Option<i64>, AllocError> {
        if let Some(number) = self.number_in_order(object) {
            return Ok(Some(number));
        }
        let mut number: i64 = 1;
        for told in self.objects.iter() {
            if told.address == object.address {
                return Ok(Some(number));
            }
            if number >= MOST_NUMBERED {
                return Ok(None);
            }
            number = number.saturating_add(1);
        }
        self.objects.push(object)?;
        Ok(Some(number))
    }

    // An object.
    fn put_object(&mut self, object: Object) -> Result<(), AllocError> {
        match self.number_of(object)? {
            Some(number) => write!(self.out, "object {number}"),
            None => self.put("another object"),
        }
    }

    /// Whether the variable of a simple or pointer type at an address has the first value of its type.
    pub(crate) fn has_first(&self, ty: &Ty, at: u32) -> bool {
        match ty {
            Ty::Simple(ordinal) => simple_at(self.machine, *ordinal, at)
                == Some(first_of(*ordinal)),
            Ty::Pointer { .. } => word_at(self.machine, at) == Some(0),
            _ => false,
        }
    }

    // How many fields of a record are shown.
    fn most_fields(&self) -> usize {
        match self.length {
            Length::Short => FEW_FIELDS,
            Length::All => MANY_FIELDS,
        }
    }

    /// How many objects are shown with their contents.
    pub(crate) fn most_objects(&self) -> usize {
        match self.length {
            Length::Short => FEW_OBJECTS,
            Length::All => MANY_OBJECTS,
        }
    }

    // A character of a string; a point if it isn't printable.
    fn put_character(&mut self, at: u32) -> Result<(), AllocError> {
        match byte_at(self.machine, at) {
            Some(b'\'') => self.put("''"),
            Some(shown) if is_shown(shown) => self.put_byte(shown),
            _ => self.put("."),
        }
    }

    // A string of characters, quoted, followed by `..` if it is longer than the part shown.
    fn put_string(&mut self, at: u32, length: u32) -> Result<(), AllocError> {
        let is_long = matches!(self.length, Length::Short) && length > MOST_CHARACTERS;
        let told = if is_long { MOST_CHARACTERS } else { length };
        self.put("'")?;
        for k in 0..told {
            self.put_character(at.saturating_add(k))?;
        }
        self.put(if is_long { "'.." } else { "'" })
    }

    // Whether a set has a member.
    fn has_member(&self, at: u32, member: u32) -> bool {
        match byte_at(self.machine, at.saturating_add(member / 8)) {
            Some(bits) => (bits >> (member % 8)) & 1 == 1,
            None => false,
        }
    }

    // A set: its members, with ranges for several in a row.
    fn put_set(&mut self, base: Ordinal, at: u32) -> Result<(), AllocError> {
        self.put("[")?;
        let mut next: u32 = 0;
        for member in 0..MEMBERS {
            if member >= next && self.has_member(at, member) {
                if next > 0 && self.is_full() {
                    self.put(", ..")?;
                    break;
                }
                if next > 0 {
                    self.put(", ")?;
                }
                next = self.put_members(base.host, at, member)?;
            }
        }
        self.put("]")
    }

    // Adds the consecutive members from one on, and returns the number after them.
    fn put_members(&mut self, host: Host, at: u32, first: u32) -> Result<u32, AllocError> {
        let mut last = first;
        for member in first..MEMBERS {
            if !self.has_member(at, member) {
                break;
            }
            last = member;
        }
        self.put_ordinal(host, i64::from(first))?;
        if last > first {
            self.put("..")?;
            self.put_ordinal(host, i64::from(last))?;
        }
        Ok(last.saturating_add(1))
    }

    // An array: a string as a string, otherwise its components.
    #[cycle(values)]
    fn put_array(&mut self, ty: &Ty, at: u32, left: u32) -> Result<(), AllocError> {
        if let Some(length) = ty.string_length() {
            return self.put_string(at, length);
        }
        let Some(Components { index, ty, bytes }) = components_of(ty) else {
            return Ok(());
        };
        let count = u32::try_from(index.value_count()).unwrap_or(u32::MAX);
        self.put("(")?;
        for shown in 0..self.most_components(count) {
            if shown > 0 && self.is_full() {
                self.put(", ..")?;
                break;
            }
            let k = self.component(shown, count);
            self.put_separator(k)?;
            self.put_value(ty, at.saturating_add(bytes.saturating_mul(k)), left)?;
        }
        self.put(")")
    }

    // How many components are shown of an array that has this many.
    fn most_components(&self, count: u32) -> u32 {
        match self.length {
            Length::Short => count.min(FIRST.saturating_add(1)),
            Length::All => count,
        }
    }

    // The component that is shown after this many others, of an array that has `count`.
    fn component(&self, shown: u32, count: u32) -> u32 {
        match self.length {
            Length::Short if shown == FIRST => count.saturating_sub(1),
            _ => shown,
        }
    }

    // What comes before a component: in short, dots before the last one, if others are left out.
    fn put_separator(&mut self, k: u32) -> Result<(), AllocError> {
        if k == 0 {
            return Ok(());
        }
        if k > FIRST && matches!(self.length, Length::Short) {
            self.put(", .. ")
        } else {
            self.put(", ")
        }
    }

    // The name of a field, before its value.
    fn put_field(&mut self, denoter: u32, number: usize) -> Result<(), AllocError> {
        let name = self.text.field(self.fields, denoter, number);
        put_shown(&mut self.out, name)?;
        self.put(": ")
    }

    #[cycle(values)]
    fn put_record(
        &mut self,
        denoter: u32,
        fields: &Fields,
        at: u32,
        left: u32,
    ) -> Result<(), AllocError> {
        self.put("(")?;
        for (number, ty) in fields.types().iter().enumerate() {
            if number >= self.most_fields() || (number > 0 && self.is_full()) {
                self.put(", ..")?;
                break;
            }
            if number > 0 {
                self.put(", ")?;
            }
            self.put_field(denoter, number)?;
            let offset = fields.offset(small(number));
            self.put_value(ty, at.saturating_add(offset), left)?;
        }
        self.put(")")
    }
}

// The first value of a variable of an ordinal type: 0 for integers, otherwise the lowest.
fn first_of(ordinal: Ordinal) -> i64 {
    match (ordinal.host, ordinal.subrange) {
        (Host::Integer, None) => 0,
        _ => i64::from(ordinal.low),
    }
}

// The number of a value of an ordinal type at an address: of a byte, or of a signed word.
fn simple_at(machine: &Machine, ordinal: Ordinal, at: u32) -> Option<i64> {
    if is_byte(ordinal) {
        return match byte_at(machine, at) {
            Some(value) => Some(i64::from(value)),
            None => None,
        };
    }
    match word_at(machine, at) {
        Some(value) => Some(i64::from(i32::from_le_bytes(value.to_le_bytes()))),
        None => None,
    }
}

// Whether a byte is a printable character.
fn is_shown(byte: u8) -> bool {
    b' ' <= byte && byte <= b'~'
}

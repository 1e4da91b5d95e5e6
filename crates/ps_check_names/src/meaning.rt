//! What names denote.

use crate::sections::SectionList;
use ps_tree::characters::Characters;
use ps_tree::types::{Ordinal, Ty};
use std::rc::Rc;

/// The files that a program heading may list.
#[derive(Clone, Copy)]
pub enum File {
    Input,
    Output,
}

/// The required functions and procedures of the profile (ISO 7185, 6.6.5 and 6.6.6).
#[derive(Clone, Copy)]
pub enum Required {
    Abs,
    Sqr,
    Odd,
    Chr,
    Ord,
    Succ,
    Pred,
    Eof,
    Eoln,
    Read,
    Readln,
    Write,
    Writeln,
    New,
    Pack,
    Unpack,
}

/// A routine's heading. `at` is the offset of the routine's name; `names` has the names of the formal parameters in
/// lower case, in order. The block of a forward heading comes later.
#[derive(Drop)]
pub struct Heading {
    pub number: u32,
    pub at: u32,
    pub sections: Rc<SectionList>,
    pub result: Option<Ty>,
    pub names: Vec<Vec<u8>>,
    pub is_forward: bool,
}

/// What a defining point gives its name. The entries of a routine are numbered from 0: a function's result, the formal
/// parameters, the variables.
#[derive(Drop)]
pub enum Meaning {
    /// A constant of an ordinal type; a string of one character is a constant of type char.
    Constant {
        ordinal: Ordinal,
        value: i32,
    },
    /// A constant that is a string of several characters.
    Text(Characters),
    Type(Ty),
    /// A variable declared in a variable part.
    Variable {
        entry: u32,
        ty: Ty,
    },
    /// A value or variable parameter.
    Parameter {
        entry: u32,
        ty: Ty,
    },
    RoutineParameter {
        entry: u32,
        sections: Rc<SectionList>,
        result: Option<Ty>,
    },
    Routine(Heading),
    /// Input or output, defined for the program's block by the program heading.
    File(File),
    Required(Required),
    /// A required name that the profile leaves out.
    LeftOut,
}

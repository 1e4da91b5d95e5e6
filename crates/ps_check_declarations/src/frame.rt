//! Where declarations are, and what they give.

use ps_check_names::meaning::Meaning;
use ps_check_names::reading::Reading;
use ps_check_names::scope::Scope;
use ps_check_names::wides::Wides;
use ps_syntax::{ConstantDefinition, TypeDefinition, Variables};
use ps_text::Span;
use ps_tree::names::Names;
use ps_tree::types::Ty;
use std::alloc::Global;

/// The declarations of a block: its constants, types and variables.
#[derive(Clone, Copy)]
pub struct Parts<'a> {
    pub constants: &'a [ConstantDefinition],
    pub types: &'a [TypeDefinition],
    pub variables: &'a [Variables],
}

/// Where the declarations of a block are: the number of the block's routine, all names of the block's region, those
/// whose definition is in progress, and the regions outside the block.
#[derive(Clone, Copy)]
pub struct Frame<'a> {
    pub reading: &'a Reading<'a>,
    pub routine: u32,
    pub names: &'a Names,
    pub begun: &'a Names,
    pub outer: &'a Scope<'a>,
}

/// What the declarations so far give: the meanings of the block's names, the domain types of the pointer types, the
/// names of the domain types still pending, each with the number of the block's names known before it, the types of the
/// block's variables, and the wide record types.
#[derive(Drop)]
pub struct Declared {
    pub known: Vec<Meaning>,
    pub domains: Vec<Ty>,
    pub pending: Vec<(Span, usize)>,
    pub variables: Vec<Ty>,
    pub wides: Wides,
}

/// What encloses a place in a block's declarations, from the inside out.
#[derive(Clone, Copy)]
pub enum Hidden<'a> {
    Nothing,
    /// The denoter of a record, a parameter list or a declaration of variables, by its names, the first `defined` of
    /// which come before the place.
    Own {
        names: &'a Names,
        defined: usize,
        outer: &'a Hidden<'a>,
    },
}

/// A place in a block's declarations.
#[derive(Clone, Copy)]
pub struct Place<'a> {
    pub alloc: Global,
    pub frame: Frame<'a>,
    pub hidden: Hidden<'a>,
}

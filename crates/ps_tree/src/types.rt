// Types: their definitions, and the components of arrays and records.

mod agreement;
mod copies;
mod cores;
mod sizes;

ghost use Rattle.std.specs.Prelude.{◌≡◌, ◌↔◌, ◌+◌, ◌*◌, ◌-◌, ◌^◌, ◌<◌, ◌≤◌, min, IfOk, IfSome, IsTrue, option_map};
ghost use Rattle.ps_tree.specs.Types.{field_list, field_types, field_in, HaveSameNames};
ghost use Rattle.ps_tree.specs.Sizes.{depth, depth_of_fields, cells, record_cells};
ghost use Rattle.ps_tree.specs.Sizes.{bytes, record_bytes, bytes_before, beginnings};
ghost use Rattle.ps_tree.specs.Cores.{core_of, cores_of};
ghost use Rattle.ps_tree.specs.TypeDepth.{deepest};
ghost use Rattle.ps_tree.specs.TypeView.{type_of, types_of};
ghost use Rattle.ps_tree.specs.declared.types.Component.TheDeep.{size-Ty};

use crate::marked::Marked;
use crate::names::Names;
use crate::types::cores::cores_of_all;
use crate::types::sizes::{bytes_of_all, cells_of_all, field_at, offsets_of_all, take_largest};
pub use agreement::{assignable, compatible, same_host, same_type};
use std::alloc::{AllocError, Global};
use std::marker::Model;
use std::rc::Rc;

/// What the values of an ordinal type are (6.4.2.2, 6.4.2.3). An enumerated type is identified by its denoter.
#[derive(Clone, Copy)]
pub enum Host {
    Integer,
    Char,
    Boolean,
    /// `at` is the offset of the denoter's first token, `greatest` the ordinal of the last constant.
    Enumeration { at: u32, greatest: i32 },
}

/// An ordinal type (6.4.2): its host, the offset of its own denoter's first token if it is a subrange, and its lowest
/// and highest values.
#[derive(Clone, Copy)]
pub struct Ordinal {
    pub host: Host,
    pub subrange: Option<u32>,
    pub low: i32,
    pub high: i32,
}

/// Whether a set type is packed. A set constructor's type is both packed and not (6.7.1).
#[derive(Clone, Copy)]
pub enum Packing {
    Packed,
    Unpacked,
    Either,
}

/// A type (6.4). One made by a denoter of its own carries the offset of the denoter's first token, so that two denoters
/// of the same form are two types. A pointer type carries its number among the pointer types, counted in the order of
/// their denoters; its domain type, which may contain it, is in the program's list of domains.
#[cycle(types)]
pub enum Ty {
    /// integer, char, Boolean, an enumerated type or a subrange
    Simple(Ordinal),
    Pointer {
        number: u32,
    },
    /// the type of `nil`
    Nil,
    /// A set type; without a denoter, the type of a set constructor or of an operation on sets.
    Set {
        at: Option<u32>,
        packing: Packing,
        base: Ordinal,
    },
    /// the type of `[]`
    EmptySet,
    /// the type of a string in the text, of `length` characters
    Text {
        length: u32,
    },
    Array {
        at: u32,
        packed: bool,
        index: Ordinal,
        component: Rc<Component>,
    },
    Record {
        at: u32,
        packed: bool,
        fields: Rc<Fields>,
    },
}

/// The type of an array's components, with its core and its sizes.
#[cycle(types)]
pub struct Component {
    ty: Ty,
    core: Ty,
    cell_count: u64,
    byte_count: u32,
}

/// The fields of a record type: their names, in lower case, their types, and where they begin, in the same order; with
/// a code of the names, the cores of the types that take bytes, and the sizes of a record.
#[cycle(types)]
pub struct Fields {
    names: Names,
    code: Marked,
    types: Vec<Ty>,
    solid: Vec<Ty>,
    offsets: Vec<u32>,
    cell_count: u64,
    byte_count: u32,
}

impl Drop for Ty {
    #[cycle(types)]
    fn drop(self) {
        match self {
            Ty::Simple(_) => {}
            Ty::Pointer { number: _ } => {}
            Ty::Nil => {}
            Ty::Set {
                at: _,
                packing: _,
                base: _,
            } => {}
            Ty::EmptySet => {}
            Ty::Text { length: _ } => {}
            Ty::Array {
                at: _,
                packed: _,
                index: _,
                component: _,
            } => {}
            Ty::Record {
                at: _,
                packed: _,
                fields: _,
            } => {}
        }
    }
}

impl Ty {
    /// Drops the type except for the largest type within it, by cells, that no other type shares.
    #[cycle(types)]
    fn largest_within(self) -> Option<Ty>
        ensures { IfSome result (λ ty. size-Ty ty < size-Ty self) }
    {
        match self {
            Ty::Array {
                at: _,
                packed: _,
                index: _,
                component,
            } => match Rc::into_inner(component) {
                None => None,
                Some(inner) => Some(inner.into_type()),
            },
            Ty::Record {
                at: _,
                packed: _,
                fields,
            } => match Rc::into_inner(fields) {
                None => None,
                Some(inner) => {
                    let mut types = inner.into_types();
                    take_largest(&mut types)
                }
            },
            Ty::Simple(_) => None,
            Ty::Pointer { number: _ } => None,
            Ty::Nil => None,
            Ty::Set {
                at: _,
                packing: _,
                base: _,
            } => None,
            Ty::EmptySet => None,
            Ty::Text { length: _ } => None,
        }
    }
}

impl Drop for Component {
    #[cycle(types)]
    fn drop(self) {
        let Component {
            ty,
            core,
            cell_count: _,
            byte_count: _,
        } = self;
        drop(core);
        release(ty);
    }
}

impl Drop for Fields {
    #[cycle(types)]
    fn drop(self) {
        let Fields {
            names,
            code,
            types,
            solid,
            offsets,
            cell_count: _,
            byte_count: _,
        } = self;
        drop(names);
        drop(code);
        drop(offsets);
        drop(solid);
        release_all(types);
    }
}

/// Drops types, the one with the most cells last.
#[cycle(types)]
fn release_all(types: Vec<Ty>) {
    let mut rest = types;
    if let Some(largest) = take_largest(&mut rest) {
        drop(rest);
        release(largest);
    }
}

/// Drops a type, and in this loop the types within it that no other type shares. Among the fields of a record the one
/// with the most cells is last: each other has at most half of the record's cells. So deeply nested types need little
/// stack. A core is dropped before the type that contains it, which shares it.
#[cycle(types)]
fn release(ty: Ty) {
    let mut rest = ty;
    while let Some(inner) = rest.largest_within() {
        rest = inner;
    }
}

impl Model for Component {
    ghost use Rattle.ps_tree.specs.Types.{DataType};
    ghost use Rattle.ps_tree.specs.TypeCode.{type_code};

    ghost Value = { DataType };

    ghost coded = { type_code };

    ghost use Rattle.std.specs.Prelude.{◌≡◌, ◌^◌, ◌-◌, min};
    ghost use Rattle.ps_tree.specs.Sizes.{cells, bytes, depth};
    ghost use Rattle.ps_tree.specs.Cores.{core_of};
    ghost use Rattle.ps_tree.specs.TypeView.{type_of};

    ghost view = { λ c. type_of c.ty };

    ghost invariant = { λ c. (type_of c.core ≡ core_of (type_of c.ty))
        × (c.cell_count ≡ min (cells (type_of c.ty)) (2 ^ 64 - 1))
        × (c.byte_count ≡ min (bytes (type_of c.ty)) (2 ^ 32 - 1)) };

    ghost size = { depth };

    ghost use Rattle.ps_tree.specs.TypeDepth.{deep_in_component};

    ghost size_decreases = { λ c h. deep_in_component c.ty c.core h.0 };
}

impl Model for Fields {
    ghost use Rattle.ps_tree.specs.Types.{FieldList, field_list};
    ghost use Rattle.ps_tree.specs.TypeCode.{fields_code};

    ghost Value = { FieldList };

    ghost coded = { fields_code };

    ghost use Rattle.std.specs.Prelude.{◌≡◌, ◌^◌, ◌-◌, min};
    ghost use Rattle.ps_tree.specs.NameCode.{names_code};
    ghost use Rattle.ps_tree.specs.Sizes.{record_cells, record_bytes, beginnings, depth_of_fields};
    ghost use Rattle.ps_tree.specs.Cores.{cores_of};
    ghost use Rattle.ps_tree.specs.TypeView.{types_of};

    ghost view = { λ f. field_list f.names (types_of f.types.items) };

    ghost invariant = { λ f. (types_of f.solid.items ≡ cores_of (types_of f.types.items))
        × (f.cell_count ≡ min (record_cells (field_list f.names (types_of f.types.items))) (2 ^ 64 - 1))
        × (f.byte_count ≡ min (record_bytes (field_list f.names (types_of f.types.items))) (2 ^ 32 - 1))
        × (f.offsets.items ≡ beginnings (2 ^ 32 - 1) 0 (types_of f.types.items))
        × (f.code.list.items ≡ names_code f.names) };

    ghost size = { depth_of_fields };

    ghost use Rattle.ps_tree.specs.TypeDepth.{deep_in_fields};

    ghost size_decreases = { λ f h. deep_in_fields f.names f.types.items f.solid.items h.0 };
}

impl Component {
    /// The type, as that of an array's components.
    pub fn new(ty: Ty) -> Result<Component, AllocError>
        ensures { IfOk result (λ component. component ≡ type_of ty) }
    {
        let core = ty.core().copy()?;
        let cell_count = ty.cells();
        let byte_count = ty.bytes();
        Ok(Component {
            ty,
            core,
            cell_count,
            byte_count,
        })
    }

    /// The type, which outlives the array.
    #[cycle(types)]
    #[tactic(auto, using(crate::proofs::DropLemmas::depth_of_component))]
    fn into_type(self) -> Ty
        ensures { size-Ty result ≤ 2 * depth self + 1 }
    {
        let Component {
            ty,
            core,
            cell_count: _,
            byte_count: _,
        } = self;
        drop(core);
        ty
    }

    /// The type itself.
    pub fn ty(&self) -> &Ty
        ensures { type_of result.now ≡ self.now }
    {
        &self.ty
    }

    fn core(&self) -> &Ty
        ensures { type_of result.now ≡ core_of self.now }
    {
        &self.core
    }

    fn cells(&self) -> u64
        ensures { result ≡ min (cells self.now) (2 ^ 64 - 1) }
    {
        self.cell_count
    }

    fn bytes(&self) -> u32
        ensures { result ≡ min (bytes self.now) (2 ^ 32 - 1) }
    {
        self.byte_count
    }
}

impl Fields {
    /// The fields of these names and types, in their order.
    pub fn new(alloc: Global, names: Names, types: Vec<Ty>) -> Result<Fields, AllocError>
        ensures { IfOk result (λ fields. fields ≡ field_list names (types_of types.items)) }
    {
        let words = names.code(alloc)?;
        let code = Marked::new(words);
        let offsets = offsets_of_all(alloc, types.as_slice())?;
        let cell_count = cells_of_all(types.as_slice());
        let byte_count = bytes_of_all(types.as_slice());
        let solid = cores_of_all(alloc, types.as_slice())?;
        Ok(Fields {
            names,
            code,
            types,
            solid,
            offsets,
            cell_count,
            byte_count,
        })
    }

    /// The field with this name (6.4.3.3): its number, counted from 0, and its type. A number above 2^32 - 1 can't be
    /// returned.
    pub fn find(&self, name: &[u8]) -> Option<(u32, &Ty)>
        ensures { option_map (λ f. (f.0, type_of f.1.now)) result ≡ field_in self.now name.now }
    {
        field_at(self.types.as_slice(), self.names.find(name)?)
    }

    /// The types of the fields, which outlive the record.
    #[cycle(types)]
    #[tactic(auto, using(crate::proofs::DropLemmas::deepest_of_fields))]
    fn into_types(self) -> Vec<Ty>
        ensures { deepest result.items ≤ 2 * depth_of_fields self + 1 }
    {
        let Fields {
            names,
            code,
            types,
            solid,
            offsets,
            cell_count: _,
            byte_count: _,
        } = self;
        drop(names);
        drop(code);
        drop(offsets);
        drop(solid);
        types
    }

    /// The names of the fields, in their order.
    pub fn names(&self) -> &Names
        ensures { self.now ≡ field_list result.now (field_types self.now) }
    {
        &self.names
    }

    /// Whether both have the same names, in the same order, and the same number of types. It takes no time if both are
    /// one, and else as long as to compare two texts of the names' length.
    pub fn has_names_of(&self, other: &Fields) -> bool
        ensures { IsTrue result ↔ HaveSameNames self.now other.now }
    {
        self.types.len() == other.types.len() && self.code.equals(&other.code)
    }

    /// The types of the fields, in their order.
    pub fn types(&self) -> &[Ty]
        ensures { types_of result.now ≡ field_types self.now }
    {
        self.types.as_slice()
    }

    /// The cores of the fields' types, in their order, without those that take no bytes.
    pub fn solid(&self) -> &[Ty]
        ensures { types_of result.now ≡ cores_of (field_types self.now) }
    {
        self.solid.as_slice()
    }

    /// Where the field with this number, counted from 0, begins: its offset in bytes from the record's start, at most
    /// 2^32 - 1. Past the last field it is where the record ends.
    pub fn offset(&self, number: u32) -> u32
        ensures { result ≡ min (bytes_before (field_types self.now) number) (2 ^ 32 - 1) }
    {
        match self.offsets.get(number as usize) {
            Some(offset) => *offset,
            None => self.byte_count,
        }
    }

    fn cells(&self) -> u64
        ensures { result ≡ min (record_cells self.now) (2 ^ 64 - 1) }
    {
        self.cell_count
    }

    fn bytes(&self) -> u32
        ensures { result ≡ min (record_bytes self.now) (2 ^ 32 - 1) }
    {
        self.byte_count
    }
}

//! Types: how two are related, their sizes, and the fields of records.

use ps_tree::types::{Fields, Ty, assignable, compatible};
use test_tables::Line;

/// Puts how the type of a value and that of a variable are related.
pub(crate) fn put_relation(line: &mut Line, value: &Ty, variable: &Ty) {
    let is_compatible = compatible(value, variable);
    let is_one_way = compatible(variable, value) != is_compatible;
    line.word_if("in", !is_compatible);
    line.word("compatible");
    line.word_if(", but not the other way round", is_one_way);
    line.word_if(", assignable", assignable(value, variable));
    line.word_if(", assignable back", assignable(variable, value));
}

/// Puts the cells and bytes of types.
pub(crate) fn put_sizes(line: &mut Line, types: &[Ty]) {
    for ty in types {
        line.space();
        line.valued("", &ty.cells());
        line.valued(" cells, ", &ty.bytes());
        line.word(" bytes");
    }
}

fn form(ty: &Ty) -> &'static str {
    match ty {
        Ty::Simple(_) => "simple",
        Ty::Pointer { .. } => "pointer",
        Ty::Set { .. } => "set",
        Ty::Array { .. } => "array",
        Ty::Record { .. } => "record",
        Ty::Nil | Ty::EmptySet | Ty::Text { .. } => "of no variable",
    }
}

/// Puts the field with this name: its place and the form of its type.
fn put_field(line: &mut Line, fields: &Fields, name: &str) {
    line.word(name);
    match fields.find(name.as_bytes()) {
        None => line.word(": none, "),
        Some((place, ty)) => {
            line.valued(": ", &place);
            line.words(&[" ", form(ty), ", "]);
        }
    }
}

/// Puts the fields a, b, c, and the one without a name, of the first type.
pub(crate) fn put_fields(line: &mut Line, types: &[Ty]) {
    let Some(Ty::Record { fields, .. }) = types.first() else {
        return line.word("no record");
    };
    for name in ["a", "b", "c", ""] {
        put_field(line, fields, name);
    }
    line.numbered("", fields.types().len() as u64);
    line.word(" types");
}

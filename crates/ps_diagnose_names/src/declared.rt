//! The walk through declarations.

use crate::spot::Spot;
use crate::walk::Walk;
use ps_syntax::{Block, Constant, Heading, Ordinal, Routine, Section, Structure, TypeDenoter};

impl<'a> Walk<'a> {
    #[cycle(block)]
    pub(crate) fn block(&mut self, block: &'a Block) {
        self.definitions(block);
        for routine in block.routines.as_slice() {
            match routine {
                Routine::Whole(heading, block) => {
                    self.heading(heading);
                    self.block(block)
                }
                Routine::Forward(heading) => self.heading(heading),
                Routine::Completion(_, block) => self.block(block),
            }
        }
        self.statements(block.statements.as_slice())
    }

    // The parts of a block that define constants, types and variables.
    fn definitions(&mut self, block: &'a Block) {
        for definition in block.constants.as_slice() {
            let spot = Spot::Definition(definition.name, definition.value);
            self.note(definition.value.first_token(), spot);
            self.note(behind_sign(definition.value), spot);
        }
        for definition in block.types.as_slice() {
            self.denoter(&definition.ty);
        }
        for declaration in block.variables.as_slice() {
            self.denoter(&declaration.ty);
        }
    }

    #[cycle(heading)]
    fn heading(&mut self, heading: &'a Heading) {
        let sections = match heading {
            Heading::Procedure(_, sections) => sections,
            Heading::Function(name, sections, result) => {
                self.note(result.from, Spot::Result(*name, *result));
                sections
            }
        };
        for section in sections.as_slice() {
            match section {
                Section::Value(_, name) | Section::Variable(_, name) => {
                    self.note(name.from, Spot::TypeName(*name));
                }
                Section::Routine(heading) => self.heading(heading),
            }
        }
    }

    #[cycle(denoter)]
    fn denoter(&mut self, denoter: &'a TypeDenoter) {
        match denoter {
            TypeDenoter::Ordinal(ordinal) => self.ordinal(ordinal),
            TypeDenoter::Pointer(_, name) => self.note(name.from, Spot::TypeName(*name)),
            TypeDenoter::Structure(structure) | TypeDenoter::Packed(_, structure) => {
                self.structure(structure)
            }
        }
    }

    #[cycle(denoter)]
    fn structure(&mut self, structure: &'a Structure) {
        match structure {
            Structure::Array(_, indices, component) => {
                self.index_types(indices.as_slice());
                self.denoter(component.get())
            }
            Structure::Record(_, fields) => {
                for section in fields.as_slice() {
                    self.denoter(&section.ty);
                }
            }
            Structure::Set(at, base) => {
                self.note(at.from, Spot::SetType(base));
                self.note(base.first_token(), Spot::SetType(base));
                self.ordinal(base)
            }
        }
    }

    fn index_types(&mut self, indices: &'a [Ordinal]) {
        for index in indices {
            self.note(index.first_token(), Spot::IndexType(index));
            self.ordinal(index);
        }
    }

    fn ordinal(&mut self, ordinal: &'a Ordinal) {
        match ordinal {
            Ordinal::Name(name) => self.note(name.from, Spot::TypeName(*name)),
            Ordinal::Enumeration(..) => {}
            Ordinal::Subrange(low, high) => {
                let spot = Spot::Range(*low, *high);
                self.note(low.first_token(), spot);
                self.note(high.first_token(), spot);
                self.note(behind_sign(*low), spot);
                self.note(behind_sign(*high), spot)
            }
        }
    }
}

/// Where a constant begins after its sign.
pub(crate) fn behind_sign(constant: Constant) -> u32 {
    match constant {
        Constant::Number(_, at) | Constant::Name(_, at) | Constant::Text(at) => at.from,
    }
}

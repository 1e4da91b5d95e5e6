//! Routines, files and limits (42 to 45).

use crate::context::Context;
use crate::why::{Change, Help, Mark, Why};
use ps_diagnose::RequiredName;
use ps_diagnose_outline::{Form, Point, PointKind};
use ps_scan::Kind;

const VARIABLES: &str =
    "the variables of `@p` have more than 100,000 cells together, the most allowed";

const COPIES: &str =
    "the variables of `@p` and the copies for calls have more than 100,000 cells together, the most allowed";

impl<'a> Context<'a> {
    /// A heading whose block never follows.
    pub(crate) fn forward_open(&self, why: &mut Why) -> bool {
        let word = match self.outline.token_before(self.fault.place.from) {
            Some(token) => token.span,
            None => self.fault.place,
        };
        why.form = "`@p` was declared with `forward`, but its block never follows";
        why.text = word;
        why.help = Help::Is("its block comes after it: @x @p; begin .. end;");
        true
    }

    /// A file that the heading of the program lacks.
    pub(crate) fn no_file(&self, why: &mut Why) -> bool {
        let required = self.required(self.fault.place);
        match file_of(required) {
            Some(file) => {
                why.form = match required {
                    Some(RequiredName::Input | RequiredName::Output) => {
                        "`@w` is not in the heading of the program"
                    }
                    _ => "`@p` needs `@w` in the heading of the program",
                };
                let name = if file {
                    RequiredName::Output
                } else {
                    RequiredName::Input
                };
                why.word = name.spelling();
                why.change = self.file_change(file);
                true
            }
            None => false,
        }
    }

    // Tries a file in the heading, with the other one if that is lacking too.
    fn file_change(&self, is_output: bool) -> Change {
        let name = self.outline.program_name();
        match self.outline.program_parameters().last() {
            Some(last) => Change::Behind(*last, "", ", @w"),
            None if self.lacks_both(is_output) => Change::Behind(name, "", "(input, output)"),
            None => Change::Behind(name, "", "(@w)"),
        }
    }

    // Whether the text needs the other file too.
    fn lacks_both(&self, is_output: bool) -> bool {
        for token in self.fault.tokens {
            if token.kind == Kind::Name {
                match file_of(self.required(token.span)) {
                    Some(other) if other != is_output => return true,
                    _ => {}
                }
            }
        }
        false
    }

    /// A limit.
    pub(crate) fn limit(&self, why: &mut Why) -> bool {
        let is_type = match self.token_at(self.fault.place.from) {
            Some(token) => matches!(
                token.kind,
                Kind::Array | Kind::Record | Kind::Packed | Kind::Set | Kind::Number | Kind::Minus
            ),
            None => false,
        };
        if is_type {
            why.form = "this type has more than 100,000 cells, the most allowed";
            return true;
        }
        let routine = match self.declared_here() {
            Some(point) if point.formals.is_some() => Some(point.count),
            _ => None,
        };
        why.number = i64::from(routine.unwrap_or(0));
        why.form = match routine {
            Some(count) if count > 32 => "`@p` has @N parameters, and at most 32 are allowed",
            Some(_) if self.depth_here() > 15 => "`@p` is more than 15 routines deep",
            None if self.outline.program_name().from != self.fault.place.from => {
                "`@p` passes a limit of this compiler"
            }
            _ => return self.too_many_cells(why),
        };
        true
    }

    // The cells of a block, of which each call has some for each array or record that it passes by value.
    fn too_many_cells(&self, why: &mut Why) -> bool {
        why.form = VARIABLES;
        for point in self.outline.points() {
            let form = self.outline.form_of(point.ty);
            let is_copied = matches!(form, Some(Form::Array { .. } | Form::Record(_)));
            if is_copied && matches!(point.kind, PointKind::ValueParameter) {
                why.form = COPIES;
                why.help = Help::Is("a `var` parameter is not copied");
            }
        }
        true
    }

    // How many routines enclose the place.
    fn depth_here(&self) -> u32 {
        let mut depth: u32 = 0;
        let mut at = self.outline.block_at(self.fault.place.from);
        for _ in 0..1000 {
            match self.outline.region(at) {
                Some(region) if at != 0 => {
                    at = region.around;
                    depth = depth.saturating_add(1);
                }
                _ => break,
            }
        }
        depth
    }

    /// A function without a result.
    pub(crate) fn no_result(&self, why: &mut Why) -> bool {
        why.form = "nothing in the block of `@p` assigns its result";
        why.help = Help::Is("assign it to the name of the function: `@p := ..`");
        if let Some(hiding) = self.hiding_function() {
            why.mark = Mark::At("this hides the function", hiding.name);
            why.help = Help::Is("remove this declaration: `@p := ..` then assigns the result");
        }
        true
    }

    // What is declared by the name of the function at the place in its own block.
    fn hiding_function(&self) -> Option<Point> {
        let function = self.declared_here()?;
        self.outline.point_in(function.formals?, function.spelling)
    }
}

// Whether a required name needs the output, or the input.
fn file_of(required: Option<RequiredName>) -> Option<bool> {
    match required? {
        RequiredName::Write | RequiredName::Writeln | RequiredName::Output => Some(true),
        RequiredName::Read
        | RequiredName::Readln
        | RequiredName::Eof
        | RequiredName::Eoln
        | RequiredName::Input => Some(false),
        _ => None,
    }
}

//! The constants, types and variables of a block.

ghost use Rattle.std.specs.Prelude.{◌≡◌, ◌+◌, ℕ, [], None, Some, map, length, IfNone, IfSome};
ghost use Rattle.ps_syntax.specs.First.{first_of_type};
ghost use Rattle.ps_tree.specs.Types.{DataType};
ghost use Rattle.ps_tree.specs.View.{type_of};
ghost use Rattle.ps_check_judgement.specs.Judged.{Judged, Told, Answers, steps};
ghost use Rattle.ps_check_names.specs.Regions.{one_more};
ghost use Rattle.ps_check_names.specs.Views.{constant_of, meaning_of, point_of};
ghost use Rattle.ps_check_declarations.specs.Denoters.{Declared as DeclaredSpec, begin, denoter};
ghost use Rattle.ps_check_declarations.specs.Declarations.{meaning_of_constant, is_limit, told_at_name, domain_at};
ghost use Rattle.ps_check_declarations.specs.Declarations.{define_constant, define_type, resolve_domain};
ghost use Rattle.ps_check_declarations.specs.Declarations.{resolve_domains, declare_variable, declare_variables};
ghost use Rattle.ps_check_declarations.specs.Declarations.{declarations};
ghost use Rattle.ps_check_declarations.specs.Hiding.{Covers};
ghost use Rattle.ps_check_declarations.specs.Views.{frame_of, declared_of, hidden_of};

use crate::denoters::{constant_in, denoter};
use crate::frame::{Declared, Frame, Hidden, Parts, Place};
use crate::hiding::HidingNames;
use crate::points::is_later;
use ps_check_judgement::answer::broken;
use ps_check_judgement::refusal::{CheckFault, Rule};
use ps_check_names::constants::{ConstantValue, misplacement};
use ps_check_names::meaning::Meaning;
use ps_check_names::scope::{Found, Scope};
use ps_syntax::{ConstantDefinition, TypeDefinition, Variables};
use ps_text::Span;
use ps_tree::names::Names;
use ps_tree::types::Ty;
use std::alloc::Global;

/// What a constant definition gives its name.
#[tactic(auto, unfolding(crate::specs::Declarations::meaning_of_constant, ps_check_names::specs::Views::meaning_of, ps_check_names::specs::Views::constant_of))]
fn meaning_of_constant(value: ConstantValue) -> Meaning
    ensures { meaning_of result ≡ meaning_of_constant (constant_of value) }
{
    match value {
        ConstantValue::Ordinal(ordinal, value) => Meaning::Constant { ordinal, value },
        ConstantValue::Text(characters) => Meaning::Text(characters),
    }
}

/// Begins one more definition, of a name that is new.
fn begin(
    frame: &Frame,
    alloc: Global,
    known: &[Meaning],
    begun: &mut Names,
    name: Span,
) -> Result<(), CheckFault>
    ensures { Answers result (λ _. begun.new) (begin (frame_of frame.now) (map meaning_of known.now) begun.old name) }
{
    let spelling = frame.reading.name(alloc, name)?;
    if !is_later(frame.names, known.len(), spelling.as_slice()) {
        return Err(broken(Rule::Twice, name.from));
    }
    if !begun.add(spelling)? {
        return Err(broken(Rule::Twice, name.from));
    }
    Ok(())
}

/// The names of a declaration of variables, each of which is new.
#[tactic(auto, using(ps_check_judgement::proofs::Lists::stepped_start, ps_check_judgement::proofs::Lists::stepped_next, ps_check_judgement::proofs::Lists::stepped_fault, ps_check_judgement::proofs::Lists::stepped_end))]
fn begin_all(
    frame: &Frame,
    alloc: Global,
    known: &[Meaning],
    names: &[Span],
) -> Result<Names, CheckFault>
    ensures { Answers result (λ begun. begun)
        (steps (begin (frame_of frame.now) (map meaning_of known.now)) [] names.now) }
{
    let mut begun = Names::new(alloc, frame.reading.seed);
    for name in names {
        begin(frame, alloc, known, &mut begun, *name)?;
    }
    Ok(begun)
}

/// One definition in progress.
fn begin_one(
    frame: &Frame,
    alloc: Global,
    known: &[Meaning],
    name: Span,
) -> Result<Names, CheckFault>
    ensures { Answers result (λ begun. begun) (begin (frame_of frame.now) (map meaning_of known.now) [] name) }
{
    let mut begun = Names::new(alloc, frame.reading.seed);
    begin(frame, alloc, known, &mut begun, name)?;
    Ok(begun)
}

/// A constant definition.
#[tactic(auto, using(crate::proofs::HidingLemmas::nothing_covered), unfolding(crate::specs::Declarations::define_constant, crate::specs::Views::hidden_of))]
fn define_constant(
    frame: &Frame,
    alloc: Global,
    declared: &mut Declared,
    definition: &ConstantDefinition,
) -> Result<(), CheckFault>
    ensures { Answers result (λ _. declared_of declared.new)
        (define_constant (frame_of frame.now) (declared_of declared.old) definition.now) }
{
    let known = declared.known.as_slice();
    let _begun = begin_one(frame, alloc, known, definition.name)?;
    let place = Place {
        alloc,
        frame: *frame,
        hidden: Hidden::Nothing,
    };
    let hiding = HidingNames::new(alloc, frame.reading.seed);
    let value = constant_in(&place, &hiding, known, definition.value)?;
    declared.known.push(meaning_of_constant(value))?;
    Ok(())
}

/// The fault to report for a type definition whose denoter's first token is at `first`: a limit that is exceeded there
/// is reported at the name being defined.
#[tactic(auto, unfolding(crate::specs::Declarations::is_limit, crate::specs::Declarations::told_at_name))]
fn told_at_name(fault: CheckFault, first: u32, name: u32) -> CheckFault
    ensures { (j : Judged (DataType × DeclaredSpec)) → Told fault j → Told result (told_at_name first name j) }
{
    match fault {
        CheckFault::Broken {
            rule: Rule::Limit,
            at,
        } if at == first => broken(Rule::Limit, name),
        _ => fault,
    }
}

/// The type of a definition.
#[tactic(auto, unfolding(crate::specs::Declarations::told_at_name))]
fn defined_type(
    place: &Place,
    hiding: &mut HidingNames,
    declared: &mut Declared,
    definition: &TypeDefinition,
) -> Result<Ty, CheckFault>
    requires { Covers hiding.old (hidden_of place.now.hidden) }
    ensures { Answers result (λ ty. (type_of ty, declared_of declared.new))
        (told_at_name (first_of_type definition.now.ty) definition.now.name.from
        (denoter (frame_of place.now.frame) definition.now.ty (hidden_of place.now.hidden)
        (declared_of declared.old))) }
{
    match denoter(&definition.ty, place, hiding, declared) {
        Ok(ty) => Ok(ty),
        Err(fault) => {
            let first = definition.ty.first_token();
            Err(told_at_name(fault, first, definition.name.from))
        }
    }
}

/// A type definition.
#[tactic(auto, using(crate::proofs::HidingLemmas::nothing_covered), unfolding(crate::specs::Declarations::define_type, crate::specs::Views::hidden_of, ps_check_names::specs::Views::meaning_of))]
fn define_type(
    frame: &Frame,
    alloc: Global,
    declared: &mut Declared,
    definition: &TypeDefinition,
) -> Result<(), CheckFault>
    ensures { Answers result (λ _. declared_of declared.new)
        (define_type (frame_of frame.now) (declared_of declared.old) definition.now) }
{
    let begun = begin_one(frame, alloc, declared.known.as_slice(), definition.name)?;
    let hidden = Hidden::Nothing;
    let place = Place {
        alloc,
        frame: Frame {
            reading: frame.reading,
            routine: frame.routine,
            names: frame.names,
            begun: &begun,
            outer: frame.outer,
        },
        hidden,
    };
    let mut hiding = HidingNames::new(alloc, frame.reading.seed);
    let ty = defined_type(&place, &mut hiding, declared, definition)?;
    declared.known.push(Meaning::Type(ty))?;
    Ok(())
}

/// The domain type denoted by a name for which this was found.
#[tactic(auto, unfolding(crate::specs::Declarations::domain_at, crate::specs::Denoters::type_at, ps_check_names::specs::Views::meaning_of))]
fn domain_at(found: &Found, later: bool, at: u32) -> Result<Ty, CheckFault>
    ensures { Answers result (λ ty. type_of ty) (domain_at later at (point_of found.now)) }
{
    match found {
        Found::Name {
            meaning: Meaning::Type(ty),
            ..
        } => Ok(ty.copy()?),
        _ => {
            let rule = if later {
                Rule::UsedBefore
            } else {
                misplacement(found)
            };
            Err(broken(rule, at))
        }
    }
}

/// A pending domain type, at the end of its part; the first `count` names were known before it.
#[tactic(auto, unfolding(crate::specs::Declarations::resolve_domain, ps_check_names::specs::Views::scope_of))]
fn resolve_domain(
    frame: &Frame,
    alloc: Global,
    declared: &mut Declared,
    name: Span,
    count: usize,
) -> Result<(), CheckFault>
    ensures { Answers result (λ _. declared_of declared.new)
        (resolve_domain (frame_of frame.now) (declared_of declared.old) (name, count)) }
{
    let scope = Scope::Block {
        routine: frame.routine,
        names: frame.names,
        known: declared.known.as_slice(),
        outer: frame.outer,
    };
    let found = frame.reading.denoted(alloc, &scope, name)?;
    let spelling = frame.reading.spelling(alloc, name)?;
    let later = is_later(frame.names, count, spelling.as_slice());
    let ty = domain_at(&found, later, name.from)?;
    declared.domains.push(ty)?;
    Ok(())
}

/// The end of a part: each pending domain type becomes the type that its name denotes there.
#[tactic(auto, using(ps_check_judgement::proofs::Lists::stepped_start, ps_check_judgement::proofs::Lists::stepped_next, ps_check_judgement::proofs::Lists::stepped_fault, ps_check_judgement::proofs::Lists::stepped_end), unfolding(crate::specs::Declarations::resolve_domains))]
fn resolve_domains(frame: &Frame, alloc: Global, declared: &mut Declared) -> Result<(), CheckFault>
    ensures { Answers result (λ _. declared_of declared.new)
        (resolve_domains (frame_of frame.now) (declared_of declared.old)) }
{
    for i in 0..declared.pending.len() {
        let (name, count) = declared.pending[i];
        resolve_domain(frame, alloc, declared, name, count)?;
    }
    declared.pending.clear();
    Ok(())
}

/// One more variable of a type, after `first` entries and the variables before it.
#[tactic(auto, unfolding(ps_check_names::specs::Views::meaning_of))]
fn declare_variable(
    first: u32,
    ty: &Ty,
    declared: &mut Declared,
    name: Span,
) -> Result<(), CheckFault>
    ensures { Answers result (λ _. declared_of declared.new)
        (declare_variable first (type_of ty.now) (declared_of declared.old) name) }
{
    let Some(entry) = entry_behind(first, declared.variables.len()) else {
        return Err(broken(Rule::Limit, name.from));
    };
    declared.known.push(Meaning::Variable {
        entry,
        ty: ty.copy()?,
    })?;
    declared.variables.push(ty.copy()?)?;
    Ok(())
}

/// The entry after these, if there may be one more.
fn entry_behind(first: u32, variables: usize) -> Option<u32>
    ensures none { IfNone result (one_more (first + variables) ≡ None) }
    ensures some { IfSome result (λ entry. (entry ≡ first + variables)
        × (one_more (first + variables) ≡ Some (first + variables + 1))) }
{
    if variables >= (u32::MAX - first) as usize {
        None
    } else {
        Some(first + variables as u32)
    }
}

/// The variables of one declaration.
#[tactic(auto, using(ps_check_judgement::proofs::Lists::stepped_start, ps_check_judgement::proofs::Lists::stepped_next, ps_check_judgement::proofs::Lists::stepped_fault, ps_check_judgement::proofs::Lists::stepped_end))]
fn declare_names(
    first: u32,
    ty: &Ty,
    declared: &mut Declared,
    names: &[Span],
) -> Result<(), CheckFault>
    ensures { Answers result (λ _. declared_of declared.new)
        (steps (declare_variable first (type_of ty.now)) (declared_of declared.old) names.now) }
{
    for name in names {
        declare_variable(first, ty, declared, *name)?;
    }
    Ok(())
}

/// A declaration of variables.
#[tactic(auto, using(crate::proofs::HidingLemmas::covers_first), unfolding(crate::specs::Declarations::declare_variables, crate::specs::Views::hidden_of))]
fn declare_variables(
    frame: &Frame,
    alloc: Global,
    first: u32,
    declared: &mut Declared,
    declaration: &Variables,
) -> Result<(), CheckFault>
    ensures { Answers result (λ _. declared_of declared.new)
        (declare_variables (frame_of frame.now) first (declared_of declared.old) declaration.now) }
{
    let names = declaration.names.as_slice();
    let begun = begin_all(frame, alloc, declared.known.as_slice(), names)?;
    let place = Place {
        alloc,
        frame: Frame {
            reading: frame.reading,
            routine: frame.routine,
            names: frame.names,
            begun: &begun,
            outer: frame.outer,
        },
        hidden: Hidden::Own {
            names: &begun,
            defined: begun.len(),
            outer: &Hidden::Nothing,
        },
    };
    let mut hiding = HidingNames::new(alloc, frame.reading.seed);
    hiding.enter(alloc, &begun)?;
    let ty = denoter(&declaration.ty, &place, &mut hiding, declared)?;
    declare_names(first, &ty, declared, names)
}

#[tactic(auto, using(ps_check_judgement::proofs::Lists::stepped_start, ps_check_judgement::proofs::Lists::stepped_next, ps_check_judgement::proofs::Lists::stepped_fault, ps_check_judgement::proofs::Lists::stepped_end))]
fn define_constants(
    frame: &Frame,
    alloc: Global,
    declared: &mut Declared,
    definitions: &[ConstantDefinition],
) -> Result<(), CheckFault>
    ensures { Answers result (λ _. declared_of declared.new)
        (steps (define_constant (frame_of frame.now)) (declared_of declared.old) definitions.now) }
{
    for definition in definitions {
        define_constant(frame, alloc, declared, definition)?;
    }
    Ok(())
}

#[tactic(auto, using(ps_check_judgement::proofs::Lists::stepped_start, ps_check_judgement::proofs::Lists::stepped_next, ps_check_judgement::proofs::Lists::stepped_fault, ps_check_judgement::proofs::Lists::stepped_end))]
fn define_types(
    frame: &Frame,
    alloc: Global,
    declared: &mut Declared,
    definitions: &[TypeDefinition],
) -> Result<(), CheckFault>
    ensures { Answers result (λ _. declared_of declared.new)
        (steps (define_type (frame_of frame.now)) (declared_of declared.old) definitions.now) }
{
    for definition in definitions {
        define_type(frame, alloc, declared, definition)?;
    }
    Ok(())
}

#[tactic(auto, using(ps_check_judgement::proofs::Lists::stepped_start, ps_check_judgement::proofs::Lists::stepped_next, ps_check_judgement::proofs::Lists::stepped_fault, ps_check_judgement::proofs::Lists::stepped_end))]
fn declare_all(
    frame: &Frame,
    alloc: Global,
    first: u32,
    declared: &mut Declared,
    declarations: &[Variables],
) -> Result<(), CheckFault>
    ensures { Answers result (λ _. declared_of declared.new)
        (steps (declare_variables (frame_of frame.now) first) (declared_of declared.old) declarations.now) }
{
    for declaration in declarations {
        declare_variables(frame, alloc, first, declared, declaration)?;
    }
    Ok(())
}

/// The constants, types and variables of a block. The variables' entries come after the first `first` ones.
#[tactic(auto, unfolding(crate::specs::Declarations::declarations))]
pub fn declarations(
    frame: &Frame,
    alloc: Global,
    first: u32,
    declared: &mut Declared,
    parts: &Parts,
) -> Result<(), CheckFault>
    ensures { Answers result (λ _. declared_of declared.new)
        (declarations (frame_of frame.now) first
        (declared_of declared.old) parts.now.constants.now parts.now.types.now parts.now.variables.now) }
{
    define_constants(frame, alloc, declared, parts.constants)?;
    define_types(frame, alloc, declared, parts.types)?;
    resolve_domains(frame, alloc, declared)?;
    declare_all(frame, alloc, first, declared, parts.variables)?;
    resolve_domains(frame, alloc, declared)
}

// new (6.6.5.3), pack and unpack (6.6.5.4).

ghost use Rattle.std.specs.Prelude.{◌≡◌, IfOk, IfErr};
ghost use Rattle.ps_tree.specs.View.{expr_of, type_of, statement_of};
ghost use Rattle.ps_check_judgement.specs.Judged.{Answers, Told, Yes};
ghost use Rattle.ps_check_statements.specs.View.{places_of};
ghost use Rattle.ps_check_judgement.specs.Refusal.{IsFault};
ghost use Rattle.ps_check_expressions.specs.View.{context_at, regions_at};
ghost use Rattle.ps_check_statements.specs.Procedures as spec;

use crate::argument::{first_token, parameter_variable};
use crate::statement::index_at;
use ps_check_expressions::site::Site;
use ps_check_expressions::value::TypedPlace;
use ps_check_judgement::answer::{boxed_answer, broken, paired};
use ps_check_judgement::change::Change;
use ps_check_judgement::refusal::{CheckFault, Rule};
use ps_syntax::Parameter;
use ps_text::Span;
use ps_tree::tree::{Expr, Place, Statement};
use ps_tree::types::{Ordinal, Ty, same_host, same_type};
use std::alloc::Global;

/// new, which has one parameter: a variable of a pointer type.
#[tactic(auto, unfolding(crate::specs::Procedures::new_statement, crate::specs::Procedures::new_variable, ps_tree::specs::View::type_of, ps_tree::specs::View::statement_of))]
pub(crate) fn new_statement(
    parameters: &[Parameter],
    site: &Site<'_>,
    changes: &mut Vec<Change>,
    name: Span,
) -> Result<Statement, CheckFault>
    ensures { Answers result (λ s. (statement_of s, changes.new.items))
        (spec.new_statement (context_at site.now)
        (regions_at site.now) name.from parameters.now changes.old.items) }
{
    let [only] = parameters else {
        return Err(broken(Rule::NotCongruous, name.from));
    };
    let TypedPlace { place, ty, .. } = parameter_variable(only, site, changes)?;
    let Ty::Pointer { number } = &ty else {
        return Err(broken(Rule::WrongType, first_token(only)));
    };
    Ok(Statement::New {
        place,
        pointer: *number,
        line: site.reading.line(name.from),
    })
}

/// Where the first tokens of the parameters of pack and unpack are: the unpacked array, the packed one and the index.
#[derive(Clone, Copy)]
struct Places {
    unpacked: u32,
    packed: u32,
    index: u32,
}

/// Checks that an unpacked array, a packed one and an index go together.
#[tactic(auto, unfolding(crate::specs::Procedures::goes_with_pack, ps_tree::specs::View::type_of))]
fn goes_with_pack(unpacked: &Ty, packed: &Ty, index: Ordinal, at: Places) -> Result<(), CheckFault>
    ensures { Answers result (λ _. tt) (spec.goes_with_pack (places_of at) (type_of unpacked.now)
        (type_of packed.now) index) }
{
    let Ty::Array {
        packed: is_packed,
        index: bounds,
        component,
        ..
    } = unpacked
    else {
        return Err(broken(Rule::WrongType, at.unpacked));
    };
    let Ty::Array {
        packed: is_other_packed,
        component: other,
        ..
    } = packed
    else {
        return Err(broken(Rule::WrongType, at.packed));
    };
    if *is_packed {
        return Err(broken(Rule::WrongType, at.unpacked));
    }
    if !*is_other_packed || !same_type(component.ty(), other.ty()) {
        return Err(broken(Rule::WrongType, at.packed));
    }
    if !same_host(index.host, bounds.host) {
        return Err(broken(Rule::WrongType, at.index));
    }
    Ok(())
}

/// A parameter that is an index.
#[tactic(auto, unfolding(crate::specs::Procedures::parameter_value, crate::specs::Procedures::first_of_parameter))]
fn parameter_index(
    parameter: &Parameter,
    site: &Site<'_>,
    changes: &mut Vec<Change>,
) -> Result<(Expr, Ordinal), CheckFault>
    ensures { Answers result (λ v. ((expr_of v.0, v.1), changes.new.items))
        (spec.parameter_index (context_at site.now) (regions_at site.now) parameter.now changes.old.items) }
{
    match parameter {
        Parameter::Plain(expression) => index_at(expression, site, changes),
        Parameter::Width(_, width) => Err(broken(Rule::WrongType, width.get().first_token())),
    }
}

/// A variable's place and its type, each on the heap.
fn boxed_place(alloc: Global, variable: TypedPlace) -> Result<(Box<Place>, Box<Ty>), CheckFault>
    ensures place { IfOk result (λ pair. variable.place ≡ pair.0.value) }
    ensures ty { IfOk result (λ pair. variable.ty ≡ pair.1.value) }
    ensures err { IfErr result (λ fault. IsFault fault → ⊥) }
{
    let TypedPlace { place, ty, .. } = variable;
    paired(boxed_answer(alloc, Ok(place)), boxed_answer(alloc, Ok(ty)))
}

/// An unpacked array and a packed one, each with its type, all on the heap. They go together, and with an index.
fn transferred(
    alloc: Global,
    unpacked: TypedPlace,
    packed: TypedPlace,
    index: Ordinal,
    at: Places,
) -> Result<((Box<Place>, Box<Ty>), (Box<Place>, Box<Ty>)), CheckFault>
    ensures ok { IfOk result (λ pair. (spec.goes_with_pack (places_of at) (type_of unpacked.ty)
        (type_of packed.ty) index ≡ Yes tt) × (unpacked.place ≡ pair.0.0.value) × (unpacked.ty ≡ pair.0.1.value)
        × (packed.place ≡ pair.1.0.value) × (packed.ty ≡ pair.1.1.value)) }
    ensures err { IfErr result (λ fault. Told fault
        (spec.goes_with_pack (places_of at) (type_of unpacked.ty) (type_of packed.ty) index)) }
{
    let fit = goes_with_pack(&unpacked.ty, &packed.ty, index, at);
    fit.and(paired(boxed_place(alloc, unpacked), boxed_place(alloc, packed)))
}

/// pack(a, i, z), whose name is at `name`
#[tactic(auto, unfolding(crate::specs::Procedures::pack_statement, crate::specs::Procedures::pack, ps_tree::specs::View::statement_of))]
pub(crate) fn pack_statement(
    parameters: &[Parameter],
    site: &Site<'_>,
    changes: &mut Vec<Change>,
    name: u32,
) -> Result<Statement, CheckFault>
    ensures { Answers result (λ s. (statement_of s, changes.new.items))
        (spec.pack_statement (context_at site.now) (regions_at site.now) name parameters.now changes.old.items) }
{
    let [a, i, z] = parameters else {
        return Err(broken(Rule::NotCongruous, name));
    };
    let at = Places {
        unpacked: first_token(a),
        packed: first_token(z),
        index: first_token(i),
    };
    let line = site.reading.line(at.index);
    let from = parameter_variable(a, site, changes);
    let rest = paired(
        parameter_index(i, site, changes),
        parameter_variable(z, site, changes),
    );
    let (unpacked, ((index, ordinal), packed)) = paired(from, rest)?;
    let ((from, from_ty), (to, to_ty)) = transferred(site.alloc, unpacked, packed, ordinal, at)?;
    Ok(Statement::Pack {
        from,
        from_ty,
        index,
        line,
        to,
        to_ty,
    })
}

/// unpack(z, a, i), whose name is at `name`
#[tactic(auto, unfolding(crate::specs::Procedures::unpack_statement, crate::specs::Procedures::unpack, ps_tree::specs::View::statement_of))]
pub(crate) fn unpack_statement(
    parameters: &[Parameter],
    site: &Site<'_>,
    changes: &mut Vec<Change>,
    name: u32,
) -> Result<Statement, CheckFault>
    ensures { Answers result (λ s. (statement_of s, changes.new.items))
        (spec.unpack_statement (context_at site.now) (regions_at site.now) name parameters.now changes.old.items) }
{
    let [z, a, i] = parameters else {
        return Err(broken(Rule::NotCongruous, name));
    };
    let at = Places {
        unpacked: first_token(a),
        packed: first_token(z),
        index: first_token(i),
    };
    let line = site.reading.line(at.index);
    let from = parameter_variable(z, site, changes);
    let rest = paired(
        parameter_variable(a, site, changes),
        parameter_index(i, site, changes),
    );
    let (packed, (unpacked, (index, ordinal))) = paired(from, rest)?;
    let ((to, to_ty), (from, from_ty)) = transferred(site.alloc, unpacked, packed, ordinal, at)?;
    Ok(Statement::Unpack {
        from,
        from_ty,
        to,
        to_ty,
        index,
        line,
    })
}

//! Set constructors and their members (ISO 7185, 6.7.1).

ghost use Rattle.std.specs.Prelude.{◌≡◌, List, [], ◌∷◌, ◌++◌, map, Some};
ghost use Rattle.ps_tree.specs.View.{expr_of, member_of};
ghost use Rattle.ps_check_judgement.specs.Judged.{Answers};
ghost use Rattle.ps_check_names.specs.Spelling.{line_in};
ghost use Rattle.ps_tree.specs.Tree as Tree;
ghost use Rattle.ps_check_expressions.specs.Expressions as spec;
ghost use Rattle.ps_check_expressions.specs.Carrying.{CarriesBoth};
ghost use Rattle.ps_check_expressions.specs.Expressions.{gathered, constructed, set_value, member_at, single, several};
ghost use Rattle.ps_check_expressions.specs.View.{context_at, regions_at, value_of};

use crate::expression::expr_value;
use crate::function::ordinal_of;
use crate::operators::{Operands, wrong_type};
use crate::site::Site;
use crate::value::TypedValue;
use ps_check_judgement::answer::paired;
use ps_check_judgement::change::Change;
use ps_check_judgement::refusal::CheckFault;
use ps_syntax::Member as SyntaxMember;
use ps_tree::tree::{Expr, Member, SetExpr};
use ps_tree::types::{Ordinal, Packing, Ty, same_host};

/// The type of a set's members so far, the last of which begins at `at`.
#[tactic(auto, unfolding(crate::specs::Expressions::gathered))]
fn joined(base: Option<Ordinal>, ordinal: Ordinal, at: u32) -> Result<Ordinal, CheckFault>
    ensures { (ms : List Tree.Member) (m : Tree.Member) → Answers result (λ o. (ms ++ m ∷ [], Some o))
        (gathered at (ms, base) (m, ordinal)) }
{
    match base {
        None => Ok(ordinal),
        Some(base) => {
            if !same_host(base.host, ordinal.host) {
                return Err(wrong_type(at));
            }
            Ok(base)
        }
    }
}

/// The set of some members; `base` is the type of the first.
#[inline(never)]
#[tactic(auto, using(crate::proofs::Judgement::members_listed, ps_tree::proofs::TreeLemmas::set_of_Constructor), unfolding(crate::specs::Expressions::constructed, crate::specs::View::value_of, ps_tree::specs::View::type_of))]
fn constructed(members: Vec<Member>, base: Option<Ordinal>) -> TypedValue
    ensures { value_of result ≡ constructed (map member_of members.items, base) }
{
    let ty = match base {
        None => Ty::EmptySet,
        Some(base) => Ty::Set {
            at: None,
            packing: Packing::Either,
            base,
        },
    };
    TypedValue::Set(SetExpr::Constructor(members), ty)
}

/// A member of one value, which begins at `at`.
#[inline(never)]
#[tactic(auto, unfolding(ps_tree::specs::View::member_of))]
fn single(site: &Site<'_>, value: TypedValue, at: u32) -> Result<(Member, Ordinal), CheckFault>
    ensures { Answers result (λ m. (member_of m.0, m.1))
        (single at (value_of value) (line_in (context_at site.now).text at)) }
{
    let (value, ordinal) = ordinal_of(value, at)?;
    let line = site.reading.line(at);
    Ok((Member::One { value, line }, ordinal))
}

/// Members from the first to the last value, by the answers for both.
#[inline(never)]
fn several(
    site: &Site<'_>,
    from: Result<TypedValue, CheckFault>,
    to: Result<TypedValue, CheckFault>,
    at: Operands,
) -> Result<(Member, Ordinal), CheckFault>
    ensures { CarriesBoth from to (λ v. value_of v) result (λ m. (member_of m.0, m.1))
        (λ v w. several at v w (line_in (context_at site.now).text at.first)) }
{
    let (from, to) = paired(from, to)?;
    let (from, to) = paired(ordinal_of(from, at.first), ordinal_of(to, at.second))?;
    range(site, from, to, at)
}

/// Members from the first to the last value, the first of which begins at `at`.
#[inline(never)]
#[tactic(auto, unfolding(ps_tree::specs::View::member_of))]
fn range(
    site: &Site<'_>,
    from: (Expr, Ordinal),
    to: (Expr, Ordinal),
    at: Operands,
) -> Result<(Member, Ordinal), CheckFault>
    ensures { Answers result (λ m. (member_of m.0, m.1))
        (spec.both at.second (expr_of from.0, from.1) (expr_of to.0, to.1)
        (line_in (context_at site.now).text at.first)) }
{
    if !same_host(from.1.host, to.1.host) {
        drop((from, to));
        return Err(wrong_type(at.second));
    }
    let member = Member::Range {
        from: from.0,
        to: to.0,
        line: site.reading.line(at.first),
    };
    Ok((member, from.1))
}

/// The value of a set constructor (6.7.1).
#[cycle(expression)]
#[inline(never)]
#[tactic(auto, using(ps_check_judgement::proofs::Lists::stepped_start, crate::proofs::CallLemmas::gathered_end))]
pub(crate) fn set_value(
    members: &[SyntaxMember],
    site: &Site<'_>,
    changes: &mut Vec<Change>,
) -> Result<TypedValue, CheckFault>
    ensures { Answers result (λ v. (value_of v, changes.new.items))
        (set_value (map (member_at (context_at site.now) (regions_at site.now)) members.now) changes.old.items) }
{
    let mut list = Vec::new(site.alloc);
    let mut base = None;
    for member in members {
        let (value, ordinal) = member_value(member, site, changes)?;
        list.push(value)?;
        base = Some(joined(base, ordinal, member.first_token())?);
    }
    Ok(constructed(list, base))
}

#[cycle(expression)]
#[inline(never)]
#[tactic(auto, using(crate::proofs::Judgement::member_one, crate::proofs::Judgement::member_range))]
fn member_value(
    member: &SyntaxMember,
    site: &Site<'_>,
    changes: &mut Vec<Change>,
) -> Result<(Member, Ordinal), CheckFault>
    ensures { Answers result (λ m. ((member_of m.0, m.1), changes.new.items))
        ((member_at (context_at site.now) (regions_at site.now) member.now).member changes.old.items) }
{
    match member {
        SyntaxMember::One(only) => {
            let only = only.get();
            let at = only.first_token();
            match expr_value(only, site, changes) {
                Ok(value) => single(site, value, at),
                Err(fault) => Err(fault),
            }
        }
        SyntaxMember::Range(from, to) => {
            let (from, to) = (from.get(), to.get());
            let at = Operands {
                first: from.first_token(),
                second: to.first_token(),
            };
            let from = expr_value(from, site, changes);
            let to = expr_value(to, site, changes);
            several(site, from, to, at)
        }
    }
}

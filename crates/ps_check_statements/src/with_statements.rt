//! The records that a `with` statement opens (ISO 7185, 6.8.3.10).

ghost use Rattle.std.specs.Prelude.{◌≡◌, ◌++◌, [], ◌∷◌, List, map, IfOk};
ghost use Rattle.ps_tree.specs.View.{type_of, place_of};
ghost use Rattle.ps_tree.specs.Tree as Tree;
ghost use Rattle.ps_check_names.specs.Regions.{RecordRegion, fields_of};
ghost use Rattle.ps_check_judgement.specs.declared.change.Change.{Change};
ghost use Rattle.ps_check_judgement.specs.Judged.{Answers};
ghost use Rattle.ps_check_judgement.specs.Changing.{through};
ghost use Rattle.ps_check_names.specs.Views.{opened_in};
ghost use Rattle.ps_check_expressions.specs.View.{context_at, regions_at};
ghost use Rattle.ps_check_statements.specs.Structured.{Opening, open_next};

use ps_check_expressions::site::Site;
use ps_check_expressions::value::TypedPlace;
use ps_check_expressions::variables::variable_place;
use ps_check_judgement::answer::broken;
use ps_check_judgement::change::Change;
use ps_check_judgement::refusal::{CheckFault, Rule};
use ps_check_names::opened::Opened;
use ps_check_names::scope::Scope;
use ps_check_names::wides::Wides;
use ps_syntax::Variable;
use ps_tree::tree::Place;
use ps_tree::types::Ty;

/// A record to be opened, and its type.
#[tactic(auto, using(ps_check_expressions::proofs::Judgement::variable_first), unfolding(crate::specs::Structured::open_next, crate::specs::Structured::record_region, ps_check_names::specs::Regions::fields_of, ps_tree::specs::View::type_of))]
fn opened_record(
    variable: &Variable,
    site: &Site<'_>,
    changes: &mut Vec<Change>,
) -> Result<(Place, Ty), CheckFault>
    ensures { (places : List Tree.Place) → Answers {A = Opening × List Change} result
        (λ p. (
          (
            places ++ place_of p.0 ∷ [],
            RecordRegion (type_of p.1) (fields_of (type_of p.1))
                ∷ regions_at site.now,
          ),
          changes.new.items,
        ))
        (open_next (context_at site.now) (places, regions_at site.now) variable.now changes.old.items) }
{
    let TypedPlace { place, ty, .. } = variable_place(variable, site, changes)?;
    let Ty::Record { .. } = &ty else {
        return Err(broken(Rule::WrongType, variable.name.from));
    };
    Ok((place, ty))
}

/// Opens a record within those before it, whose places and types are given.
#[tactic(auto, unfolding(ps_check_names::specs::Views::scope_of))]
fn open_next<'a>(
    variable: &Variable,
    site: &Site<'a>,
    changes: &mut Vec<Change>,
    places: &mut Vec<Place>,
    opened: Opened<'a>,
) -> Result<Opened<'a>, CheckFault>
    ensures opened { Answers result (λ all. (
      (
        map place_of places.new.items,
        opened_in
            (regions_at site.now) all.records.items,
      ),
      changes.new.items,
    ))
        (open_next (context_at site.now) (
          map place_of places.old.items,
          opened_in
              (regions_at site.now) opened.entry.records.items,
        ) variable.now changes.old.items) }
    ensures wides { IfOk result (λ all. all.wides.now ≡ opened.entry.wides.now) }
{
    let scope = Scope::Opened {
        records: &opened,
        outer: site.scope,
    };
    let (place, ty) = opened_record(variable, &site.within(&scope), changes)?;
    let all = opened.with(site.alloc, ty)?;
    places.push(place)?;
    Ok(all)
}

/// Opens records one after the other, each within those before it, with these wide types: their places, and the
/// records.
pub(crate) fn open_all<'a>(
    records: &[Variable],
    site: &Site<'a>,
    wides: &'a Wides,
    changes: &mut Vec<Change>,
) -> Result<(Vec<Place>, Opened<'a>), CheckFault>
    ensures opened { Answers result (λ p. (
      (map place_of p.0.items, opened_in (regions_at site.now) p.1.records.items),
      changes.new.items,
    )) (through (open_next (context_at site.now))
        ([], regions_at site.now) records.now changes.old.items) }
    ensures wides { IfOk result (λ p. p.1.wides.now ≡ wides.now) }
{
    let mut places = Vec::with_capacity(site.alloc, records.len())?;
    let mut opened = Opened::new(site.alloc, site.reading.seed, wides);
    for variable in records {
        opened = open_next(variable, site, changes, &mut places, opened)?;
    }
    Ok((places, opened))
}

// A checked program.

ghost use Rattle.std.specs.Prelude.{◌≡◌, ◌↔◌, ◌&&◌, ◌^◌, ◌-◌, ◌<◌, ◌≤◌, length, min, map, IsTrue, IsSome, IfSome};
ghost use Rattle.std.specs.Prelude.{option_map, slice_index};
ghost use Rattle.ps_tree.specs.Tree.{routine_at};
ghost use Rattle.ps_tree.specs.Counts.{capped, formals_extent, routine_extent, routine_nodes, routine_cells};
ghost use Rattle.ps_tree.specs.Counts.{variables_extent, result_extent, formal_cells, is_small, is_small_result};
ghost use Rattle.ps_tree.specs.Counts.{is_short, is_small_formal, are_small_formals, are_small};
ghost use Rattle.ps_tree.specs.Counts.{is_routine_within_limits, are_routines_within_limits, is_within_limits};
ghost use Rattle.ps_tree.specs.View.{type_of, formal_of, formals_of, routine_of, program_of};

use crate::count::{Extent, NOTHING, both, copy, count_statements};
use crate::limits::{MAX_CELLS, MAX_DEPTH, MAX_FORMALS, MAX_NODES, MAX_ROUTINES};
use crate::tree::{Formal, Routine};
use crate::types::Ty;
use std::marker::Model;

/// The cells of a formal parameter.
#[tactic(auto, unfolding(crate::specs::View::formal_of, crate::specs::Counts::formal_cells))]
fn cells_of_formal(formal: &Formal) -> u64
    ensures { result ≡ min (formal_cells (formal_of formal.now)) (2 ^ 64 - 1) }
{
    match formal {
        Formal::Value(ty) => ty.cells(),
        Formal::Variable(_) => 1,
        Formal::Routine { .. } => 2,
    }
}

/// The number of formal parameters in a heading, and their cells.
fn count_formals(formals: &[Formal]) -> Extent
    ensures { result ≡ capped (formals_extent (formals_of formals.now)) }
{
    let mut total = NOTHING;
    for formal in formals {
        let one = Extent {
            nodes: 1,
            taken: cells_of_formal(formal),
        };
        total = both(total, one);
    }
    total
}

/// The cells of a routine's variables.
fn count_variables(variables: &[Ty]) -> Extent
    ensures { result ≡ capped (variables_extent (map type_of variables.now)) }
{
    let mut total = NOTHING;
    for ty in variables {
        total = both(total, copy(ty));
    }
    total
}

/// The cells of a function's result.
#[tactic(auto, unfolding(crate::specs::Counts::result_extent))]
fn count_result(result_type: &Option<Ty>) -> Extent
    ensures { result ≡ capped (result_extent (option_map type_of result_type.now)) }
{
    match result_type {
        None => NOTHING,
        Some(ty) => copy(ty),
    }
}

impl Routine {
    fn extent(&self) -> Extent
        ensures { result ≡ capped (routine_extent (routine_of self.now)) }
    {
        let formals = count_formals(&self.formals);
        let outcome = count_result(&self.result);
        let variables = count_variables(&self.variables);
        let body = count_statements(&self.body);
        both(both(both(formals, outcome), variables), body)
    }

    /// The number of statements, operators and leading signs, operands, selectors, actual and write parameters and set
    /// members of the routine's own block, and of the formal parameters of its heading. A count of 2^64 or more is
    /// returned as 2^64 - 1.
    pub fn nodes(&self) -> u64
        ensures { result ≡ min (routine_nodes (routine_of self.now)) (2 ^ 64 - 1) }
    {
        self.extent().nodes
    }

    /// The cells of the routine's formal parameters, result and variables, and of the value parameters of array or
    /// record type at each call in its own block. A count of 2^64 or more is returned as 2^64 - 1.
    pub fn cells(&self) -> u64
        ensures { result ≡ min (routine_cells (routine_of self.now)) (2 ^ 64 - 1) }
    {
        self.extent().taken
    }

    /// Whether the routine keeps the limits: nested at most 15 deep within the program block, at most 32 formal
    /// parameters in its heading and in each within it, types of at most 100,000 cells there and for its variables,
    /// 100,000 cells and 4,194,304 nodes in all.
    #[tactic(auto, unfolding(crate::specs::Counts::is_routine_within_limits))]
    fn is_within_limits(&self) -> bool
        ensures { result ≡ is_routine_within_limits (routine_of self.now) }
    {
        let extent = self.extent();
        self.chain.len() <= MAX_DEPTH
            && is_short(&self.formals)
            && are_small_formals(&self.formals)
            && is_small_result(&self.result)
            && are_small(&self.variables)
            && extent.taken <= MAX_CELLS
            && extent.nodes <= MAX_NODES
    }
}

/// Whether the type has at most 100,000 cells.
fn is_small(ty: &Ty) -> bool
    ensures { result ≡ is_small (type_of ty.now) }
{
    ty.cells() <= MAX_CELLS
}

/// Whether the types have at most 100,000 cells each.
fn are_small(types: &[Ty]) -> bool
    ensures { result ≡ are_small (map type_of types.now) }
{
    for ty in types {
        if !is_small(ty) {
            return false;
        }
    }
    true
}

/// Whether the type of a result, if there is one, has at most 100,000 cells.
#[tactic(auto, unfolding(crate::specs::Counts::is_small_result))]
fn is_small_result(result_type: &Option<Ty>) -> bool
    ensures { result ≡ is_small_result (option_map type_of result_type.now) }
{
    match result_type {
        None => true,
        Some(ty) => is_small(ty),
    }
}

/// Whether a heading has at most 32 formal parameters.
fn is_short(formals: &[Formal]) -> bool
    ensures { result ≡ is_short (formals_of formals.now) }
{
    count_formals(formals).nodes <= MAX_FORMALS
}

/// Whether a procedural parameter's heading keeps the limits, given whether its formal parameters do.
fn heading_keeps(small: bool, formals: &[Formal], result_type: &Option<Ty>) -> bool
    ensures { result ≡ (is_short (formals_of formals.now) && small && is_small_result
        (option_map type_of result_type.now)) }
{
    is_short(formals) && small && is_small_result(result_type)
}

#[cycle(small)]
#[tactic(auto, using(crate::proofs::FormalLemmas::formal_of_Routine), unfolding(crate::specs::View::formal_of, crate::specs::Counts::is_small_formal))]
fn is_small_formal(formal: &Formal) -> bool
    ensures { result ≡ is_small_formal (formal_of formal.now) }
{
    match formal {
        Formal::Value(ty) => is_small(ty),
        Formal::Variable(ty) => is_small(ty),
        Formal::Routine { formals, result } => {
            heading_keeps(are_small_formals(formals), formals, result)
        }
    }
}

#[cycle(small)]
fn are_small_formals(formals: &[Formal]) -> bool
    ensures { result ≡ are_small_formals (formals_of formals.now) }
{
    for formal in formals {
        if !is_small_formal(formal) {
            return false;
        }
    }
    true
}

fn are_routines_within_limits(routines: &[Routine]) -> bool
    ensures { result ≡ are_routines_within_limits (map routine_of routines.now) }
{
    for routine in routines {
        if !routine.is_within_limits() {
            return false;
        }
    }
    true
}

/// Whether a program with these routines and domain types keeps the limits.
#[tactic(auto, using(crate::proofs::FormalLemmas::limits_of))]
fn are_within_limits(routines: &[Routine], domains: &[Ty]) -> bool
    ensures { result ≡ is_within_limits (program_of routines.now domains.now) }
{
    routines.len() <= MAX_ROUTINES
        && domains.len() <= MAX_ROUTINES
        && are_small(domains)
        && are_routines_within_limits(routines)
}

/// A checked program: its routines and the domain types of its pointer types, both by number. Routine 0 is the program
/// block.
pub struct Checked {
    routines: Vec<Routine>,
    domains: Vec<Ty>,
}

impl Drop for Checked {
    fn drop(self) {
        let Checked {
            routines: _,
            domains: _,
        } = self;
    }
}

impl Model for Checked {
    ghost use Rattle.std.specs.Prelude.{IsTrue};
    ghost use Rattle.ps_tree.specs.Checked.{Parts, program_in};
    ghost use Rattle.ps_tree.specs.Counts.{is_within_limits};

    ghost Value = { Parts };

    ghost use Rattle.std.specs.Coded.{codes};
    ghost use Rattle.ps_tree.specs.contracts.tree.statements.Formal as formal;
    ghost use Rattle.ps_tree.specs.contracts.tree.statements.Statement as statement;
    ghost use Rattle.ps_tree.specs.contracts.types.Ty as ty;

    ghost coded = { Prim.hlevel (codes, formal.the_row.coded, statement.the_row.coded, ty.the_row.coded) };

    ghost view = { λ a. record { routines = a.routines.items; domains = a.domains.items } };

    ghost invariant = { λ a. IsTrue (is_within_limits
        (program_in (record { routines = a.routines.items; domains = a.domains.items }))) };
}

impl Checked {
    ghost use Rattle.ps_tree.specs.Checked.{program_in};

    /// The program with these routines and domain types, if it keeps the limits: at most 1,048,576 routines and as many
    /// pointer types, types of at most 100,000 cells (domains, variables, results and formal parameters, those of a
    /// procedural parameter's heading too), and each routine nested at most 15 deep within the program block, with at
    /// most 32 formal parameters in its heading and in each within it, 100,000 cells and 4,194,304 nodes.
    pub fn new(routines: Vec<Routine>, domains: Vec<Ty>) -> Option<Checked>
        ensures limits { IsSome result ↔ IsTrue (is_within_limits (program_of routines.items domains.items)) }
        ensures routines { IfSome result (λ checked. checked.routines ≡ routines.items) }
        ensures domains { IfSome result (λ checked. checked.domains ≡ domains.items) }
    {
        if are_within_limits(&routines, &domains) {
            Some(Checked { routines, domains })
        } else {
            None
        }
    }

    /// The routines, by their numbers.
    pub fn routines(&self) -> &[Routine]
        ensures routines { result.now ≡ self.now.routines }
        ensures limits { IsTrue (is_within_limits (program_in self.now)) }
    {
        &self.routines
    }

    /// The domain types of the pointer types, by their numbers.
    pub fn domains(&self) -> &[Ty]
        ensures domains { result.now ≡ self.now.domains }
        ensures limits { IsTrue (is_within_limits (program_in self.now)) }
    {
        &self.domains
    }

    /// The cells of a routine: of its formal parameters, its result and its variables, and of the value parameters of
    /// array or record type at each call in its own block.
    pub fn cells(&self, routine: u32) -> u64
        requires { routine < length self.now.routines }
        ensures { result ≡ routine_cells (routine_at (program_in self.now) routine) }
    {
        self.routines[routine as usize].cells()
    }

    /// The nodes of a routine: the statements, operators and leading signs, operands, selectors, actual parameters,
    /// write parameters and set members in its own block, and the formal parameters of its heading.
    pub fn nodes(&self, routine: u32) -> u64
        requires { routine < length self.now.routines }
        ensures { result ≡ routine_nodes (routine_at (program_in self.now) routine) }
    {
        self.routines[routine as usize].nodes()
    }
}

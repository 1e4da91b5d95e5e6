// Chains (6.5 and 6.7.2): what comes next is added at the end of the chain before it.

ghost use Rattle.std.specs.Prelude.{◌≡◌, ◌++◌, ◌∷◌, [], IfOk};
ghost use Rattle.ps_tree.specs.View.{place_of, selector_of, expr_of, set_of};
ghost use Rattle.ps_tree.specs.Chains.{selected, calculated, begun, connected, combined};

use crate::line::Line;
use crate::tree::{
    ArithmeticOperator, ArithmeticStep, BooleanOperator, Expr, Place, Selector, SetExpr,
    SetOperator, SetStep,
};
use std::alloc::{AllocError, Global};

/// A list with one more item at its end. Most lists stay at one item, so at first there is no room for more.
fn appended<A: Drop>(list: Vec<A>, item: A) -> Result<Vec<A>, AllocError>
    ensures { IfOk result (λ longer. longer.items ≡ list.items ++ item ∷ []) }
{
    let mut longer = list;
    if longer.is_empty() {
        longer.reserve_exact(1)?;
    }
    longer.push(item)?;
    Ok(longer)
}

/// A first operand, on the heap, and the list of the one item after it.
fn chain<A: Drop, B: Drop>(alloc: Global, first: A, item: B) -> Result<(Box<A>, Vec<B>), AllocError>
    ensures first { IfOk result (λ pair. pair.0.value ≡ first) }
    ensures rest { IfOk result (λ pair. pair.1.items ≡ item ∷ []) }
{
    let first = Box::new(alloc, first)?;
    let rest = appended(Vec::new(alloc), item)?;
    Ok((first, rest))
}

impl Place {
    /// The variable with one more selector (6.5.3, 6.5.4).
    #[tactic(auto, using(crate::proofs::ChainLemmas::selectors_pushed))]
    pub fn selected(self, selector: Selector) -> Result<Place, AllocError>
        ensures { IfOk result (λ p. place_of p ≡ selected (place_of self) (selector_of selector)) }
    {
        let Place { base, selectors } = self;
        let selectors = appended(selectors, selector)?;
        Ok(Place { base, selectors })
    }
}

/// A chain of one operator on two Boolean operands.
#[tactic(auto, using(crate::proofs::ChainLemmas::begun_is))]
fn begun(
    alloc: Global,
    operator: BooleanOperator,
    first: Expr,
    operand: Expr,
) -> Result<Expr, AllocError>
    ensures { IfOk result (λ e. expr_of e ≡ begun operator (expr_of first) (expr_of operand)) }
{
    let (first, rest) = chain(alloc, first, operand)?;
    Ok(Expr::Logic {
        operator,
        first,
        rest,
    })
}

impl Expr {
    /// An operator on two integers (6.7.2.2).
    #[tactic(auto, using(crate::proofs::ChainLemmas::calculated_on, crate::proofs::ChainLemmas::calculated_begun))]
    pub fn calculated(
        self,
        alloc: Global,
        operator: ArithmeticOperator,
        line: Line,
        operand: Expr,
    ) -> Result<Expr, AllocError>
        ensures { IfOk result (λ e. expr_of e ≡ calculated operator line.number (expr_of self) (expr_of operand)) }
    {
        let step = ArithmeticStep {
            operator,
            operand,
            line,
        };
        match self {
            Expr::Arithmetic { first, steps } => {
                let steps = appended(steps, step)?;
                Ok(Expr::Arithmetic { first, steps })
            }
            first => {
                let (first, steps) = chain(alloc, first, step)?;
                Ok(Expr::Arithmetic { first, steps })
            }
        }
    }

    /// An operator on two Boolean operands (6.7.2.3).
    #[tactic(auto, using(crate::proofs::ChainLemmas::connected_on, crate::proofs::ChainLemmas::connected_other, crate::proofs::ChainLemmas::connected_begun))]
    pub fn connected(
        self,
        alloc: Global,
        operator: BooleanOperator,
        operand: Expr,
    ) -> Result<Expr, AllocError>
        ensures { IfOk result (λ e. expr_of e ≡ connected operator (expr_of self) (expr_of operand)) }
    {
        match self {
            Expr::Logic {
                operator: before,
                first,
                rest,
            } => {
                if before == operator {
                    let rest = appended(rest, operand)?;
                    Ok(Expr::Logic {
                        operator,
                        first,
                        rest,
                    })
                } else {
                    let first = Expr::Logic {
                        operator: before,
                        first,
                        rest,
                    };
                    begun(alloc, operator, first, operand)
                }
            }
            first => begun(alloc, operator, first, operand),
        }
    }
}

impl SetExpr {
    /// An operator on two sets (6.7.2.4).
    #[tactic(auto, using(crate::proofs::ChainLemmas::combined_on, crate::proofs::ChainLemmas::combined_begun))]
    pub fn combined(
        self,
        alloc: Global,
        operator: SetOperator,
        operand: SetExpr,
    ) -> Result<SetExpr, AllocError>
        ensures { IfOk result (λ e. set_of e ≡ combined operator (set_of self) (set_of operand)) }
    {
        let step = SetStep { operator, operand };
        match self {
            SetExpr::Combine { first, steps } => {
                let steps = appended(steps, step)?;
                Ok(SetExpr::Combine { first, steps })
            }
            first => {
                let (first, steps) = chain(alloc, first, step)?;
                Ok(SetExpr::Combine { first, steps })
            }
        }
    }
}

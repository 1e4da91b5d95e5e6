// The least number of instructions that the code of statements can have.

ghost use Rattle.std.specs.Prelude.{ℕ, ◌≤◌, length};
ghost use Rattle.ps_tree.specs.View.{statements_of};
ghost use Rattle.ps_lower_code.specs.Scopes.{Scope};
ghost use Rattle.ps_lower_code.specs.Statements.{statements_code};

use crate::walk::add_statements;
use ps_tree::tree::Statement;

/// A lower bound on the number of instructions in the code of statements, wherever they are and at each depth. It is
/// found in one walk over the tree, without making any code, and takes no memory.
///
/// It counts what makes much code out of little text: sets and structures passed by value, and comparisons of sets. So
/// it shows that code is too long when it is far too long; for other code it may be far below the true number.
pub fn fewest(statements: &[Statement]) -> u64
    ensures { (k : Scope) (d : ℕ) → result ≤ length (statements_code k (statements_of statements.now) d) }
{
    let mut count = 0;
    add_statements(statements, &mut count);
    count
}

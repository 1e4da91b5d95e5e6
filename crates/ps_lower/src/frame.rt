// The words of variables, and where the entries of a routine's frame are.

ghost use Rattle.std.specs.Prelude.{◌≡◌, ◌≤◌};
ghost use Rattle.ps_lower_layout.specs.Shapes.{shape_of, word_count, byte_count};
ghost use Rattle.ps_tree.specs.View.{type_of};

use crate::depth::MAX_NUMBER;
use ps_tree::types::Ty;

/// An entry of a frame: its offset in bytes, and whether it is the address of a variable.
#[derive(Clone, Copy)]
pub struct Spot {
    pub offset: u32,
    pub reference: bool,
}

/// The entries of a frame, and the words up to the end of the last.
#[derive(Drop)]
pub struct Table {
    pub spots: Vec<Spot>,
    pub words: u32,
}

/// The words of a variable.
pub fn words(ty: &Ty) -> u32
    requires { byte_count (shape_of (type_of ty.now)) ≤ MAX_NUMBER }
    ensures { result ≡ word_count (shape_of (type_of ty.now)) }
{
    ty.bytes() / 4
}

//! Laws about the stack that images need, as the contracts of functions that do nothing when called.

ghost use Rattle.ps_needs_image.specs.Laws.{NeverOutOfStack, NeverOutOfHeap};

use ps_needs::needs_enough;

/// An image that does what the program of a text means is never stopped for stack, on any input and however long it
/// runs, if the stack can hold the frames of each path of calls of the program, with the sizes in the image's own
/// table.
pub fn never_out_of_stack()
    ensures { NeverOutOfStack }
{
    needs_enough();
}

/// An image without a row for a stop for heap in its trap table is never stopped for heap.
pub fn never_out_of_heap()
    ensures { NeverOutOfHeap }
{}

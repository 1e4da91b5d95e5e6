//! Laws: the relation between states of three-address code and of the machine, and that each kind of step keeps it.
//!
//! For proofs that follow an instruction by its words. The functions do nothing when called; each exists for its
//! contract.
#![tactic(auto)]

ghost use Rattle.risc_emit_relation.specs.Laws.{RelatedStarts, RelationIsMet, OperandsStand, RelatedGoes, RelatedGives};
ghost use Rattle.risc_emit_relation.specs.Laws.{LoadsFind, BytesFound, StoresKeep, ByteStoresKeep, RelatedStores};
ghost use Rattle.risc_emit_relation.specs.Laws.{RelatedEnters, RelatedLeaves, RelatedMakes, WalkIsOpenCalls};
ghost use Rattle.risc_emit_relation.specs.Laws.{StackIsExact, HeapIsExact};

/// After the entry of the program block the states belong together.
#[tactic(auto, using(crate::proofs::Start::related_starts))]
pub fn related_starts()
    ensures { RelatedStarts }
{}

/// What the relation requires can be met.
#[tactic(auto, using(crate::proofs::Example::relation_is_met))]
pub fn relation_is_met()
    ensures { RelationIsMet }
{}

/// What an instruction reads is in its home.
pub fn operands_stand()
    ensures { OperandsStand }
{}

/// An instruction that writes no temporary.
pub fn related_goes()
    ensures { RelatedGoes }
{}

/// An instruction that writes a temporary.
pub fn related_gives()
    ensures { RelatedGives }
{}

/// A word that is loaded by its address.
pub fn loads_find()
    ensures { LoadsFind }
{}

/// A byte that is loaded by its address.
#[tactic(auto, using(crate::proofs::Kept::load_byte_found))]
pub fn bytes_found()
    ensures { BytesFound }
{}

/// A word that is stored by its address, whichever block it points to.
#[tactic(auto, using(crate::proofs::Kept::store_kept))]
pub fn stores_keep()
    ensures { StoresKeep }
{}

/// A byte that is stored by its address.
#[tactic(auto, using(crate::proofs::Kept::store_byte_kept))]
pub fn byte_stores_keep()
    ensures { ByteStoresKeep }
{}

/// An instruction that stores by an address.
pub fn related_stores()
    ensures { RelatedStores }
{}

/// A call, up to the callee's first instruction.
pub fn related_enters()
    ensures { RelatedEnters }
{}

/// A return, up to the caller's next instruction.
pub fn related_leaves()
    ensures { RelatedLeaves }
{}

/// A new object.
pub fn related_makes()
    ensures { RelatedMakes }
{}

/// The walk over the frames finds the lines of the open calls.
#[tactic(auto, using(crate::proofs::Walk::walk_is))]
pub fn walk_is_open_calls()
    ensures { WalkIsOpenCalls }
{}

/// The test at a routine's entry is that of the stack's budget.
pub fn stack_is_exact()
    ensures { StackIsExact }
{}

/// The test before a new object is that of the heap's budget.
#[tactic(auto, using(crate::proofs::Walk::heap_exact))]
pub fn heap_is_exact()
    ensures { HeapIsExact }
{}

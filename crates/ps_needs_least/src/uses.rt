// What a block does with routines.

ghost use Rattle.std.specs.Prelude.{◌∷◌, []};
ghost use Rattle.ps_needs_least.specs.Gathered.{Adds};

/// What a block does with a routine, by the routine's number.
#[derive(Clone, Copy)]
pub enum Use {
    /// A function designator or a procedure statement with the routine's name (6.7.3, 6.8.2.3).
    Called(u32),
    /// The routine is an actual parameter (6.6.3.4, 6.6.3.5).
    Passed(u32),
    /// A function designator or a procedure statement with the name of a functional or procedural parameter.
    ParameterCalled,
}

/// The uses found so far. `lost` is set once out of memory; the list then means nothing.
pub(crate) struct Found {
    pub list: Vec<Use>,
    pub lost: bool,
}

impl Found {
    pub fn add(&mut self, part: Use)
        ensures { Adds self.old self.new (part ∷ []) }
    {
        match self.list.push(part) {
            Ok(()) => {}
            Err(_) => self.lost = true,
        }
    }
}

// Temporaries by their classes: what is live across a call is in an odd one, everything else in an even one.

ghost use Rattle.std.specs.Prelude.{◌≡◌, ◌+◌, ◌≤◌, suc, true};
ghost use Rattle.ps_lower_code.specs.Scopes.{even_from, held, kept, beside};

/// The greatest number that the code may contain, depths included. The weight of the tree keeps all of them below it.
pub const MAX_NUMBER: u32 = 0x7FFF_FFFF;

/// The first even temporary from d on.
pub fn even_from(d: u32) -> u32
    requires { d ≤ 4294967100 }
    ensures value { result ≡ even_from d }
    ensures small { result ≤ d + 1 }
{
    d + d % 2
}

/// The first even temporary above t.
pub fn even_above(t: u32) -> u32
    requires { t ≤ 4294967000 }
    ensures value { result ≡ even_from (suc t) }
    ensures small { result ≤ t + 2 }
{
    even_from(t + 1)
}

fn odd_from(d: u32) -> u32
    requires { d ≤ 4294967000 }
    ensures value { result ≡ held true d }
    ensures small { result ≤ d + 1 }
{
    d + (d + 1) % 2
}

/// The temporary of a value that is held while other code runs, which may call.
pub fn held(calls: bool, d: u32) -> u32
    requires { d ≤ 4294967000 }
    ensures value { result ≡ held calls d }
    ensures small { result ≤ d + 1 }
{
    if calls { odd_from(d) } else { even_from(d) }
}

/// The same, if either class will do when nothing calls.
pub fn kept(calls: bool, d: u32) -> u32
    requires { d ≤ 4294967000 }
    ensures value { result ≡ kept calls d }
    ensures small { result ≤ d + 1 }
{
    if calls { odd_from(d) } else { d }
}

/// The next temporary.
pub fn next(t: u32) -> u32
    requires { t ≤ 4294967000 }
    ensures value { result ≡ suc t }
    ensures small { result ≤ t + 1 }
{
    t + 1
}

/// The next temporary of the same class.
pub fn beside(t: u32) -> u32
    requires { t ≤ 4294967000 }
    ensures value { result ≡ beside t }
    ensures small { result ≤ t + 2 }
{
    t + 2
}

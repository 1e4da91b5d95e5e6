// Numbers for narrower fields.

ghost use Rattle.std.specs.Prelude.{◌≡◌, ◌≤◌, max};

/// A number as four bytes.
pub fn narrow(number: u64) -> u32
    requires { number ≤ 4294967295 }
    ensures { result ≡ number }
{
    number as u32
}

/// The larger of two numbers.
pub fn larger(a: u32, b: u64) -> u32
    requires { b ≤ 4294967295 }
    ensures { result ≡ max a b }
{
    let b = narrow(b);
    if a < b { b } else { a }
}

// The fields of an instruction, each in its range.

use std::marker::Model;

/// The number of a register, at most 15.
#[derive(Clone, Copy, Debug)]
pub struct Register {
    number: u8,
}

impl Model for Register {
    ghost use Rattle.std.specs.Prelude.{ℕ, ◌<◌};

    ghost Value = { ℕ };

    ghost view = { λ a. a.number };

    ghost inverse = { λ n. record { number = n } };

    ghost invariant = { λ a. a.number < 16 };
}

ghost use Rattle.std.specs.Prelude.{◌≡◌, ℕ, ◌<◌, ◌≤◌, ◌^◌, pos, negsuc, ◌≤ℤ◌, ◌<ℤ◌};

impl Register {
    /// The register of a number, which is at most 15.
    pub fn new(number: u8) -> Register
        requires { number < 16 }
        ensures { result ≡ number }
    {
        Register { number }
    }

    /// Its number, at most 15.
    pub fn number(self) -> u8
        ensures value { result ≡ self }
        ensures range { result < 16 }
    {
        self.number
    }
}

/// A number as the second operand of an operation, from -65536 to 65535.
#[derive(Clone, Copy, Debug)]
pub struct Immediate {
    value: i32,
}

impl Model for Immediate {
    ghost use Rattle.std.specs.Prelude.{ℤ, pos, negsuc, ◌≤ℤ◌};

    ghost Value = { ℤ };

    ghost view = { λ a. a.value };

    ghost inverse = { λ n. record { value = n } };

    ghost invariant = { λ a. (negsuc 65535 ≤ℤ a.value) × (a.value ≤ℤ pos 65535) };
}

impl Immediate {
    /// The number, from -65536 to 65535.
    pub fn new(value: i32) -> Immediate
        requires low { negsuc 65535 ≤ℤ value }
        requires high { value ≤ℤ pos 65535 }
        ensures { result ≡ value }
    {
        Immediate { value }
    }

    /// Its number.
    pub fn value(self) -> i32
        ensures value { result ≡ self }
        ensures low { negsuc 65535 ≤ℤ result }
        ensures high { result ≤ℤ pos 65535 }
    {
        self.value
    }
}

/// The signed offset of a load or a store in bytes, of 20 bits.
#[derive(Clone, Copy, Debug)]
pub struct Offset {
    bytes: i32,
}

impl Model for Offset {
    ghost use Rattle.std.specs.Prelude.{ℤ, pos, negsuc, ◌≤ℤ◌};

    ghost Value = { ℤ };

    ghost view = { λ a. a.bytes };

    ghost inverse = { λ n. record { bytes = n } };

    ghost invariant = { λ a. (negsuc 524287 ≤ℤ a.bytes) × (a.bytes ≤ℤ pos 524287) };
}

impl Offset {
    /// The offset of a count of bytes, from -524288 to 524287.
    pub fn new(value: i32) -> Offset
        requires low { negsuc 524287 ≤ℤ value }
        requires high { value ≤ℤ pos 524287 }
        ensures { result ≡ value }
    {
        Offset { bytes: value }
    }

    /// Its count of bytes.
    pub fn value(self) -> i32
        ensures value { result ≡ self }
        ensures low { negsuc 524287 ≤ℤ result }
        ensures high { result ≤ℤ pos 524287 }
    {
        self.bytes
    }
}

/// The signed distance of a branch in words, from the next instruction, of 24 bits.
#[derive(Clone, Copy, Debug)]
pub struct Displacement {
    words: i32,
}

impl Model for Displacement {
    ghost use Rattle.std.specs.Prelude.{ℤ, pos, negsuc, ◌≤ℤ◌};

    ghost Value = { ℤ };

    ghost view = { λ a. a.words };

    ghost inverse = { λ n. record { words = n } };

    ghost invariant = { λ a. (negsuc 8388607 ≤ℤ a.words) × (a.words ≤ℤ pos 8388607) };
}

impl Displacement {
    /// The distance of a count of words, from -8388608 to 8388607.
    pub fn new(value: i32) -> Displacement
        requires low { negsuc 8388607 ≤ℤ value }
        requires high { value ≤ℤ pos 8388607 }
        ensures { result ≡ value }
    {
        Displacement { words: value }
    }

    /// Its count of words.
    pub fn value(self) -> i32
        ensures value { result ≡ self }
        ensures low { negsuc 8388607 ≤ℤ result }
        ensures high { result ≤ℤ pos 8388607 }
    {
        self.words
    }
}

// Sets of temporaries: the bits of a word.

/// Numbers below it may be in a set.
pub const CONSIDERED: u32 = 64;

/// The set of one.
pub fn set_of(member: u32) -> u64 {
    if member < CONSIDERED {
        1u64.wrapping_shl(member)
    } else {
        0
    }
}

/// Whether it is in the set.
pub fn has(set: u64, member: u32) -> bool {
    set & set_of(member) != 0
}

/// All numbers below one.
pub fn all_below(bound: u32) -> u64 {
    if bound < CONSIDERED {
        set_of(bound).wrapping_sub(1)
    } else {
        u64::MAX
    }
}

/// The number of a place in a list, or one that is in no set.
pub fn short(index: usize) -> u32 {
    if index < CONSIDERED as usize {
        index as u32
    } else {
        CONSIDERED
    }
}

/// The least member.
pub fn least(set: u64) -> Option<u32> {
    if set == 0 {
        None
    } else {
        Some(set.trailing_zeros())
    }
}

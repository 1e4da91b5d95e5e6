//! Letters and numbers of rows.

/// The letters of a text; none if it isn't UTF-8.
pub fn letters(text: &[u8]) -> &str {
    str::from_utf8(text).unwrap_or("")
}

/// The number that a word is, 0 if it isn't one.
pub fn u64_of(word: &str) -> u64 {
    word.parse::<u64>().unwrap_or(0)
}

/// The number that a word is, 0 if it isn't one of 32 bits.
pub fn u32_of(word: &str) -> u32 {
    word.parse::<u32>().unwrap_or(0)
}

/// The number that a word is, 0 if there isn't one of 32 bits.
pub fn number(word: Option<&str>) -> u32 {
    u32_of(word.unwrap_or(""))
}

/// The number that a word is, 0 if it isn't one of 16 bits.
pub fn u16_of(word: &str) -> u16 {
    word.parse::<u16>().unwrap_or(0)
}

/// The number that a word is, 0 if it isn't one of 8 bits.
pub fn u8_of(word: &str) -> u8 {
    word.parse::<u8>().unwrap_or(0)
}

/// The number that a word is, 0 if it isn't one; it may have a sign.
pub fn i32_of(word: &str) -> i32 {
    word.parse::<i32>().unwrap_or(0)
}

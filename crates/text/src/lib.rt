// Text for a person: characters, numbers in decimal, and a few lines by value.
#![tactic(auto)]

// The character 0.
pub const ZERO_DIGIT: u8 = 48;

// A number of 64 bits has at most so many digits.
pub const DIGITS_MOST: usize = 20;

// A number that is read isn't told above this one.
pub const READ_MOST: u64 = 1000000000000000000;

// The most bytes of lines made by value.
pub const LINES_MOST: usize = 256;

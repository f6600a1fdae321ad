// A recorded session run on the drive.
#![tactic(auto)]

// The bytes of an answer: number and sense.
pub const ANSWER_SIZE: usize = 4;

// Those of the largest recording: 8,190 events.
pub const ANSWERS_MOST: usize = 32760;

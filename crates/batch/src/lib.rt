// Document 02, request 5: several events in one call.
#![tactic(auto)]

// A batch holds at most so many events.
pub const EVENTS_MOST: usize = 64;

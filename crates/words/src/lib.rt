// Beside each place the word whose bit n says that nexus n selects this place (document 02, request 7).
#![tactic(auto)]

// What the places other than 0 were found to hold so far: the bits of their owners, and whether each has an owner of its own and the word of
// that owner. The word is gathered past a place that doesn't fit too (`held_with`), so the two stand side by side.
#[derive(Clone, Copy)]
pub struct Held {
    pub word: u64,
    pub fits: bool,
}

impl Held {
    pub const NOTHING: Held = Held {
        word: 0,
        fits: true,
    };
}

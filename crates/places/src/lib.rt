// Establishing, releasing, selecting: what a page or an event does to the places.
#![tactic(auto)]

// What may release sets.
#[derive(Clone, Copy)]
pub enum Event {
    Demount,
    NexusLoss(u8),
    DeviceLoss,
    Preempt(u8),
    Microcode,
    VendorRelease(u16),
}

// A place for a LOCAL set: one that is free to take, one that is first released, or none.
#[derive(Clone, Copy)]
pub enum Room {
    Free(usize),
    Evicting(usize),
    NoRoom,
}

// Two words with one bit for each place, place 0's the lowest. Of the places for LOCAL sets `empty` has those that are empty, `unlocked`
// those whose owner has lock 0.
#[derive(Clone, Copy)]
pub struct LocalWords {
    pub empty: u32,
    pub unlocked: u32,
}

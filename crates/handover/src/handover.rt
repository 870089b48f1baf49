//! What is handed over, and the answer to it.

// Kept without a Model: what flows takes the meanings of the sink and the shelf, which would bound the type's parameters, and so narrow it.
/// The last number that was handed over, the shelf of packets that came early, and the sink that takes events.
#[derive(Drop)]
pub struct Handover<S, H> {
    pub(crate) last: u32,
    pub(crate) shelf: H,
    pub(crate) sink: S,
}

/// What a taken offer answers: last, and how many data and loss events were handed over.
#[derive(Clone, Copy, PartialEq, Eq, Debug)]
pub struct Taken {
    pub last: u32,
    pub handed: u32,
}

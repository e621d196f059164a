//! Trials.

/// An open trial, known by its plan's number and its depth alone. It has to be kept or taken back: a program that lets it go, or ends it
/// twice, is refused when it is built.
pub struct Trial {
    pub(super) plan: u32,
    pub(super) depth: usize,
}

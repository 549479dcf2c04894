//! What a call answers.

/// What a call answers: a number; or that the turn ends, and the call's answer comes with the next
/// input, an event or the name of a file; or that the story ends.
#[derive(Clone, Copy, Debug, PartialEq, Eq)]
pub enum Called {
    Value(u32),
    Wait,
    Prompt,
    Exit,
}

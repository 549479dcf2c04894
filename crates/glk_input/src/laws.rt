//! What each call leaves valid.

ghost use Rattle.glk_input.specs.Laws.{InputsStayValid};

/// A law: from valid entries every call makes valid ones, where a line begins with at most its
/// maximum and 1,024 characters and has at most 13 terminators, and windows have numbers from 1 to
/// 4,294,967,294.
pub fn windows_stay_valid()
    ensures { InputsStayValid }
{}

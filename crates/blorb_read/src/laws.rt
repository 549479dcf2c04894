//! A law of the resource index.

ghost use Rattle.blorb_read.specs.Laws.{FindsFirst};

/// The story is that of the first entry of usage `Exec` and number 0; where there is none, no entry
/// is such a one.
pub fn finds_the_first_entry()
    ensures { FindsFirst }
{}

//! Laws of the format.

ghost use Rattle.snap_fields.specs.Laws.{BeginsNoOther, FieldsHaveOneSpelling};
ghost use Rattle.snap_fields.specs.Laws.{ReadsEachSpellingOfFields};

/// What is printed of fields is read as these fields, unless memory runs out.
pub fn reads_each_spelling()
    ensures { ReadsEachSpellingOfFields }
{}

/// No two fields have the same bytes.
pub fn has_one_spelling()
    ensures { FieldsHaveOneSpelling }
{}

/// No front of a world's bytes is a world's bytes.
pub fn begins_no_other()
    ensures { BeginsNoOther }
{}

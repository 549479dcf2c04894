//! Laws of instructions.

ghost use Rattle.vm_operand.specs.Spelling.{DecodesWhatIsSpelled, SpellsWhatIsDecoded};

/// Bytes that spell an instruction are decoded as it.
pub fn decodes_what_is_spelled()
    ensures { DecodesWhatIsSpelled }
{}

/// An instruction that is decoded is spelled by the bytes at its address.
pub fn spells_what_is_decoded()
    ensures { SpellsWhatIsDecoded }
{}

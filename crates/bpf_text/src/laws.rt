//! Laws of units' texts and of their hex form, as functions that do nothing: what they ensure is the law.

ghost use Rattle.std.specs.Prelude.{◌≡◌, ℕ, List, Ok};
ghost use Rattle.bpf_insn.specs.Spelling.{program_spelling};
ghost use Rattle.bpf_insn_types.specs.{Limits.{IsUnit}, Program.{Program}};
ghost use Rattle.bpf_text.specs.{PrintedUnits.{assembler_form, hex_form}, AssemblerText.{assembler_text}};
ghost use Rattle.bpf_text.specs.HexText.{hex_text};

/// The canonical text of a unit is read back as the unit.
pub fn unit_is_read_back()
    ensures { (program : Program) (text : List ℕ) → IsUnit program
        → assembler_form program ≡ Ok text → assembler_text text ≡ Ok program }
{}

/// No two units have one canonical text.
pub fn text_of_one_unit()
    ensures { (p q : Program) (text : List ℕ) → IsUnit p → IsUnit q
        → assembler_form p ≡ Ok text → assembler_form q ≡ Ok text → p ≡ q }
{}

/// The hex form of a unit is read back as its sizes and the bytes of its instructions.
pub fn hex_is_read_back()
    ensures { (program : Program) (bytes text : List ℕ) → IsUnit program
        → program_spelling program.insns ≡ Ok bytes → hex_form program ≡ Ok text
        → hex_text text ≡ Ok (record { sizes = program.sizes; bytes = bytes }) }
{}

/// No two units have one hex form: it gives sizes and bytes, and bytes spell one program at most.
pub fn hex_of_one_unit()
    ensures { (p q : Program) (text : List ℕ) → IsUnit p → IsUnit q
        → hex_form p ≡ Ok text → hex_form q ≡ Ok text → p ≡ q }
{}

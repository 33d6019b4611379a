//! Laws of the lines of instructions, as functions that do nothing: what they ensure is the law.

ghost use Rattle.std.specs.Prelude.{◌≡◌, ℕ, List, Option, Ok};
ghost use Rattle.bpf_insn_types.specs.{declared.insn.Insn.{Insn}, Values.{InsnFits}, Slots.{slots_of}};
ghost use Rattle.bpf_insn.specs.{declared.slot.Slot.{Slot}, Spelling.{spelling}};
ghost use Rattle.bpf_text_lex.specs.PrintedLines.{insn_spelling};
ghost use Rattle.bpf_text_operands.specs.Statements.{insn_of_line, slots_at};

/// The line of an instruction that has bytes is read back as it, at any slot and whatever the labels
/// are.
pub fn line_is_read_back()
    ensures { (i : Insn) (slots : List Slot) (find : List ℕ → Option ℕ) (slot : ℕ) → InsnFits i
        → spelling i ≡ Ok slots → insn_of_line find slot (insn_spelling i) ≡ Ok i }
{}

/// No two instructions that have bytes have one line.
pub fn line_of_one_insn()
    ensures { (i j : Insn) (a b : List Slot) → InsnFits i → InsnFits j
        → spelling i ≡ Ok a → spelling j ≡ Ok b → insn_spelling i ≡ insn_spelling j → i ≡ j }
{}

/// A line takes the slots of the instruction that it is.
pub fn line_takes_its_slots()
    ensures { (i : Insn) (find : List ℕ → Option ℕ) (slot : ℕ) (line : List ℕ)
        → insn_of_line find slot line ≡ Ok i → slots_at line ≡ slots_of i }
{}

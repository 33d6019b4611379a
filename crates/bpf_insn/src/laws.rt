//! Laws of the bytes of programs, as functions that do nothing: what they ensure is the law.

ghost use Rattle.std.specs.Prelude.{◌≡◌, ℕ, List, ◌++◌, Ok};
ghost use Rattle.bpf_insn_types.specs.{declared.insn.Insn.{Insn}, Values.{InsnFits, AreInsns}};
ghost use Rattle.bpf_insn.specs.{SlotBytes.{AreBytes}, Spelling.{insn_bytes, program_spelling}, Reading.{reading}};

/// Bytes spell one program at most.
pub fn one_program()
    ensures { (p q : List Insn) (bytes : List ℕ) → AreInsns p → AreInsns q
        → program_spelling p ≡ Ok bytes → program_spelling q ≡ Ok bytes → p ≡ q }
{}

/// No instruction's bytes begin another's, whatever follows them.
pub fn no_beginning()
    ensures { (i j : Insn) (a b x y : List ℕ) → InsnFits i → InsnFits j
        → insn_bytes i ≡ Ok a → insn_bytes j ≡ Ok b
        → a ++ x ≡ b ++ y → (i ≡ j) × (a ≡ b) }
{}

/// What is spelled is read without a fault, as the same program.
pub fn spelled_is_read()
    ensures { (p : List Insn) (bytes : List ℕ) → AreInsns p → program_spelling p ≡ Ok bytes
        → reading bytes ≡ Ok p }
{}

/// What is read without a fault is spelled so, where each number is a byte.
pub fn read_is_spelled()
    ensures { (p : List Insn) (bytes : List ℕ) → AreBytes bytes
        → reading bytes ≡ Ok p → AreInsns p × (program_spelling p ≡ Ok bytes) }
{}

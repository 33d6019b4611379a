//! What all texts share: lines, words, numbers, names, refusals and printed instructions. Lines of
//! numbers and the first line of a unit are read. A unit's lines are printed, each with one spelling:
//! the first line, and a line for each instruction, a mnemonic and its operands. A text's blanks are
//! the space and the tab and nothing else: a carriage return is a byte of its line like any other.
#![tactic(auto)]

mod fields;
mod head;
mod lines;
mod mnemonic;
mod mnemonic_words;
mod names;
mod numbers;
mod printing;
mod statement;
mod text_error;
mod value;
mod words;

pub use fields::{read_fields, read_fields_after};
pub use head::read_head;
pub use lines::{Line, Lines, newline_at, trim, trim_start};
pub use mnemonic::Mnemonic;
pub use mnemonic_words::{alu_word, atomic_word, callee_word, compare_word, kind_word, order_word};
pub use names::is_name;
pub use numbers::{has_only_digits, is_negative, is_number, is_numeral, read_number};
pub use printing::{print_head, print_insn};
pub use statement::{mnemonic_of, operands_of};
pub use text_error::{TextError, TextFault};
pub use value::{Operands, Value};
pub use words::{Words, blank_at, next_word};

//! The names of labels.

ghost use Rattle.std.specs.{Prelude.{◌≡◌, ◌||◌, ◌==◌}, Char.{is_ascii_alphabetic, is_ascii_alphanumeric}};
ghost use Rattle.std.specs.List.{list_all};
ghost use Rattle.bpf_text_lex.specs.Names.{begins_name, continues_name, is_name};

/// Whether the byte is a letter or an underscore.
fn begins_name(byte: u8) -> bool
    ensures { result ≡ begins_name byte }
{
    byte.is_ascii_alphabetic() || byte == b'_'
}

/// Whether the byte is a letter, a digit or an underscore.
fn continues_name(byte: u8) -> bool
    ensures { result ≡ continues_name byte }
{
    byte.is_ascii_alphanumeric() || byte == b'_'
}

/// Whether all bytes are letters, digits or underscores.
fn continues_name_throughout(bytes: &[u8]) -> bool
    ensures { result ≡ list_all continues_name bytes.now }
{
    bytes.iter().all(|b| continues_name(*b))
}

/// Whether the word is a name: a letter or an underscore, then letters, digits and underscores, at
/// most 32 bytes in all.
pub fn is_name(word: &[u8]) -> bool
    ensures { result ≡ is_name word.now }
{
    if word.is_empty() || word.len() > 32 {
        return false;
    }
    begins_name(word[0]) && continues_name_throughout(&word[1..])
}

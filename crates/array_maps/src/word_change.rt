//! Changes of all words at once.

ghost use Rattle.std.specs.Prelude.{ℕ, List};

/// A change of words in place, as many as there are.
pub trait WordChange {
    /// What it asks of the words.
    ghost wants: { Self → List ℕ → Type 0 };

    /// What it makes of them.
    ghost makes: { Self → (old new : List ℕ) → Type 0 };

    /// Changes words.
    fn apply(&self, words: &mut [u64])
        requires { wants self.now words.old }
        ensures { makes self.now words.old words.new };
}

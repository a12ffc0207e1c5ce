//! Laws of the instruction table, each the contract of a function that does nothing.

ghost use Rattle.std.specs.Prelude.{◌≡◌, ℕ, Some, IsTrue, All, AllPairs};
ghost use Rattle.rv_decode.specs.Table.{rows, matches, kind_of_word};

/// No two rows of the table match one word, so the order of the rows means nothing: a word is of the
/// kind of any row that it matches.
pub fn rows_are_apart()
    ensures apart { (word : ℕ) → AllPairs (λ a b. ¬ (IsTrue (matches word a) × IsTrue (matches word b))) rows }
    ensures kind { (word : ℕ) → All (λ row. IsTrue (matches word row) → kind_of_word word ≡ Some row.kind) rows }
{}

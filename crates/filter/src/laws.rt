// What is true of every expression.

ghost use Rattle.std.specs.Prelude.{◌≡◌, ◌≤◌, ℕ, List, length};
ghost use Rattle.filter.specs.FilterTree.{FilterTree};
ghost use Rattle.filter.specs.Grammar.{ReadsAs};
ghost use Rattle.filter.specs.Printing.{text_of};
ghost use Rattle.filter.specs.Reading.{max_len};

/// A text reads as at most one filter.
pub fn one_reading()
    ensures { (text : List ℕ) (filter other : FilterTree) → ReadsAs text filter → ReadsAs text other → filter ≡ other }
{}

/// The printed text of a filter that was read reads back as that filter, if it isn't too long for an expression.
pub fn text_reads_back()
    ensures { (text : List ℕ) (filter : FilterTree) → ReadsAs text filter → length (text_of filter) ≤ max_len → ReadsAs (text_of filter) filter }
{}

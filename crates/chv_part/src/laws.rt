// The laws of part files, and of books.
ghost use Rattle.std.specs.Prelude.{◌≡◌, ◌≤◌, ◌<◌, ◌+◌, ◌^◌, [], ◌∷◌, ℕ, List, Some, length};
ghost use Rattle.std.specs.List.{All};
ghost use Rattle.chv_commit.specs.Replays.{MAX_ENTRIES, Span};
ghost use Rattle.chv_merge.specs.declared.run.Run.{Run};
ghost use Rattle.chv_types.specs.declared.value.Value.{Value};
ghost use Rattle.chv_part.specs.Books.{TableForm, Entry, Book, IsEntry, IsLawfulBook, arrived, committed, no_book, rows_in};
ghost use Rattle.chv_part.specs.Merging.{IsRunOf, all_merged, due, next_merged};
ghost use Rattle.chv_part.specs.Parts.{IsPartFile};

/// A file is that of one list of rows at most.
pub fn law_part_reads_back()
    ensures { (form : TableForm) (a b : List (List Value)) (file : List ℕ) → length a < 2 ^ 64 → length b < 2 ^ 64
        → IsPartFile form a file → IsPartFile form b file → a ≡ b }
{}

/// A book of no block is lawful, and stays so as blocks arrive: between two entries with one id stand as many others as the
/// window has, and the parts cut the entries into runs.
pub fn law_lawful_books()
    ensures none { (form : TableForm) → IsLawfulBook form no_book }
    ensures committed { (form : TableForm) (entries : List Entry) (book : Book) → All (IsEntry form) entries
        → length book.entries + length entries ≤ MAX_ENTRIES → IsLawfulBook form book → IsLawfulBook form (committed form.window entries book) }
    // One block that arrives is a commit of it alone.
    ensures arrived { (window : ℕ) (entry : Entry) (book : Book) → committed window (entry ∷ []) book ≡ arrived window entry book }
{}

/// A table's book stays lawful as parts become one, and its rows are the same; and those of the one part are the normal form of
/// theirs.
pub fn law_merged_books()
    ensures next { (form : TableForm) (book : Book) → IsLawfulBook form book → IsLawfulBook form (next_merged book) × (rows_in (next_merged book) ≡ rows_in book) }
    ensures all { (form : TableForm) (book : Book) → IsLawfulBook form book → IsLawfulBook form (all_merged book) × (rows_in (all_merged book) ≡ rows_in book) }
    // A merge that is due is of two parts or more.
    ensures due { (layout : List Span) (run : Run) → due layout ≡ Some run → IsRunOf layout run }
{}

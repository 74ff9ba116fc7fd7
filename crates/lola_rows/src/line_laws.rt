//! Laws of the definitions that say what the fields of a line are.
ghost use Rattle.std.specs.Prelude.{◌≡◌, ◌≢◌, ◌∷◌, [], ℕ, List, false};
ghost use Rattle.std.specs.List.{AllByRecursion, slice_split};
ghost use Rattle.std.specs.Str.{IsUtf8};
ghost use Rattle.lola_rows.specs.Line.{fields_of_line, has_line_end, has_quote, is_comma};

/// A line without a double quote is cut at its commas.
pub fn line_without_quotes()
    ensures { (line : List ℕ) → line ≢ [] → has_quote line ≡ false → has_line_end line ≡ false
        → fields_of_line line ≡ slice_split is_comma line }
{}

/// A quote that is never closed lasts to the end of the line.
pub fn open_quote()
    ensures { (text : List ℕ) → has_quote text ≡ false → fields_of_line (34 ∷ text) ≡ text ∷ [] }
{}

/// The fields of a line end no line.
pub fn fields_of_one_line()
    ensures { (line : List ℕ) → has_line_end line ≡ false
        → AllByRecursion (λ field. has_line_end field ≡ false) (fields_of_line line) }
{}

/// The fields of a line in UTF-8 are in UTF-8.
pub fn fields_of_text()
    ensures { (line : List ℕ) → IsUtf8 line → AllByRecursion IsUtf8 (fields_of_line line) }
{}

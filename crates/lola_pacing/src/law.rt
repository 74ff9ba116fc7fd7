//! Laws of what is found. A law is a function that does nothing: what it ensures is the law.

ghost use Rattle.lola_pacing.specs.Accepted.{PacesAll, PacesWindows};

/// Where nothing is refused, each clause has a pacing.
pub fn each_clause_is_paced()
    ensures { PacesAll }
{}

/// Where nothing is refused, each window stands in a periodic clause whose period is a whole number of nanoseconds, and has
/// at most 65,536 panes.
pub fn each_window_is_paced()
    ensures { PacesWindows }
{}

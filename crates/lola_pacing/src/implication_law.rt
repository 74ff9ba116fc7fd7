//! Laws of the definitions. A law is a function that does nothing: what it ensures is the law.

ghost use Rattle.lola_pacing.specs.Laws.{AcceptsFine, TellsImplication, MeansConjunction};

/// The test by least sets and by rates tells when one pacing implies another: over all sets of inputs, and where the one
/// rate is a whole number of times the other.
pub fn implication_is_decided()
    ensures { TellsImplication }
{}

/// What is joined of event-based pacings is their conjunction: a row satisfies it exactly where it satisfies each of them.
pub fn joined_is_conjunction()
    ensures { MeansConjunction }
{}

/// Where nothing is refused of a clause, its pacing implies those of the streams that it accesses directly, none of these
/// is filtered, and nothing stands against its windows.
pub fn unrefused_is_fine()
    ensures { AcceptsFine }
{}

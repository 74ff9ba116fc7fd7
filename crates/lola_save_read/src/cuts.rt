//! Bytes are cut behind a text with which they begin, at their first LF, and at their first space.

ghost use Rattle.std.specs.Prelude.{◌≡◌, ◌≢◌, ◌↔◌, ◌∷◌, ◌++◌, [], ℕ, List, true, IsTrue, MatchOption};
ghost use Rattle.std.specs.List.{list_all};
ghost use Rattle.lola_report.specs.Lines.{has_no_lf};
ghost use Rattle.lola_save_read.specs.Heads.{IsCutAtLf, IsLineBehind};
ghost use Rattle.lola_save_read.specs.Words.{IsCutAtSlash, IsNextWord, IsWordCut, IsWordEnd, is_no_slash};

/// The bytes behind those with which a text begins.
pub(crate) fn behind<'a>(front: &[u8], bytes: &'a [u8]) -> Option<&'a [u8]>
    ensures { MatchOption result ((rest : List ℕ) → bytes.now ≢ front.now ++ rest) (λ x. bytes.now ≡ front.now ++ x.now) }
{
    bytes.strip_prefix(front)
}

/// Whether bytes are these.
pub(crate) fn is_word(bytes: &[u8], word: &[u8]) -> bool
    ensures { IsTrue result ↔ (bytes.now ≡ word.now) }
{
    bytes == word
}

/// Whether there are no bytes.
pub(crate) fn is_nothing(bytes: &[u8]) -> bool
    ensures { IsTrue result ↔ (bytes.now ≡ []) }
{
    match split(bytes) {
        None => true,
        Some((_first, _others)) => false,
    }
}

/// The first byte and the others.
pub(crate) fn split(bytes: &[u8]) -> Option<(u8, &[u8])>
    ensures { MatchOption result (bytes.now ≡ []) (λ x. bytes.now ≡ x.0 ∷ x.1.now) }
{
    match bytes {
        [] => None,
        [first, others @ ..] => Some((*first, others)),
    }
}

/// What stands before the first LF, and what behind it.
pub(crate) fn cut_at_lf(bytes: &[u8]) -> Option<(&[u8], &[u8])>
    ensures { MatchOption result (has_no_lf bytes.now ≡ true) (λ x. IsCutAtLf bytes.now x.0.now x.1.now) }
{
    for (place, byte) in bytes.iter().enumerate() {
        if *byte == b'\n' {
            return Some((&bytes[..place], &bytes[place + 1..]));
        }
    }
    None
}

/// What stands in the first line behind a text with which it begins, and what stands behind that line.
pub(crate) fn line_behind<'a>(front: &[u8], bytes: &'a [u8]) -> Option<(&'a [u8], &'a [u8])>
    ensures { MatchOption result ((body rest : List ℕ) → IsLineBehind front.now bytes.now body rest → ⊥) (λ x. IsLineBehind front.now bytes.now x.0.now x.1.now) }
{
    match behind(front, bytes) {
        None => None,
        Some(left) => match cut_at_lf(left) {
            None => None,
            Some((body, rest)) => Some((body, rest)),
        },
    }
}

/// What stands up to the first space, and what from it on.
pub(crate) fn cut_word(bytes: &[u8]) -> (&[u8], &[u8])
    ensures { IsWordCut bytes.now result.0.now result.1.now }
{
    for (place, byte) in bytes.iter().enumerate() {
        if *byte == b' ' {
            return (&bytes[..place], &bytes[place..]);
        }
    }
    (bytes, &[])
}

/// What stands behind the space with which bytes begin.
pub(crate) fn behind_space(bytes: &[u8]) -> Option<&[u8]>
    ensures { MatchOption result ((rest : List ℕ) → bytes.now ≢ 32 ∷ rest) (λ rest. bytes.now ≡ 32 ∷ rest.now) }
{
    behind(b" ", bytes)
}

/// The word behind the space with which bytes begin, and what stands behind it.
pub(crate) fn next_word(bytes: &[u8]) -> Option<(&[u8], &[u8])>
    ensures { MatchOption result ((front rest : List ℕ) → IsNextWord bytes.now front rest → ⊥) (λ x. IsNextWord bytes.now x.0.now x.1.now) }
{
    match behind_space(bytes) {
        None => None,
        Some(left) => {
            let (front, rest) = cut_word(left);
            Some((front, rest))
        }
    }
}

/// Whether a word may end before these bytes.
pub(crate) fn is_word_end(bytes: &[u8]) -> bool
    ensures { IsTrue result ↔ IsWordEnd bytes.now }
{
    match split(bytes) {
        None => true,
        Some((first, _)) => first == b' ',
    }
}

/// What stands before the first slash, and what behind it.
pub(crate) fn cut_at_slash(bytes: &[u8]) -> Option<(&[u8], &[u8])>
    ensures { MatchOption result (list_all is_no_slash bytes.now ≡ true) (λ x. IsCutAtSlash bytes.now x.0.now x.1.now) }
{
    for (place, byte) in bytes.iter().enumerate() {
        if *byte == b'/' {
            return Some((&bytes[..place], &bytes[place + 1..]));
        }
    }
    None
}

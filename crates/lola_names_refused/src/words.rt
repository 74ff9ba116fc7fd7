//! The words for kinds and for aggregations.

ghost use Rattle.std.specs.Prelude.{◌≡◌};
ghost use Rattle.std.specs.Str.{bytes_eq};
ghost use Rattle.lola_names_refused.specs.Words.{kind_named as kind_of_word, aggregation_named as aggregation_of_word};

use lola_model::spec::Agg;
use lola_value::value::Kind;

fn is(word: &[u8], other: &[u8]) -> bool
    ensures { result ≡ bytes_eq word.now other.now }
{
    word == other
}

/// The kind that a word names.
pub fn kind_named(word: &[u8]) -> Option<Kind>
    ensures { result ≡ kind_of_word word.now }
{
    if is(word, b"Bool") {
        return Some(Kind::Bool);
    }
    if is(word, b"Int8") {
        return Some(Kind::Int8);
    }
    if is(word, b"Int16") {
        return Some(Kind::Int16);
    }
    if is(word, b"Int32") {
        return Some(Kind::Int32);
    }
    if is(word, b"Int64") {
        return Some(Kind::Int64);
    }
    if is(word, b"UInt8") {
        return Some(Kind::UInt8);
    }
    if is(word, b"UInt16") {
        return Some(Kind::UInt16);
    }
    if is(word, b"UInt32") {
        return Some(Kind::UInt32);
    }
    if is(word, b"UInt64") {
        return Some(Kind::UInt64);
    }
    if is(word, b"String") {
        return Some(Kind::Text);
    }
    None
}

/// The aggregation that a word names.
pub fn aggregation_named(word: &[u8]) -> Option<Agg>
    ensures { result ≡ aggregation_of_word word.now }
{
    if is(word, b"count") {
        return Some(Agg::Count);
    }
    if is(word, b"sum") {
        return Some(Agg::Sum);
    }
    if is(word, b"min") {
        return Some(Agg::Min);
    }
    if is(word, b"max") {
        return Some(Agg::Max);
    }
    if is(word, b"avg") {
        return Some(Agg::Avg);
    }
    if is(word, b"forall") {
        return Some(Agg::Forall);
    }
    if is(word, b"exists") {
        return Some(Agg::Exists);
    }
    None
}

//! Texts between double quotes in a verdict line: the bytes that do not stand for themselves there.

ghost use Rattle.std.specs.Prelude.{◌≡◌, [], ◌∷◌, ◌++◌, OnOk, OnErr, MatchOption, flat_map};
ghost use Rattle.lola_value.specs.Appending.{AppendsPart};
ghost use Rattle.lola_model.specs.Texts.{escaped, quoted};

use lola_value::text::{Memory, Text};

/// The two bytes that spell a byte, unless it stands for itself: a backslash before a double quote or a backslash, and
/// `\n`, `\r` and `\t` for LF, CR and a tab.
fn pair_for(byte: u8) -> Option<[u8; 2]>
    ensures { MatchOption result (escaped byte ≡ byte ∷ []) (λ pair. escaped byte ≡ pair) }
{
    match byte {
        b'"' | b'\\' => Some([b'\\', byte]),
        b'\n' => Some([b'\\', b'n']),
        b'\r' => Some([b'\\', b'r']),
        b'\t' => Some([b'\\', b't']),
        _ => None,
    }
}

/// Appends bytes as they are spelled, in runs of those that stand for themselves.
fn spell(bytes: &[u8], to: &mut Text) -> Result<(), Memory>
    ensures ok { OnOk result (to.new ≡ to.old ++ flat_map escaped bytes.now) }
    ensures memory { OnErr result (AppendsPart to.old to.new (flat_map escaped bytes.now)) }
{
    let mut done = 0;
    for (i, byte) in bytes.iter().enumerate() {
        if let Some(pair) = pair_for(*byte) {
            to.append(&bytes[done..i])?;
            to.append(&pair)?;
            done = i + 1;
        }
    }
    to.append(&bytes[done..])
}

/// Appends bytes between double quotes.
pub fn quote(bytes: &[u8], to: &mut Text) -> Result<(), Memory>
    ensures ok { OnOk result (to.new ≡ to.old ++ quoted bytes.now) }
    ensures memory { OnErr result (AppendsPart to.old to.new (quoted bytes.now)) }
{
    to.append(b"\"")?;
    spell(bytes, to)?;
    to.append(b"\"")
}

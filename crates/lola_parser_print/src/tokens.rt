//! Single tokens, each with a blank behind it.

ghost use Rattle.std.specs.Prelude.{◌≡◌, ◌++◌, ◌∷◌, [], ◌-◌, length, OnOk, decimal};
ghost use Rattle.lola_parser_print.specs.Print as out;

use itoa::Buffer;
use lola_parser_grammar::literals::{Name, Quantity, QuantityUnit};
use lola_value::text::{Memory, Text};

pub(crate) fn put(token: &[u8], to: &mut Text) -> Result<(), Memory>
    ensures { OnOk result (to.new ≡ to.old ++ (token.now ++ 32 ∷ [])) }
{
    to.append(token)?;
    to.append(b" ")
}

pub(crate) fn put_name(name: &Name, to: &mut Text) -> Result<(), Memory>
    ensures { OnOk result (out.Adds (out.name name.now ∷ []) to.old to.new) }
{
    put(name.text.as_bytes(), to)
}

pub(crate) fn put_number(n: u128, to: &mut Text) -> Result<(), Memory>
    ensures { OnOk result (out.Adds (out.integer n ∷ []) to.old to.new) }
{
    let mut buffer = Buffer::new();
    put(buffer.format(n).as_bytes(), to)
}

/// A byte as it is written in a text.
fn put_byte(byte: u8, to: &mut Text) -> Result<(), Memory>
    ensures { OnOk result (to.new ≡ to.old ++ out.escape byte) }
{
    match byte {
        b'"' => to.append(b"\\\""),
        b'\\' => to.append(b"\\\\"),
        b'\n' => to.append(b"\\n"),
        b'\r' => to.append(b"\\r"),
        b'\t' => to.append(b"\\t"),
        _ => to.append(&[byte]),
    }
}

/// A text literal.
pub(crate) fn put_text(text: &[u8], to: &mut Text) -> Result<(), Memory>
    ensures { OnOk result (out.Adds (out.text text.now ∷ []) to.old to.new) }
{
    to.append(b"\"")?;
    for byte in text {
        put_byte(*byte, to)?;
    }
    to.append(b"\" ")
}

fn unit_name(unit: QuantityUnit) -> &'static [u8]
    ensures { result.now ≡ out.unit_name unit }
{
    match unit {
        QuantityUnit::Nanoseconds => b"ns",
        QuantityUnit::Microseconds => b"us",
        QuantityUnit::Milliseconds => b"ms",
        QuantityUnit::Seconds => b"s",
        QuantityUnit::Minutes => b"min",
        QuantityUnit::Hours => b"h",
        QuantityUnit::Days => b"d",
        QuantityUnit::Millihertz => b"mHz",
        QuantityUnit::Hertz => b"Hz",
        QuantityUnit::Kilohertz => b"kHz",
        QuantityUnit::Megahertz => b"MHz",
    }
}

fn put_zeros(count: usize, to: &mut Text) -> Result<(), Memory>
    ensures { OnOk result (to.new ≡ to.old ++ out.zeros count) }
{
    for _zero in 0..count {
        to.append(b"0")?;
    }
    Ok(())
}

fn put_behind_zeros(count: usize, bytes: &[u8], to: &mut Text) -> Result<(), Memory>
    ensures { OnOk result (to.new ≡ to.old ++ (out.zeros count ++ bytes.now)) }
{
    put_zeros(count, to)?;
    to.append(bytes)
}

fn put_behind_point(bytes: &[u8], to: &mut Text) -> Result<(), Memory>
    ensures { OnOk result (to.new ≡ to.old ++ (46 ∷ bytes.now)) }
{
    to.append(b".")?;
    to.append(bytes)
}

/// Digits with zeros in front of them, `count` in all at least, and of these the last `decimals` behind a point.
#[tactic(auto, using(crate::proofs::Digits::cut_low, crate::proofs::Digits::cut_high))]
fn put_digits(count: usize, decimals: usize, digits: &[u8], to: &mut Text) -> Result<(), Memory>
    ensures { OnOk result (to.new ≡ to.old ++ out.pointed decimals (out.padded count digits.now)) }
{
    let pad = count.saturating_sub(digits.len());
    let cut = count.max(digits.len()).saturating_sub(decimals);
    if decimals == 0 {
        put_behind_zeros(pad, digits, to)
    } else if cut <= pad {
        put_behind_zeros(cut, b".", to)?;
        put_behind_zeros(pad - cut, digits, to)
    } else {
        put_behind_zeros(pad, &digits[..cut - pad], to)?;
        put_behind_point(&digits[cut - pad..], to)
    }
}

pub(crate) fn put_quantity(quantity: &Quantity, to: &mut Text) -> Result<(), Memory>
    ensures { OnOk result (out.Adds (out.quantity quantity.now ∷ []) to.old to.new) }
{
    let mut buffer = Buffer::new();
    put_digits(
        quantity.count,
        quantity.decimals,
        buffer.format(quantity.digits).as_bytes(),
        to,
    )?;
    put(unit_name(quantity.unit), to)
}

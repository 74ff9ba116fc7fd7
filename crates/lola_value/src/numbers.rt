//! Whole numbers in decimal.

ghost use Rattle.std.specs.Prelude.{◌≡◌, ◌++◌, OnOk, OnErr, decimal};
ghost use Rattle.lola_value.specs.Numbers.{integer_text};

use crate::text::{Memory, Text};
use itoa::Buffer;

/// Appends a number in decimal. Where there is no memory the text is as it was.
pub fn number_text(n: u64, to: &mut Text) -> Result<(), Memory>
    ensures ok { OnOk result (to.new ≡ to.old ++ decimal n) }
    ensures err { OnErr result (to.new ≡ to.old) }
{
    let mut buffer = Buffer::new();
    to.append(buffer.format(n).as_bytes())
}

/// Appends a number in decimal, with `-` before a negative one. Where there is no memory the text is as it was.
pub fn integer_text(z: i128, to: &mut Text) -> Result<(), Memory>
    ensures ok { OnOk result (to.new ≡ to.old ++ integer_text z) }
    ensures err { OnErr result (to.new ≡ to.old) }
{
    let mut buffer = Buffer::new();
    to.append(buffer.format(z).as_bytes())
}

//! Fields without the spaces and tabs at their ends.

ghost use Rattle.std.specs.Prelude.{◌≡◌, ◌≤◌, drop, length};
ghost use Rattle.lola_rows.specs.Blanks.{after_blanks, is_blank_byte, kept_length, trimmed};

fn is_blank(byte: u8) -> bool
    ensures { result ≡ is_blank_byte byte }
{
    byte == b' ' || byte == b'\t'
}

/// How many spaces and tabs a field starts with.
fn blanks_before(field: &[u8]) -> usize
    ensures bound { result ≤ length field.now }
    ensures value { drop result field.now ≡ after_blanks field.now }
{
    for at in 0..field.len() {
        if !is_blank(field[at]) {
            return at;
        }
    }
    field.len()
}

/// How many bytes of a field come before the spaces and tabs at its end.
fn kept(field: &[u8]) -> usize
    ensures bound { result ≤ length field.now }
    ensures value { result ≡ kept_length field.now }
{
    let mut end = field.len();
    while end > 0 {
        let last = end - 1;
        if !is_blank(field[last]) {
            return end;
        }
        end = last;
    }
    0
}

/// A field without the spaces and tabs at its ends.
pub fn trim(field: &[u8]) -> &[u8]
    ensures { result.now ≡ trimmed field.now }
{
    let rest = &field[blanks_before(field)..];
    &rest[..kept(rest)]
}

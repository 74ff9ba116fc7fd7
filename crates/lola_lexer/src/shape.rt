//! What a token is.

ghost use Rattle.std.specs.Prelude.{◌≡◌, ◌≢◌};

/// The sort of a token: a variant for each reserved word and each sign, and four that have many spellings.
#[derive(Clone, Copy)]
pub enum TokenShape {
    /// `input`
    Input,
    /// `output`
    Output,
    /// `constant`
    Constant,
    /// `trigger`
    Trigger,
    /// `spawn`
    Spawn,
    /// `eval`
    Eval,
    /// `close`
    Close,
    /// `with`
    With,
    /// `when`
    When,
    /// `if`
    If,
    /// `then`
    Then,
    /// `else`
    Else,
    /// `true`
    True,
    /// `false`
    False,
    /// A letter or `_`, then letters, digits and `_`, ASCII all of them, and no reserved word.
    Name,
    /// 1 to 38 decimal digits.
    Integer,
    /// A number, with or without a fraction, and directly behind it a unit of time or of frequency.
    Quantity,
    /// What stands between double quotes, and the quotes.
    Text,
    /// `:=`
    Define,
    /// `:`
    Colon,
    /// `,`
    Comma,
    /// `(`
    Open,
    /// `)`
    Shut,
    /// `.`
    Dot,
    /// `@`
    At,
    /// `+`
    Plus,
    /// `-`
    Minus,
    /// `*`
    Star,
    /// `/`
    Slash,
    /// `%`
    Percent,
    /// `!`
    Not,
    /// `&&`
    And,
    /// `||`
    Or,
    /// `==`
    Equal,
    /// `!=`
    Unequal,
    /// `<`
    Less,
    /// `<=`
    LessEqual,
    /// `>`
    Greater,
    /// `>=`
    GreaterEqual,
}

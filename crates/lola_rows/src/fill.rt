//! Lines out of the pieces that a source gives.
ghost use Rattle.std.specs.Prelude.{◌≡◌, ◌+◌, ◌≤◌, length};
ghost use Rattle.lola_rows.specs.Filling.{Fills};
ghost use Rattle.lola_rows.specs.Lines.{longest_line};
ghost use Rattle.lola_rows.specs.Window.{items, room};

use crate::window::Window;
use lola_port::Source;

/// The longest line, without its line feed.
pub(crate) const LONGEST_LINE: usize = 65536;

/// The most bytes without a line feed that are no line too long: a byte order mark may stand before the first line.
pub(crate) const MOST_HELD: usize = 65539;

/// The shortest buffer that a source is given.
const LEAST_READ: usize = 4096;

/// What stands at the front of a buffer.
#[derive(Clone, Copy)]
pub(crate) enum Filled {
    /// A line of so many bytes, and its end.
    Line(usize),
    /// All that is left of the source, without a line end.
    Last,
    /// More bytes than a line may have, without a line end.
    TooLong,
    /// A read failed.
    ReadFailed,
}

/// Reads until a line is held whole, or none will come.
pub(crate) fn fill_line<S: Source>(window: &mut Window, source: &mut S) -> Filled
    ensures { Fills result (items window.old) (items window.new) (S.state source.old) (S.state source.new) }
{
    loop {
        if let Some(at) = window.find_line_end() {
            return Filled::Line(at);
        }
        if window.as_slice().len() > MOST_HELD {
            return Filled::TooLong;
        }
        make_room(window);
        match window.read_from(source) {
            Ok(0) => return Filled::Last,
            Ok(_) => {}
            Err(_) => return Filled::ReadFailed,
        }
    }
}

// Moves what is held to the front where little room is behind it.
fn make_room(window: &mut Window)
    requires { length (items window.old) ≤ longest_line + 3 }
    ensures items { items window.new ≡ items window.old }
    ensures room { LEAST_READ ≤ room window.new }
{
    if window.as_slice().is_empty() || window.room() < LEAST_READ {
        window.move_to_front();
    }
}

//! The next line that is not empty.
ghost use Rattle.std.specs.Prelude.{◌≡◌, ◌≤◌, length};
ghost use Rattle.lola_rows.specs.Filling.{Finds, LastFound};
ghost use Rattle.lola_rows.specs.Lines.{without_return};
ghost use Rattle.lola_rows.specs.Window.{items};

use crate::fill::{Filled, fill_line};
use crate::stage::Section;
use crate::window::Window;
use lola_port::Source;

/// A line at the front of a buffer: how many bytes stand before its line feed, how many of them are its text, and how
/// many are to be taken with it.
#[derive(Clone, Copy)]
pub(crate) struct Extent {
    pub(crate) size: usize,
    pub(crate) text: usize,
    pub(crate) whole: usize,
}

impl Extent {
    ghost use Rattle.lola_rows.specs.Filling.{stage_behind};

    /// What a reader looks at behind this line of a row.
    pub(crate) fn stage_behind(&self) -> Section
        ensures { result ≡ stage_behind self.now }
    {
        if self.whole == self.size {
            Section::Over
        } else {
            Section::Rows
        }
    }
}

/// What was found.
#[derive(Clone, Copy)]
pub(crate) enum Found {
    /// A line.
    Line(Extent),
    /// More bytes than a line may have.
    TooLong,
    /// No line is left.
    Nothing,
    /// A read failed.
    ReadFailed,
}

/// Takes empty lines, and finds the next one that is not.
pub(crate) fn seek_line<S: Source>(window: &mut Window, source: &mut S) -> Found
    ensures { Finds result (items window.old) (items window.new) (S.state source.old) (S.state source.new) }
{
    loop {
        match fill_line(window, source) {
            Filled::Line(size) => {
                let text = text_length(&window.as_slice()[..size]);
                let whole = size + 1;
                if text > 0 {
                    return Found::Line(Extent { size, text, whole });
                }
                window.consume(whole);
            }
            Filled::Last => return last_line(window),
            Filled::TooLong => return Found::TooLong,
            Filled::ReadFailed => return Found::ReadFailed,
        }
    }
}

// How many bytes of a line stand before one carriage return at its end.
fn text_length(line: &[u8]) -> usize
    ensures { result ≡ length (without_return line.now) }
{
    if line.is_empty() {
        return 0;
    }
    let last = line.len() - 1;
    if line[last] == b'\r' {
        last
    } else {
        line.len()
    }
}

// All that is held, as the last line.
fn last_line(window: &Window) -> Found
    ensures { LastFound result (items window.now) }
{
    let size = window.as_slice().len();
    if size == 0 {
        return Found::Nothing;
    }
    Found::Line(Extent {
        size,
        text: size,
        whole: size,
    })
}

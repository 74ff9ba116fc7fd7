//! Whether a line has ended among bytes that come one after another.

/// What has come of a line that has not ended.
#[derive(Clone, Copy)]
pub enum Line {
    /// Nothing, at the very start, where a byte order mark is dropped.
    Start,
    /// The first byte of a byte order mark, or the first two: they are text where the others do not follow.
    ByteOrderMark,
    ByteOrderMarkGoesOn,
    Nothing,
    /// A carriage return, which is dropped where the line ends behind it.
    Return,
    /// Something that is read.
    Text,
}

impl Line {
    // Goes on with a byte.
    fn behind(self, byte: u8) -> Line {
        match (self, byte) {
            (_, b'\n') => Line::Nothing,
            (Line::Nothing | Line::Start, b'\r') => Line::Return,
            (Line::Start, 0xEF) => Line::ByteOrderMark,
            (Line::ByteOrderMark, 0xBB) => Line::ByteOrderMarkGoesOn,
            (Line::ByteOrderMarkGoesOn, 0xBF) => Line::Nothing,
            _ => Line::Text,
        }
    }

    // Whether a line feed ends a line that is not empty.
    fn has_text(self) -> bool {
        matches!(
            self,
            Line::Text | Line::ByteOrderMark | Line::ByteOrderMarkGoesOn
        )
    }

    /// Goes on with the next bytes, and tells behind how many of them the last line has ended that is not empty, if one has.
    pub fn goes_on(&mut self, bytes: &[u8]) -> Option<usize> {
        let mut last = None;
        for (at, byte) in bytes.iter().enumerate() {
            if *byte == b'\n' && self.has_text() {
                last = Some(at.saturating_add(1));
            }
            *self = self.behind(*byte);
        }
        last
    }
}

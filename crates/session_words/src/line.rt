// A line while its bytes come in. Its text is kept in a lent buffer, without blanks in front and without its remark.
ghost use Rattle.std.specs.Prelude.{◌≤◌, ◌≡◌};

use crate::is_blank;

// How much of the buffer is the line's, whether the rest of it is a remark, and whether it had more bytes than the buffer.
// Two marks and no enum of cases: a line may be both. The text is lent and no field, since the program keeps one buffer for all lines.
#[derive(Clone, Copy)]
pub struct Line {
    pub len: usize,
    pub remark: bool,
    pub long: bool,
}

impl Line {
    pub fn new() -> Line
        ensures { result.len ≡ 0 }
    {
        Line {
            len: 0,
            remark: false,
            long: false,
        }
    }

    // The line with one byte more.
    pub fn with(self, text: &mut [u8; 4096], b: u8) -> Line
        requires { self.len ≤ 4096 }
        ensures { result.len ≤ 4096 }
    {
        if self.remark || self.len == 0 && is_blank(b) {
            return self;
        }
        if b == b'#' {
            return Line {
                remark: true,
                ..self
            };
        }
        if self.len == text.len() {
            return Line { long: true, ..self };
        }
        text[self.len] = b;
        Line {
            len: self.len + 1,
            ..self
        }
    }
}

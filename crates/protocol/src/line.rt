// A line of output, ended by byte 10.
ghost use Rattle.std.specs.Prelude.{◌≡◌, ◌≤◌, ◌++◌, length, decimal};
ghost use Rattle.protocol.specs.Lines.{text, newline, sheet_line, call_line};

use arrayvec::ArrayString;
use itoa::Buffer;

// The longest line, a call at 65535 that is answered 255, takes ten bytes.
#[derive(Drop)]
pub struct Line {
    text: ArrayString<16>,
}

impl Line {
    // How the sheet was answered.
    pub fn sheet(answer: u8) -> Line
        ensures { text result ≡ sheet_line answer }
    {
        let mut line = ArrayString::new();
        line.push_str("sheet ");
        Line::ended(line, answer)
    }

    // How a call was answered, with the call's position from 1.
    pub fn call(position: u16, answer: u8) -> Line
        ensures { text result ≡ call_line position answer }
    {
        let mut line = ArrayString::new();
        line.push_str(Buffer::new().format(position));
        line.push(' ');
        Line::ended(line, answer)
    }

    pub fn as_bytes(&self) -> &[u8]
        ensures { result.now ≡ text self.now }
    {
        self.text.as_str().as_bytes()
    }

    // Each kind of line ends in an answer.
    fn ended(mut line: ArrayString<16>, answer: u8) -> Line
        requires { length line.bytes ≤ 12 }
        ensures { text result ≡ line.bytes ++ decimal answer ++ newline }
    {
        line.push_str(Buffer::new().format(answer));
        line.push('\n');
        Line { text: line }
    }
}

//! A terminal for prompts and progress lines, which are no part of a program's output.
use std::io::{IsTerminal, Write};

/// A terminal at which someone waits for a program. What is written to it is no part of the program's output, and no
/// contract covers it.
#[derive(Drop)]
pub struct Screen<W: Write> {
    writer: W,
    /// Whether the program's input is typed at a terminal.
    is_typed: bool,
}

impl<W: Write + IsTerminal + Drop> Screen<W> {
    /// Returns the terminal of a writer, for a program that reads this input, or `None` if the writer is no terminal.
    pub fn of<I: IsTerminal>(input: &I, writer: W) -> Option<Self> {
        if !writer.is_terminal() {
            return None;
        }
        Some(Screen {
            writer,
            is_typed: input.is_terminal(),
        })
    }
}

impl<W: Write> Screen<W> {
    /// Writes a prompt, if the input has to be typed.
    pub fn invite(&mut self, text: &str) {
        if self.is_typed {
            self.write(text);
        }
    }

    /// Writes a text, and ignores errors.
    pub(crate) fn write(&mut self, text: &str) {
        let _ = self.writer.write_all(text.as_bytes());
    }
}

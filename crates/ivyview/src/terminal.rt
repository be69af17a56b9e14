// A line on a terminal that says how far the work has come. It is written over itself, and goes before the answer
// comes.
use progress::{Progress, Work};
use std::io::Write;

/// The line, on a writer that is a terminal or is left alone.
#[derive(Drop)]
pub struct ProgressLine<W: Write + Drop> {
    writer: W,
    is_watched: bool,
    is_shown: bool,
}

impl<W: Write + Drop> ProgressLine<W> {
    /// A line that is not shown so far.
    pub fn new(writer: W, is_watched: bool) -> Self {
        ProgressLine {
            writer,
            is_watched,
            is_shown: false,
        }
    }
}

impl<W: Write + Drop> Progress for ProgressLine<W> {
    fn tell(&mut self, work: Work, done: u64, all: u64) {
        if !self.is_watched {
            return;
        }
        self.is_shown = true;
        let _ = match work {
            Work::Groups => write!(self.writer, "\r\x1b[Kgroup {done} of {all}"),
            Work::Walks(actions) => write!(
                self.writer,
                "\r\x1b[Kactions: {actions}; walk {done} of {all}"
            ),
            Work::Drops => write!(self.writer, "\r\x1b[K{done} of {all} conjectures dropped"),
        };
        let _ = self.writer.flush();
    }

    fn end(&mut self) {
        if self.is_shown {
            self.is_shown = false;
            let _ = write!(self.writer, "\r\x1b[K");
            let _ = self.writer.flush();
        }
    }
}

// A row: what the program is run on, and what is expected of it.
use base::Mem;
use std::alloc::Global;

/// A text under a name: a file of a row, or a text that rows cite.
#[derive(Drop)]
pub struct Text {
    pub name: String,
    pub bytes: Vec<u8>,
}

/// A sink: its room in bytes, the puts that fail, by their numbers from 1, each with how many bytes it takes first, and
/// the bytes that are expected on it.
#[derive(Drop)]
pub struct Stream {
    pub room: u64,
    pub failing: Vec<(u64, u64)>,
    pub expected: Vec<u8>,
}

impl Stream {
    /// A sink with room for 65,536 bytes, none of whose puts fails, and on which nothing is expected.
    pub fn new(alloc: Global) -> Self {
        Stream {
            room: 65536,
            failing: Vec::new(alloc),
            expected: Vec::new(alloc),
        }
    }
}

/// What is expected of a run, as the row writes it. What it does not name is not looked at, but for the status.
#[derive(Drop)]
pub struct Expected {
    pub status: Option<String>,
    pub outcome: Option<String>,
    pub written: Option<String>,
    pub loads: Option<String>,
}

/// The row is run once with each proper prefix of one of its files, and so many runs end with each status.
#[derive(Drop)]
pub struct Prefixes {
    pub file: String,
    pub statuses: String,
}

/// What the program is run on, and what is expected of it.
#[derive(Drop)]
pub struct Row {
    pub title: String,
    /// Where its file says it, from 1.
    pub line: u64,
    pub words: Vec<String>,
    pub files: Vec<Text>,
    /// The words name files of the folder in which this program runs, and none of the row.
    pub is_on_disk: bool,
    /// The loads that fail, by their numbers from 1.
    pub failing: Vec<u64>,
    pub out: Stream,
    pub err: Stream,
    pub expected: Expected,
    pub prefixes: Option<Prefixes>,
}

impl Row {
    /// A row of this title and line, of which nothing else is said yet.
    pub fn new(alloc: Global, title: &str, line: u64) -> Mem<Self> {
        Ok(Row {
            title: String::from_str(alloc, title)?,
            line,
            words: Vec::new(alloc),
            files: Vec::new(alloc),
            is_on_disk: false,
            failing: Vec::new(alloc),
            out: Stream::new(alloc),
            err: Stream::new(alloc),
            expected: Expected {
                status: None,
                outcome: None,
                written: None,
                loads: None,
            },
            prefixes: None,
        })
    }

    /// The file of whose prefixes the row speaks.
    pub fn file_of_prefixes(&self, alloc: Global) -> Mem<Option<String>> {
        match &self.prefixes {
            Some(prefixes) => Ok(Some(prefixes.file.clone()?)),
            None => Ok(None),
        }
    }

    /// Says the words `check model` over that text, with all of the answer written, of a row of which nothing else is
    /// said yet.
    pub fn check_model(&mut self, alloc: Global, bytes: Vec<u8>) -> Mem<()> {
        self.words.push(String::from_str(alloc, "check")?)?;
        self.words.push(String::from_str(alloc, "model")?)?;
        let name = String::from_str(alloc, "model")?;
        self.files.push(Text { name, bytes })?;
        self.expected.written = Some(String::from_str(alloc, "all")?);
        Ok(())
    }
}

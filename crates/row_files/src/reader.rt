// Reads a file of rows, line by line. The head of data/rows.txt says the format.
use crate::notation::{number, piece_of, text_of, two_numbers};
use crate::row::{Prefixes, Row, Text};
use base::Refused;
use std::alloc::Global;
use std::mem;

/// The answer of a call that fails at a line that is none of the format, and says why.
pub type Parsed<T> = Result<T, Refused<&'static str>>;

const NO_ROW: Refused<&'static str> = Refused::For("there is no row that this line could be of");

const NO_TEXT: Refused<&'static str> = Refused::For("there is no text that this line could be of");

// Which text the next lines of a text are of.
#[derive(Clone, Copy)]
enum Place {
    Nowhere,
    Named,
    File,
    Out,
    Err,
    Model,
}

#[derive(Drop)]
struct Reader {
    alloc: Global,
    texts: Vec<Text>,
    rows: Vec<Row>,
    table: String,
    // The model of the next row of the table.
    model: Vec<u8>,
    place: Place,
}

impl Reader {
    fn new(alloc: Global) -> Self {
        Reader {
            alloc,
            texts: Vec::new(alloc),
            rows: Vec::new(alloc),
            table: String::new(alloc),
            model: Vec::new(alloc),
            place: Place::Nowhere,
        }
    }

    fn put_into_file(&mut self, piece: &[u8]) -> Parsed<()> {
        let Some(row) = self.rows.last_mut() else {
            return Err(NO_ROW);
        };
        let Some(file) = row.files.last_mut() else {
            return Err(NO_TEXT);
        };
        file.bytes.extend_from_slice(piece)?;
        Ok(())
    }

    fn put_into_named(&mut self, piece: &[u8]) -> Parsed<()> {
        let Some(text) = self.texts.last_mut() else {
            return Err(NO_TEXT);
        };
        text.bytes.extend_from_slice(piece)?;
        Ok(())
    }

    fn put_into_out(&mut self, piece: &[u8]) -> Parsed<()> {
        let Some(row) = self.rows.last_mut() else {
            return Err(NO_ROW);
        };
        row.out.expected.extend_from_slice(piece)?;
        Ok(())
    }

    fn put_into_err(&mut self, piece: &[u8]) -> Parsed<()> {
        let Some(row) = self.rows.last_mut() else {
            return Err(NO_ROW);
        };
        row.err.expected.extend_from_slice(piece)?;
        Ok(())
    }

    // A line of a text.
    fn put(&mut self, mark: u8, rest: &str) -> Parsed<()> {
        let piece = piece_of(self.alloc, &self.texts, mark, rest)?;
        match self.place {
            Place::Nowhere => Err(NO_TEXT),
            Place::Named => self.put_into_named(&piece),
            Place::File => self.put_into_file(&piece),
            Place::Out => self.put_into_out(&piece),
            Place::Err => self.put_into_err(&piece),
            Place::Model => {
                self.model.extend_from_slice(&piece)?;
                Ok(())
            }
        }
    }

    // Adds a row of a table, whose model was read. It is filled where it stands: a row that a function holds at a `?`
    // would end there, with all that is in it.
    fn add_row_of_table(&mut self, line: u64) -> Parsed<&mut Row> {
        match self.place {
            Place::Model => {}
            _ => return Err(Refused::For("an answer stands behind a model of a table")),
        }
        self.rows
            .push(Row::new(self.alloc, self.table.as_str(), line)?)?;
        let Some(row) = self.rows.last_mut() else {
            return Err(NO_ROW);
        };
        let model = mem::replace(&mut self.model, Vec::new(self.alloc));
        row.check_model(self.alloc, model)?;
        Ok(row)
    }

    // An answer in a table: the model has that fault.
    fn add_fault(&mut self, fault: &str, line: u64) -> Parsed<()> {
        let alloc = self.alloc;
        let row = self.add_row_of_table(line)?;
        row.expected.status = Some(String::from_str(alloc, "4")?);
        row.expected.outcome = Some(String::from_str(alloc, "fault")?);
        row.err.expected.extend_from_slice(fault.as_bytes())?;
        row.err.expected.push(b'\n')?;
        Ok(())
    }

    // An answer in a table: the model is answered by that report, with that status.
    fn add_report(&mut self, answer: &str, line: u64) -> Parsed<()> {
        let Some((status, name)) = answer.split_once(' ') else {
            return Err(Refused::For("a status and the name of a text were expected"));
        };
        let alloc = self.alloc;
        let report = text_of(&self.texts, name)?.to_vec(alloc)?;
        let row = self.add_row_of_table(line)?;
        row.expected.status = Some(String::from_str(alloc, status)?);
        row.expected.outcome = Some(String::from_str(alloc, "checked")?);
        row.out.expected = report;
        Ok(())
    }

    // What begins behind this line has nothing to do with what stands before it.
    fn end_item(&mut self) -> Parsed<()> {
        self.place = Place::Nowhere;
        if self.model.is_empty() {
            Ok(())
        } else {
            Err(Refused::For("a model of a table has no answer"))
        }
    }

    fn begin_file(&mut self, name: &str) -> Parsed<()> {
        let name = String::from_str(self.alloc, name)?;
        let bytes = Vec::new(self.alloc);
        let Some(row) = self.rows.last_mut() else {
            return Err(NO_ROW);
        };
        row.files.push(Text { name, bytes })?;
        self.place = Place::File;
        Ok(())
    }

    fn begin_text(&mut self, name: &str) -> Parsed<()> {
        self.end_item()?;
        if text_of(&self.texts, name).is_ok() {
            return Err(Refused::For("another text has this name"));
        }
        let name = String::from_str(self.alloc, name)?;
        let bytes = Vec::new(self.alloc);
        self.texts.push(Text { name, bytes })?;
        self.place = Place::Named;
        Ok(())
    }

    fn begin_row(&mut self, title: &str, line: u64) -> Parsed<()> {
        self.end_item()?;
        self.rows.push(Row::new(self.alloc, title, line)?)?;
        Ok(())
    }

    fn begin_table(&mut self, title: &str) -> Parsed<()> {
        self.end_item()?;
        self.table = String::from_str(self.alloc, title)?;
        self.place = Place::Model;
        Ok(())
    }

    // A line that begins with a word.
    fn say(&mut self, word: &str, rest: &str, line: u64) -> Parsed<()> {
        match word {
            "text" => self.begin_text(rest),
            "row" => self.begin_row(rest, line),
            "table" => self.begin_table(rest),
            "file" => self.begin_file(rest),
            "out" => {
                self.place = Place::Out;
                Ok(())
            }
            "err" => {
                self.place = Place::Err;
                Ok(())
            }
            _ => match self.rows.last_mut() {
                Some(row) => say_of_row(self.alloc, row, word, rest),
                None => Err(NO_ROW),
            },
        }
    }

    fn take(&mut self, line: &str, number: u64) -> Parsed<()> {
        let mut chars = line.chars();
        let mark = chars.next();
        let rest = chars.as_str();
        match mark {
            None | Some('#') => Ok(()),
            Some('|') => self.put(b'|', rest),
            Some('+') => self.put(b'+', rest),
            Some('*') => self.put(b'*', rest),
            Some('=') => self.put(b'=', rest),
            Some('!') => self.add_fault(rest, number),
            Some('>') => self.add_report(rest, number),
            Some(_) => {
                let (word, rest) = line.split_once(' ').unwrap_or((line, ""));
                self.say(word, rest, number)
            }
        }
    }
}

// A line that says something of a row.
fn say_of_row(alloc: Global, row: &mut Row, word: &str, rest: &str) -> Parsed<()> {
    match word {
        "word" => row.words.push(String::from_str(alloc, rest)?)?,
        "on-disk" => row.is_on_disk = true,
        "load-fails" => row.failing.push(number(rest)?)?,
        "room-of-out" => row.out.room = number(rest)?,
        "room-of-err" => row.err.room = number(rest)?,
        "put-on-out-fails" => row.out.failing.push(two_numbers(rest)?)?,
        "put-on-err-fails" => row.err.failing.push(two_numbers(rest)?)?,
        "status" => row.expected.status = Some(String::from_str(alloc, rest)?),
        "outcome" => row.expected.outcome = Some(String::from_str(alloc, rest)?),
        "written" => row.expected.written = Some(String::from_str(alloc, rest)?),
        "loads" => row.expected.loads = Some(String::from_str(alloc, rest)?),
        "each-prefix" => row.prefixes = Some(prefixes_of(alloc, rest)?),
        _ => return Err(Refused::For("unknown word")),
    }
    Ok(())
}

fn prefixes_of(alloc: Global, said: &str) -> Parsed<Prefixes> {
    let Some((file, statuses)) = said.split_once(' ') else {
        return Err(Refused::For("the name of a file and the statuses were expected"));
    };
    Ok(Prefixes {
        file: String::from_str(alloc, file)?,
        statuses: String::from_str(alloc, statuses)?,
    })
}

// Takes the lines of a file, up to the first that is none of the format.
fn take_lines(reader: &mut Reader, text: &str) -> Result<(), (u64, Refused<&'static str>)> {
    let mut number = 0u64;
    for line in text.split('\n') {
        number = number.saturating_add(1);
        if let Err(cause) = reader.take(line, number) {
            return Err((number, cause));
        }
    }
    match reader.end_item() {
        Ok(()) => Ok(()),
        Err(cause) => Err((number, cause)),
    }
}

/// The rows of a file, or the number of its first line that is none of the format, and why.
pub fn read_rows(alloc: Global, text: &str) -> Result<Vec<Row>, (u64, Refused<&'static str>)> {
    let mut reader = Reader::new(alloc);
    let taken = take_lines(&mut reader, text);
    let rows = mem::replace(&mut reader.rows, Vec::new(alloc));
    drop(reader);
    match taken {
        Ok(()) => Ok(rows),
        Err(fault) => {
            drop(rows);
            Err(fault)
        }
    }
}

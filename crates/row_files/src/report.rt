// What is said of a row that differs from what is expected of it.
ghost use Rattle.std.specs.Prelude.{◌≡◌, IsTrue, OnOk};

use base::Mem;
use std::alloc::Global;

// How many bytes of a text are shown.
const SHOWN: usize = 60;

/// The lines on one row: none where it is as expected.
#[derive(Drop)]
pub struct Report {
    pub lines: String,
    pub is_well: bool,
}

// How many bytes two texts have in common at their fronts.
fn common(one: &[u8], other: &[u8]) -> usize {
    let mut count = 0usize;
    for (a, b) in one.iter().zip(other.iter()) {
        if *a != *b {
            break;
        }
        count = count.saturating_add(1);
    }
    count
}

// How many bytes a text has from there on, and the first of them on one line.
fn rest_of(alloc: Global, bytes: &[u8], from: usize) -> Mem<String> {
    let count = bytes.len().saturating_sub(from);
    let mut text = format!(in alloc; "{count} bytes '")?;
    for byte in bytes.iter().skip(from).take(SHOWN) {
        let byte = *byte;
        match byte {
            b'\n' => text.push_str("\\n")?,
            b' '..=b'~' => text.push(char::from(byte))?,
            _ => text.push_str(format!(in alloc; "\\x{byte:02x}")?.as_str())?,
        }
    }
    text.push('\'')?;
    Ok(text)
}

impl Report {
    /// Nothing differs yet.
    pub fn new(alloc: Global) -> Self {
        Report {
            lines: String::new(alloc),
            is_well: true,
        }
    }

    /// Says how two words differ, if they do.
    pub fn compare(&mut self, alloc: Global, what: &str, expected: &str, actual: &str) -> Mem<()>
        ensures { OnOk result (IsTrue self.new.is_well → IsTrue self.old.is_well × (expected.now ≡ actual.now)) }
    {
        if expected != actual {
            self.is_well = false;
            let line = format!(in alloc; "  {what}: expected {expected}, actual {actual}\n")?;
            self.lines.push_str(line.as_str())?;
        }
        Ok(())
    }

    /// Says where two texts differ, and what they are from there on, if they do.
    pub fn compare_bytes(
        &mut self,
        alloc: Global,
        what: &str,
        expected: &[u8],
        actual: &[u8],
    ) -> Mem<()>
        ensures { OnOk result (IsTrue self.new.is_well → IsTrue self.old.is_well × (expected.now ≡ actual.now)) }
    {
        if expected != actual {
            self.is_well = false;
            let at = common(expected, actual);
            let expected = rest_of(alloc, expected, at)?;
            let actual = rest_of(alloc, actual, at)?;
            let (expected, actual) = (expected.as_str(), actual.as_str());
            let lines = format!(in alloc;
                "  {what} from byte {at}: expected {expected}\n    actual {actual}\n"
            )?;
            self.lines.push_str(lines.as_str())?;
        }
        Ok(())
    }
}

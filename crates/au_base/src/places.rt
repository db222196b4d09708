//! Places in files.

ghost use Rattle.std.specs.Prelude.{◌≡◌, ℕ, ◌+◌, ◌^◌, ◌<◌, ◌≤◌, List, [], ◌∷◌, ◌++◌, length};

/// A place in a file. Lines and columns are counted from 1, and a column counts bytes.
#[derive(Clone, Copy, Debug, PartialEq, Eq)]
pub struct Pos {
    /// The number of the file.
    pub file: u16,
    /// The line.
    pub line: u32,
    /// The column.
    pub column: u32,
}

impl Pos {
    ghost use Rattle.au_base.specs.Places.{place_after};

    /// The place of a file's first byte.
    pub fn start(file: u16) -> Pos
        ensures { result ≡ place_after file [] }
    {
        Pos {
            file,
            line: 1,
            column: 1,
        }
    }

    /// The place behind bytes that begin at this place. Only a newline ends a line: a tab and a
    /// carriage return are bytes of their line like others.
    pub fn after(self, bytes: &[u8]) -> Pos
        requires lines { self.line + length bytes.now < 2 ^ 32 }
        requires columns { self.column + length bytes.now < 2 ^ 32 }
        ensures place { (file : ℕ) (front : List ℕ) → self ≡ place_after file front
            → result ≡ place_after file (front ++ bytes.now) }
        ensures file { result.file ≡ self.file }
        ensures line { result.line ≤ self.line + length bytes.now }
        ensures column { result.column ≤ self.column + length bytes.now }
    {
        let mut at = self;
        for byte in bytes {
            at = at.past(*byte);
        }
        at
    }

    /// The place behind one byte that stands at this place.
    fn past(self, byte: u8) -> Pos
        requires line { self.line + 1 < 2 ^ 32 }
        requires column { self.column + 1 < 2 ^ 32 }
        ensures file { result.file ≡ self.file }
        ensures line { result.line ≤ self.line + 1 }
        ensures column { result.column ≤ self.column + 1 }
        ensures place { (file : ℕ) (front : List ℕ) → self ≡ place_after file front
            → result ≡ place_after file (front ++ byte ∷ []) }
    {
        if byte == b'\n' {
            Pos {
                file: self.file,
                line: self.line + 1,
                column: 1,
            }
        } else {
            Pos {
                file: self.file,
                line: self.line,
                column: self.column + 1,
            }
        }
    }
}

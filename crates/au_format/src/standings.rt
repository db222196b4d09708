//! What is known at a place of a file by what stands before it.

ghost use Rattle.std.specs.Prelude.{◌≡◌, ◌+◌, ◌^◌, ◌<◌, [], None};
ghost use Rattle.au_format.specs.Standings as spec;

use crate::kinds::Kind;
use crate::marks::{
    begins_behind, case_through, choices_behind, closes, hugs, import_through, is_last_semicolon,
    opens,
};

/// The piece before a place that is no blank.
#[derive(Clone, Copy)]
pub enum Previous {
    /// There is none.
    Nothing,
    /// A token.
    Token,
    /// A docstring.
    Docstring,
    /// A comment.
    Comment,
}

/// What the tokens before a place say of it.
#[derive(Clone, Copy)]
pub struct Standing {
    /// The token before it.
    pub last: Option<Kind>,
    /// The token before that.
    pub second: Option<Kind>,
    /// How many expressions have an `else` to come.
    pub choices: usize,
    /// Whether an `if` here is one of a statement.
    pub begins: bool,
    /// Whether the last keyword is the `is` of a union's case.
    pub in_case: bool,
    /// Whether the last keyword is `import`.
    pub in_import: bool,
    /// How many levels are open.
    pub levels: usize,
    /// Whether the line ends here.
    pub ended: bool,
    /// Whether no blank stands here, whatever follows.
    pub hugging: bool,
}

impl Standing {
    /// What is known at the beginning of a file.
    pub fn start() -> Standing
        ensures { result ≡ spec.standing [] None }
    {
        Standing {
            last: None,
            second: None,
            choices: 0,
            begins: true,
            in_case: false,
            in_import: false,
            levels: 0,
            ended: true,
            hugging: false,
        }
    }

    /// What is known behind one token more, before the next one.
    pub fn step(self, kind: Kind, next: Option<Kind>) -> Standing
        requires choices { self.choices + 1 < 2 ^ 64 }
        requires levels { self.levels + 1 < 2 ^ 64 }
        ensures { result ≡ spec.step self kind next }
    {
        let opens = opens(self.second, self.choices, kind, next);
        let closed = closes(self.last, self.choices, kind, next);
        Standing {
            last: Some(kind),
            second: self.last,
            choices: choices_behind(self.choices, self.begins, kind),
            begins: begins_behind(self.choices, kind),
            in_case: case_through(self.second, self.in_case, kind),
            in_import: import_through(self.in_import, kind),
            levels: self.levels.saturating_sub(closed) + opens as usize,
            ended: next.is_none() || opens || is_last_semicolon(self.in_case, kind, next),
            hugging: hugs(self.last, kind, next),
        }
    }
}

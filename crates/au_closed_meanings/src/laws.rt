//! Closing keeps the meaning of a program, as contracts of calls that do nothing.

ghost use Rattle.au_closed_meanings.specs.InRow.{KeepsMeaningInRow};
ghost use Rattle.au_closed_meanings.specs.Listed.{ListedCount, RowsMadeSay};
ghost use Rattle.au_closed_meanings.specs.Kept.{KeepsMeaning, ProgramsSay};
ghost use Rattle.au_closed_meanings.specs.Numbers.{BodiesStand, FirstNamesAreApart, NumbersAreApart};

/// From its entry a program with notes does exactly what the closed program does that it closes to, where
/// what is known round closed trees is what the program itself says of all types that count.
pub fn closing_keeps_meaning()
    ensures keeps { KeepsMeaning }
    ensures says { ProgramsSay }
{}

/// The same of closed programs with the rows of their types, where each name has the number of its
/// declaration in the text of the program.
pub fn closing_keeps_meaning_in_row()
    ensures { KeepsMeaningInRow }
{}

/// Rows that are made for a list of declared types say what the program itself says, of those in the list and
/// of all types that aren't declared.
pub fn rows_made_say_what_is()
    ensures { RowsMadeSay }
{}

/// By a list of declared types in which those of closed functions stand, with those of their fields, the
/// types count that have to.
pub fn listed_types_count()
    ensures { ListedCount }
{}

/// The names of a program are numbered body after body in the order of the text: each body stands at its
/// place among them, and no number is that of two declarations. Instances of one body number its names
/// alike.
pub fn numbers_are_of_declarations()
    ensures stand { BodiesStand }
    ensures apart { NumbersAreApart }
    ensures first { FirstNamesAreApart }
{}

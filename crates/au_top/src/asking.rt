//! What the words of the command line ask of the program of their files.

ghost use Rattle.std.specs.Prelude.{◌≡◌};
ghost use Rattle.au_words.specs.Jobs.{task_of};
ghost use Rattle.au_top.specs.Jobs as asked;

use au_outcomes::Aim;
use au_words::{Command, Job};

/// What a job asks of the program of its files.
pub fn asked_of(job: &Job) -> Aim
    ensures { result ≡ asked.asked_of (task_of job.now) }
{
    match job.command {
        Command::Check => Aim::Check,
        Command::Format => Aim::Format,
        Command::Caps => Aim::Caps,
        Command::Explain => Aim::Explain,
        Command::Compile => Aim::Compile,
        Command::Run => Aim::Run,
    }
}

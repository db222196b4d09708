//! The command line, as `clap` is told it.

ghost use Rattle.std.specs.Prelude.{◌≡◌, false, IfOk};
ghost use Rattle.clap.specs.Words.{app_of, rule_of, shape_of};
ghost use Rattle.clap.specs.declared.Command.TheViews.{out-Command as fields_of};
ghost use Rattle.au_words.specs.Given as given;
ghost use Rattle.au_words.specs.declared.jobs.Command.TheVariants as command;

use clap::{Arg, ArgAction};
use std::alloc::{AllocError, Global};

/// The parts: at least one.
fn part_argument<'a>(alloc: Global) -> Arg<'a>
    ensures rule { rule_of result ≡ given.part_argument }
    ensures local { result.global ≡ false }
{
    Arg::new(alloc, "part")
        .action(ArgAction::Append)
        .required(true)
}

/// `--entry M:f`.
fn entry_argument<'a>(alloc: Global) -> Arg<'a>
    ensures rule { rule_of result ≡ given.entry_argument }
    ensures local { result.global ≡ false }
{
    Arg::new(alloc, "entry")
        .long("entry")
        .action(ArgAction::Set)
}

/// `--steps N`.
fn steps_argument<'a>(alloc: Global) -> Arg<'a>
    ensures rule { rule_of result ≡ given.steps_argument }
    ensures local { result.global ≡ false }
{
    Arg::new(alloc, "steps")
        .long("steps")
        .action(ArgAction::Set)
}

/// `--life`.
fn life_argument<'a>(alloc: Global) -> Arg<'a>
    ensures rule { rule_of result ≡ given.life_argument }
    ensures local { result.global ≡ false }
{
    Arg::new(alloc, "life")
        .long("life")
        .action(ArgAction::SetTrue)
}

/// `run`.
fn run_command<'a>(alloc: Global) -> Result<clap::Command<'a>, AllocError>
    ensures shape { IfOk result (λ c. shape_of c ≡ given.subcommand command.Run) }
    ensures local { IfOk result (λ c. (fields_of c).has_globals ≡ false) }
{
    clap::Command::new(alloc, "run")
        .arg(part_argument(alloc))?
        .arg(entry_argument(alloc))?
        .arg(steps_argument(alloc))?
        .arg(life_argument(alloc))
}

/// `compile`.
fn compile_command<'a>(alloc: Global) -> Result<clap::Command<'a>, AllocError>
    ensures shape { IfOk result (λ c. shape_of c ≡ given.subcommand command.Compile) }
    ensures local { IfOk result (λ c. (fields_of c).has_globals ≡ false) }
{
    clap::Command::new(alloc, "compile")
        .arg(part_argument(alloc))?
        .arg(entry_argument(alloc))
}

/// `explain`.
fn explain_command<'a>(alloc: Global) -> Result<clap::Command<'a>, AllocError>
    ensures shape { IfOk result (λ c. shape_of c ≡ given.subcommand command.Explain) }
    ensures local { IfOk result (λ c. (fields_of c).has_globals ≡ false) }
{
    clap::Command::new(alloc, "explain").arg(part_argument(alloc))
}

/// `check`.
fn check_command<'a>(alloc: Global) -> Result<clap::Command<'a>, AllocError>
    ensures shape { IfOk result (λ c. shape_of c ≡ given.subcommand command.Check) }
    ensures local { IfOk result (λ c. (fields_of c).has_globals ≡ false) }
{
    clap::Command::new(alloc, "check").arg(part_argument(alloc))
}

/// `format`.
fn format_command<'a>(alloc: Global) -> Result<clap::Command<'a>, AllocError>
    ensures shape { IfOk result (λ c. shape_of c ≡ given.subcommand command.Format) }
    ensures local { IfOk result (λ c. (fields_of c).has_globals ≡ false) }
{
    clap::Command::new(alloc, "format").arg(part_argument(alloc))
}

/// `caps`.
fn caps_command<'a>(alloc: Global) -> Result<clap::Command<'a>, AllocError>
    ensures shape { IfOk result (λ c. shape_of c ≡ given.subcommand command.Caps) }
    ensures local { IfOk result (λ c. (fields_of c).has_globals ≡ false) }
{
    clap::Command::new(alloc, "caps").arg(part_argument(alloc))
}

/// The commands, their parts and their options. There is no help, and no name of the program.
pub fn program<'a>(alloc: Global) -> Result<clap::Command<'a>, AllocError>
    ensures { IfOk result (λ c. app_of c ≡ given.program) }
{
    clap::Command::new(alloc, "austral")
        .no_binary_name(true)
        .disable_help_flag(true)
        .disable_help_subcommand(true)
        .subcommand_required(true)
        .subcommand(run_command(alloc)?)?
        .subcommand(compile_command(alloc)?)?
        .subcommand(explain_command(alloc)?)?
        .subcommand(check_command(alloc)?)?
        .subcommand(format_command(alloc)?)?
        .subcommand(caps_command(alloc)?)
}

//! The words as `clap` is told to read them.
ghost use Rattle.std.specs.Prelude.{◌≡◌, IfOk, false};
ghost use Rattle.clap.specs.Simple.{app_of};
ghost use Rattle.clap.specs.Walk.{rule_of};
ghost use Rattle.command_line.specs.Clap.{flag_rule, mill_app, option_app, option_rule, positional_app};

use clap::{Arg, ArgAction, Command};
use std::alloc::{AllocError, Global};

// An option with one value, which is given once at most.
fn valued<'a>(alloc: Global, name: &'a str) -> Arg<'a>
    ensures rule { rule_of result ≡ option_rule name.entry.now }
    ensures local { result.global ≡ false }
{
    Arg::new(alloc, name).long(name).action(ArgAction::Set)
}

// The command with its mode and the arguments behind it. How many there are is left to the mode.
fn positionals<'a>(alloc: Global) -> Result<Command<'a>, AllocError>
    ensures app { IfOk result (λ command. app_of command ≡ positional_app) }
{
    Command::new(alloc, "millwheel")
        .no_binary_name(true)
        .disable_help_flag(true)
        .arg(Arg::new(alloc, "mode"))?
        .arg(Arg::new(alloc, "args").action(ArgAction::Append))
}

// Its options beside them.
fn options<'a>(alloc: Global) -> Result<Command<'a>, AllocError>
    ensures app { IfOk result (λ command. app_of command ≡ option_app) }
{
    positionals(alloc)?
        .arg(valued(alloc, "plan"))?
        .arg(valued(alloc, "workers"))?
        .arg(valued(alloc, "rounds"))?
        .arg(valued(alloc, "keep"))?
        .arg(valued(alloc, "trace"))
}

// A flag.
fn flag<'a>(alloc: Global, name: &'a str) -> Arg<'a>
    ensures rule { rule_of result ≡ flag_rule name.entry.now }
    ensures local { result.global ≡ false }
{
    Arg::new(alloc, name).long(name).action(ArgAction::SetTrue)
}

/// One simple command: a mode, its arguments, five options with one value each, and two flags.
pub(crate) fn parser<'a>(alloc: Global) -> Result<Command<'a>, AllocError>
    ensures app { IfOk result (λ command. app_of command ≡ mill_app) }
{
    options(alloc)?
        .arg(flag(alloc, "history"))?
        .arg(flag(alloc, "live"))
}

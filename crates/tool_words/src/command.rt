//! The command line of rvklee, as `clap` is told of it.

ghost use Rattle.std.specs.Prelude.{◌≡◌, IfOk, false};
ghost use Rattle.clap.specs.Words.{app_of, rule_of};
ghost use Rattle.clap.specs.declared.builder.command.Command.TheViews.{out-Command as fields_of};
ghost use Rattle.tool_words.specs.Command.{audit_command, bench_command, explore_command, value_option, replay_command, required_word, required_words, rvklee_command, upgrade_command};

use clap::{Arg, Command};
use std::alloc::{AllocError as NoMemory, Global};

/// `rvklee COMMAND ..`.
pub(crate) fn rvklee<'a>(alloc: Global) -> Result<Command<'a>, NoMemory>
    ensures { IfOk result (λ command. app_of command ≡ rvklee_command) }
{
    Command::new(alloc, "rvklee")
        .subcommand_required(true)
        .subcommand(explore(alloc)?)?
        .subcommand(replay(alloc)?)?
        .subcommand(bench(alloc)?)?
        .subcommand(upgrade(alloc)?)?
        .subcommand(audit(alloc)?)
}

/// `explore [--steps N] [--targets N] [--conflicts N] [--workers N] [--nodes N] [--order O] PROGRAM OUT INPUT..`.
fn explore<'a>(alloc: Global) -> Result<Command<'a>, NoMemory>
    ensures app { IfOk result (λ command. app_of command ≡ explore_command) }
    ensures local { IfOk result (λ command. (fields_of command).has_globals ≡ false) }
{
    Command::new(alloc, "explore")
        .arg(value_option(alloc, "steps"))?
        .arg(value_option(alloc, "targets"))?
        .arg(value_option(alloc, "conflicts"))?
        .arg(value_option(alloc, "workers"))?
        .arg(value_option(alloc, "nodes"))?
        .arg(value_option(alloc, "order"))?
        .arg(required_word(alloc, "PROGRAM"))?
        .arg(required_word(alloc, "OUT"))?
        .arg(required_words(alloc, "INPUT"))
}

/// `replay PROGRAM TEST`.
fn replay<'a>(alloc: Global) -> Result<Command<'a>, NoMemory>
    ensures app { IfOk result (λ command. app_of command ≡ replay_command) }
    ensures local { IfOk result (λ command. (fields_of command).has_globals ≡ false) }
{
    Command::new(alloc, "replay")
        .arg(required_word(alloc, "PROGRAM"))?
        .arg(required_word(alloc, "TEST"))
}

/// `bench NUMBER WORKERS OUT`.
fn bench<'a>(alloc: Global) -> Result<Command<'a>, NoMemory>
    ensures app { IfOk result (λ command. app_of command ≡ bench_command) }
    ensures local { IfOk result (λ command. (fields_of command).has_globals ≡ false) }
{
    Command::new(alloc, "bench")
        .arg(required_word(alloc, "NUMBER"))?
        .arg(required_word(alloc, "WORKERS"))?
        .arg(required_word(alloc, "OUT"))
}

/// `upgrade TEST OUT`.
fn upgrade<'a>(alloc: Global) -> Result<Command<'a>, NoMemory>
    ensures app { IfOk result (λ command. app_of command ≡ upgrade_command) }
    ensures local { IfOk result (λ command. (fields_of command).has_globals ≡ false) }
{
    Command::new(alloc, "upgrade")
        .arg(required_word(alloc, "TEST"))?
        .arg(required_word(alloc, "OUT"))
}

/// `audit PROGRAM CERT`.
fn audit<'a>(alloc: Global) -> Result<Command<'a>, NoMemory>
    ensures app { IfOk result (λ command. app_of command ≡ audit_command) }
    ensures local { IfOk result (λ command. (fields_of command).has_globals ≡ false) }
{
    Command::new(alloc, "audit")
        .arg(required_word(alloc, "PROGRAM"))?
        .arg(required_word(alloc, "CERT"))
}

/// An option with a value, `--name VALUE`, that may be given once.
fn value_option<'a>(alloc: Global, name: &'a str) -> Arg<'a>
    ensures rule { rule_of result ≡ value_option name.entry.now }
    ensures local { result.global ≡ false }
{
    Arg::new(alloc, name).long(name)
}

/// A word that has to be given, by its place.
fn required_word<'a>(alloc: Global, name: &'a str) -> Arg<'a>
    ensures rule { rule_of result ≡ required_word name.entry.now }
    ensures local { result.global ≡ false }
{
    Arg::new(alloc, name).required(true)
}

/// One such word or more.
fn required_words<'a>(alloc: Global, name: &'a str) -> Arg<'a>
    ensures rule { rule_of result ≡ required_words name.entry.now }
    ensures local { result.global ≡ false }
{
    required_word(alloc, name).num_args(1..)
}

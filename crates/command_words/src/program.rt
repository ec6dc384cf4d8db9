//! What `clap` is told of the program.
ghost use Rattle.std.specs.Prelude.{◌≡◌, [], IfOk, map};
ghost use Rattle.clap.specs.Simple.{app_of, with_rule, with_subcommand};
ghost use Rattle.command_words.specs.Commands.{app_with, bare_app, command_shape, option_rule, word_rule};
ghost use Rattle.command_words.specs.Settings.{name_of};
ghost use Rattle.command_words.specs.Split.{commands};

use crate::command_name::CommandName;
use crate::settings::Setting;
use clap::{Arg, ArgAction, Command};
use std::alloc::{AllocError, Global};

// The command with one option more, which may be given again and has one value each time.
fn with_option<'a>(
    alloc: Global,
    command: Command<'a>,
    option: &'a str,
) -> Result<Command<'a>, AllocError>
    ensures { IfOk result (λ c.
        app_of c ≡ with_rule (app_of command.entry) (option_rule option.now)) }
{
    let arg = Arg::new(alloc, option)
        .long(option)
        .action(ArgAction::Append);
    command.arg(arg)
}

// The command with any ordinary words.
fn with_words<'a>(alloc: Global, command: Command<'a>) -> Result<Command<'a>, AllocError>
    ensures { IfOk result (λ c. app_of c ≡ with_rule (app_of command.entry) word_rule) }
{
    let words = Arg::new(alloc, "word").action(ArgAction::Append);
    command.arg(words)
}

// A command with these options and any ordinary words.
fn command_with<'a>(
    alloc: Global,
    name: &'a str,
    settings: &[Setting],
) -> Result<Command<'a>, AllocError>
    ensures { IfOk result (λ c.
        app_of c ≡ record { top = command_shape name.now (map name_of settings.now); subs = [] }) }
{
    let mut command = Command::new(alloc, name);
    for setting in settings {
        command = with_option(alloc, command, setting.name())?;
    }
    with_words(alloc, command)
}

// The program with one command more.
fn with_command<'a>(
    alloc: Global,
    program: Command<'a>,
    name: &'a str,
    settings: &[Setting],
) -> Result<Command<'a>, AllocError>
    ensures { IfOk result (λ c. app_of c ≡ with_subcommand (app_of program.entry)
        (command_shape name.now (map name_of settings.now))) }
{
    let command = command_with(alloc, name, settings)?;
    program.subcommand(command)
}

// The program before its commands. It has no help and no version.
fn bare_program<'a>(alloc: Global) -> Command<'a>
    ensures { app_of result ≡ bare_app }
{
    Command::new(alloc, "baseline")
        .no_binary_name(true)
        .disable_help_flag(true)
        .disable_help_subcommand(true)
        .disable_version_flag(true)
        .subcommand_required(true)
}

/// The program with its commands.
pub fn program<'a>(alloc: Global) -> Result<Command<'a>, AllocError>
    ensures { IfOk result (λ c. app_of c ≡ app_with commands) }
{
    let mut program = bare_program(alloc);
    for command in CommandName::ALL {
        program = with_command(alloc, program, command.name(), command.settings())?;
    }
    Ok(program)
}

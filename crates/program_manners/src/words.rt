//! A command and its options, as `clap` takes them.
ghost use Rattle.std.specs.Prelude.{◌≡◌, IfOk, [], false, map, option_map, pos, unwrap_or};
ghost use Rattle.clap.specs.Simple.{app_of};
ghost use Rattle.clap.specs.Words.{all_of, first_of, found_of, rows_of, rule_of, with_rule};
ghost use Rattle.program_manners.specs.Words.{files_rule, flag_rule, is_given, list_option};
ghost use Rattle.program_manners.specs.Words.{named_app, null_flag, number_rule};
ghost use Rattle.program_manners.specs.Words.{option_rule, positional_rule, repeated_rule};

use crate::version::VERSION;
use clap::builder::ValueParser;
use clap::{Arg, ArgAction, ArgMatches, Command};
use std::alloc::{AllocError, Global};

const LIST_HELP: &str = "Read the FILEs that LIST names, a name a line";

const NULL_HELP: &str = "Names of LIST end with NUL, as by `find -print0`";

/// An option with a value: `--NAME VALUE`.
pub fn option_arg<'a>(alloc: Global, name: &'a str, value: &'a str, help: &'a str) -> Arg<'a>
    ensures rule { rule_of result ≡ option_rule name.entry.now }
    ensures local { result.global ≡ false }
{
    Arg::new(alloc, name)
        .long(name)
        .value_name(value)
        .action(ArgAction::Set)
        .help(help)
}

/// An option with a value, which may be given again: `--NAME VALUE`.
pub fn repeated_arg<'a>(alloc: Global, name: &'a str, value: &'a str, help: &'a str) -> Arg<'a>
    ensures rule { rule_of result ≡ repeated_rule name.entry.now }
    ensures local { result.global ≡ false }
{
    Arg::new(alloc, name)
        .long(name)
        .value_name(value)
        .action(ArgAction::Append)
        .help(help)
}

/// An option with a number of 1 to `most`, and its default: `--NAME N`.
pub fn number_arg<'a>(
    alloc: Global,
    name: &'a str,
    most: u32,
    default: &'a str,
    help: &'a str,
) -> Arg<'a>
    ensures rule { rule_of result ≡ number_rule name.entry.now (pos most) default.entry.now }
    ensures local { result.global ≡ false }
{
    option_arg(alloc, name, "N", help)
        .value_parser(ValueParser::signed(1, i64::from(most)))
        .default_value(default)
}

/// An option with one or more files, which may be given again: `--NAME FILE..`.
pub fn files_arg<'a>(alloc: Global, name: &'a str, help: &'a str) -> Arg<'a>
    ensures rule { rule_of result ≡ files_rule name.entry.now }
    ensures local { result.global ≡ false }
{
    Arg::new(alloc, name)
        .long(name)
        .value_name("FILE")
        .num_args(1..)
        .action(ArgAction::Append)
        .help(help)
}

/// A flag: `--NAME`.
pub fn flag_arg<'a>(alloc: Global, name: &'a str, help: &'a str) -> Arg<'a>
    ensures rule { rule_of result ≡ flag_rule name.entry.now }
    ensures local { result.global ≡ false }
{
    Arg::new(alloc, name)
        .long(name)
        .action(ArgAction::SetTrue)
        .help(help)
}

/// A positional argument: `NAME`. `Set` takes one value, `Append` any number.
pub fn positional_arg<'a>(alloc: Global, name: &'a str, action: ArgAction, help: &'a str) -> Arg<'a>
    ensures rule { rule_of result ≡ positional_rule name.entry.now action }
    ensures local { result.global ≡ false }
{
    Arg::new(alloc, name).action(action).help(help)
}

/// The command with one argument more, which is not global.
pub fn with_arg<'a>(command: Command<'a>, arg: Arg<'a>) -> Result<Command<'a>, AllocError>
    requires { arg.global ≡ false }
    ensures { IfOk result
        (λ more. app_of more ≡ with_rule (app_of command.entry) (rule_of arg.entry)) }
{
    command.arg(arg)
}

fn first_paragraph(text: &str) -> &str {
    match text.split_once("\n\n") {
        Some((first, _)) => first,
        None => text,
    }
}

/// The command with its help: these texts around its arguments, of which `-h` shows the first
/// paragraph.
pub fn with_help<'a>(command: Command<'a>, about: &'a str, notes: &'a str) -> Command<'a>
    ensures { app_of result ≡ app_of command.entry }
{
    command
        .about(first_paragraph(about))
        .long_about(about)
        .after_help(first_paragraph(notes))
        .after_long_help(notes)
}

/// A command of this name that prints the version, and has no options yet.
pub fn new_command<'a>(alloc: Global, name: &'a str, about: &'a str, notes: &'a str) -> Command<'a>
    ensures { app_of result ≡ named_app name.entry.now }
{
    with_help(Command::new(alloc, name).version(VERSION), about, notes)
}

fn list_arg<'a>(alloc: Global) -> Arg<'a>
    ensures rule { rule_of result ≡ list_option }
    ensures local { result.global ≡ false }
{
    option_arg(alloc, "files-from", "LIST", LIST_HELP)
}

fn null_arg<'a>(alloc: Global) -> Arg<'a>
    ensures rule { rule_of result ≡ null_flag }
    ensures local { result.global ≡ false }
{
    flag_arg(alloc, "null", NULL_HELP).short('0')
}

/// The command with the options of a list of files: `--files-from LIST` and `-0`.
pub fn add_list_args<'a>(alloc: Global, command: Command<'a>) -> Result<Command<'a>, AllocError>
    ensures { IfOk result (λ more. app_of more
        ≡ with_rule (with_rule (app_of command.entry) list_option) null_flag) }
{
    with_arg(with_arg(command, list_arg(alloc))?, null_arg(alloc))
}

/// The value under this name, if there is one: the first one.
pub fn value_in<'a>(matches: &ArgMatches<'a>, name: &str) -> Option<&'a str>
    ensures { option_map (λ v. v.now) result
        ≡ first_of name.now (rows_of (found_of matches.now)) }
{
    matches.get_str(name)
}

/// All values under this name, in order.
pub fn names_in<'a>(
    alloc: Global,
    matches: &ArgMatches<'a>,
    name: &str,
) -> Result<Vec<&'a str>, AllocError>
    ensures { IfOk result (λ names. map (λ n. n.now) names.items
        ≡ unwrap_or (all_of name.now (rows_of (found_of matches.now))) []) }
{
    match matches.get_strs(name) {
        Some(names) => Vec::from_slice(alloc, names),
        None => Ok(Vec::new(alloc)),
    }
}

/// Whether a flag was given. The contract of `get_flag` says less of what it answers.
pub fn flag_in<'a>(matches: &ArgMatches<'a>, name: &str) -> bool
    ensures { result ≡ is_given name.now (rows_of (found_of matches.now)) }
{
    matches.get_one(name).unwrap_or(false)
}

//! The whole command line, as `clap` reads it.
ghost use Rattle.std.specs.Prelude.{◌≡◌, IfOk, false, fold};
ghost use Rattle.clap.specs.Words.{app_of, with_subcommand};
ghost use Rattle.tool_words.specs.ToolLine.{app_of_name, program};
ghost use Rattle.tool_words.specs.inside.Rows.{shape_of_table};

use crate::arguments::Subcommand;
use crate::subcommands::{ABOUT, NOTES, SUBCOMMANDS};
use clap::Command;
use program_manners::new_command;
use std::alloc::{AllocError, Global};

fn with_leaf<'a>(
    alloc: Global,
    command: Command<'a>,
    table: &Subcommand,
    is_whole: bool,
) -> Result<Command<'a>, AllocError>
    ensures { is_whole ≡ false → IfOk result
        (λ more. app_of more ≡ with_subcommand (app_of command.entry) (shape_of_table table.now)) }
{
    command.subcommand(table.command(alloc, is_whole)?)
}

fn name_command<'a>(alloc: Global) -> Command<'a>
    ensures { app_of result ≡ app_of_name }
{
    new_command(alloc, "omny_tools", ABOUT, NOTES)
        .subcommand_required(true)
        .arg_required_else_help(true)
}

fn with_leaves<'a>(
    alloc: Global,
    tables: &[Subcommand],
    is_whole: bool,
) -> Result<Command<'a>, AllocError>
    ensures { is_whole ≡ false → IfOk result (λ command. app_of command
        ≡ fold (λ app table. with_subcommand app (shape_of_table table)) app_of_name tables.now) }
{
    let mut command = name_command(alloc);
    for table in tables {
        command = with_leaf(alloc, command, table, is_whole)?;
    }
    Ok(command)
}

/// The rules between arguments are left out if it is not whole: clap's contract says which words it
/// takes.
#[tactic(auto, unfolding(crate::specs::ToolLine::program))]
pub(crate) fn command<'a>(alloc: Global, is_whole: bool) -> Result<Command<'a>, AllocError>
    ensures { is_whole ≡ false → IfOk result (λ command. app_of command ≡ program) }
{
    with_leaves(alloc, &SUBCOMMANDS, is_whole)
}

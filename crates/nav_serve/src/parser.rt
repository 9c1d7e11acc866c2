//! The command line, as `clap` is told it.
ghost use Rattle.std.specs.Prelude.{◌≡◌, false, IfOk};
ghost use Rattle.clap.specs.{Words.{app_of}, declared.builder.command.Command.TheViews.{out-Command as fields_of}};
ghost use Rattle.nav_serve.specs.CommandLine.{command_line, demo_line, serve_line};

use clap::{Arg, Command};
use std::alloc::{AllocError, Global};

/// The command line: one of six commands. It has no flags, so that the words alone say which.
pub fn command_line<'a>(alloc: Global) -> Result<Command<'a>, AllocError>
    ensures { IfOk result (λ line. app_of line ≡ command_line) }
{
    Command::new(alloc, "navd")
        .no_binary_name(true)
        .disable_help_flag(true)
        .disable_help_subcommand(true)
        .subcommand_required(true)
        .subcommand(Command::new(alloc, "once"))?
        .subcommand(Command::new(alloc, "upgrade"))?
        .subcommand(Command::new(alloc, "run"))?
        .subcommand(Command::new(alloc, "lsp"))?
        .subcommand(demo_line(alloc)?)?
        .subcommand(serve_line(alloc)?)
}

/// `demo` and its two words, both required, so that fewer are no command.
fn demo_line<'a>(alloc: Global) -> Result<Command<'a>, AllocError>
    ensures { IfOk result (λ line. (app_of line ≡ demo_line)
        × ((fields_of line).has_globals ≡ false)) }
{
    Command::new(alloc, "demo")
        .arg(Arg::new(alloc, "files").required(true))?
        .arg(Arg::new(alloc, "start").required(true))
}

/// `serve` and its three words, required as well.
fn serve_line<'a>(alloc: Global) -> Result<Command<'a>, AllocError>
    ensures { IfOk result (λ line. (app_of line ≡ serve_line)
        × ((fields_of line).has_globals ≡ false)) }
{
    Command::new(alloc, "serve")
        .arg(Arg::new(alloc, "port").required(true))?
        .arg(Arg::new(alloc, "doors").required(true))?
        .arg(Arg::new(alloc, "connections").required(true))
}

//! The command that `clap` reads the words by.

ghost use Rattle.std.specs.Prelude.{◌≡◌, IfOk, false};
ghost use Rattle.clap.specs.Words.{app_of};
ghost use Rattle.clap.specs.declared.builder.command.Command.TheViews.{out-Command};
ghost use Rattle.program_words.specs.Commands.{drill_app, image_app, program_app};

use clap::{Arg, Command, value_parser};
use std::alloc::{AllocError, Global};

/// The name of an image where none is given.
const DEFAULT_IMAGE: &str = "respct.image";

/// The program's command: a subcommand for each form.
pub fn program<'a>(alloc: Global) -> Result<Command<'a>, AllocError>
    ensures { IfOk result (λ command. app_of command ≡ program_app) }
{
    let start = image_command(alloc, "start")?;
    let resume = image_command(alloc, "resume")?;
    let check = image_command(alloc, "check")?;
    let drill = drill_command(alloc)?;
    let bare = Command::new(alloc, "respct").no_binary_name(true);
    let starting = bare.subcommand(start)?;
    let resuming = starting.subcommand(resume)?;
    let checking = resuming.subcommand(check)?;
    checking.subcommand(drill)
}

/// The subcommand of this name, whose option names an image.
fn image_command<'a>(alloc: Global, name: &'a str) -> Result<Command<'a>, AllocError>
    ensures app { IfOk result (λ command. app_of command ≡ image_app name.now) }
    ensures local { IfOk result (λ command. (out-Command command).has_globals ≡ false) }
{
    let image = Arg::new(alloc, "image")
        .long("image")
        .default_value(DEFAULT_IMAGE);
    Command::new(alloc, name).arg(image)
}

/// The subcommand that takes a drill's number.
fn drill_command<'a>(alloc: Global) -> Result<Command<'a>, AllocError>
    ensures app { IfOk result (λ command. app_of command ≡ drill_app) }
    ensures local { IfOk result (λ command. (out-Command command).has_globals ≡ false) }
{
    let number = Arg::new(alloc, "number")
        .required(true)
        .value_parser(value_parser!(u64));
    Command::new(alloc, "drill").arg(number)
}

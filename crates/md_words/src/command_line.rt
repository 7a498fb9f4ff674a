// The command line, as clap is told of it.
ghost use Rattle.std.specs.Prelude.{◌≡◌, IfOk, false};
ghost use Rattle.std.specs.List.{fold};
ghost use Rattle.clap.specs.Walk.{texts};
ghost use Rattle.clap.specs.Words.{app_of, rule_of};
ghost use Rattle.clap.specs.declared.builder.command.Command.TheViews.{out-Command as fields_of};
ghost use Rattle.md_words.specs.Commands.{app_in, rule_in, with_command, with_option};
ghost use Rattle.md_words.specs.Words.{flag_rule, image_rule, mdcli, texts_rule, u32_rule, u64_rule, value_rule, verbose_rule, with_aliases, with_array_commands, with_data_commands, with_examine_commands, with_member_commands, with_rebuild_commands};

use crate::commands::{
    ARRAY_COMMANDS, CommandWords, DATA_COMMANDS, EXAMINE_COMMANDS, Kind, MEMBER_COMMANDS,
    OptionWords, REBUILD_COMMANDS,
};
use clap::builder::ValueParserFactory;
use clap::{Arg, ArgAction, Command};
use std::alloc::{AllocError, Global};

// The images, listed last. Their number is no matter of the parser's: the command itself refuses it by
// name.
fn image_arg<'a>(alloc: Global) -> Arg<'a>
    ensures rule { rule_of result ≡ image_rule }
    ensures local { result.global ≡ false }
{
    Arg::new(alloc, "image")
        .num_args(1..)
        .value_name("IMAGE")
        .help("The image of a member: a file or a block device")
}

// An option with a value.
fn value_arg<'a>(alloc: Global, name: &'a str, value: &'a str, help: &'a str) -> Arg<'a>
    ensures rule { rule_of result ≡ value_rule name.entry.now }
    ensures local { result.global ≡ false }
{
    Arg::new(alloc, name)
        .long(name)
        .value_name(value)
        .help(help)
}

// An option with a number.
fn u32_arg<'a>(alloc: Global, name: &'a str, value: &'a str, help: &'a str) -> Arg<'a>
    ensures rule { rule_of result ≡ u32_rule name.entry.now }
    ensures local { result.global ≡ false }
{
    value_arg(alloc, name, value, help).value_parser(u32::value_parser())
}

fn u64_arg<'a>(alloc: Global, name: &'a str, value: &'a str, help: &'a str) -> Arg<'a>
    ensures rule { rule_of result ≡ u64_rule name.entry.now }
    ensures local { result.global ≡ false }
{
    value_arg(alloc, name, value, help).value_parser(u64::value_parser())
}

// An option with a value, which may be given more than once.
fn texts_arg<'a>(alloc: Global, name: &'a str, value: &'a str, help: &'a str) -> Arg<'a>
    ensures rule { rule_of result ≡ texts_rule name.entry.now }
    ensures local { result.global ≡ false }
{
    value_arg(alloc, name, value, help).action(ArgAction::Append)
}

// An option without a value.
fn flag_arg<'a>(alloc: Global, name: &'a str, help: &'a str) -> Arg<'a>
    ensures rule { rule_of result ≡ flag_rule name.entry.now }
    ensures local { result.global ≡ false }
{
    Arg::new(alloc, name)
        .long(name)
        .action(ArgAction::SetTrue)
        .help(help)
}

// Asked of every command.
fn verbose_arg<'a>(alloc: Global) -> Arg<'a>
    ensures rule { rule_of result ≡ verbose_rule }
    ensures local { result.global ≡ false }
{
    let help = "Says more of a refusal: the image that it is about, and what to do";
    flag_arg(alloc, "verbose", help).short('v')
}

// What clap is told of an option.
fn option_arg<'a>(alloc: Global, option: &OptionWords<'a>) -> Arg<'a>
    ensures rule { rule_of result ≡ rule_in option.now }
    ensures local { result.global ≡ false }
{
    let arg = match option.kind {
        Kind::Text => value_arg(alloc, option.name, option.value, option.help),
        Kind::U32 => u32_arg(alloc, option.name, option.value, option.help),
        Kind::U64 => u64_arg(alloc, option.name, option.value, option.help),
        Kind::Texts => texts_arg(alloc, option.name, option.value, option.help),
        Kind::Flag => flag_arg(alloc, option.name, option.help),
    };
    let arg = arg.required(option.required);
    match option.default {
        Some(text) => arg.default_value(text),
        None => arg,
    }
}

// The options of a command, in this order.
fn with_options<'a>(
    alloc: Global,
    mut command: Command<'a>,
    options: &[OptionWords<'a>],
) -> Result<Command<'a>, AllocError>
    ensures app { IfOk result (λ c. app_of c ≡ fold with_option (app_of command.entry) options.now) }
    ensures local { IfOk result (λ c. (fields_of command.entry).has_globals ≡ false
        → (fields_of c).has_globals ≡ false) }
{
    for option in options {
        command = command.arg(option_arg(alloc, option))?;
    }
    Ok(command)
}

// A command under these names too, which help does not list.
fn with_aliases<'a>(command: Command<'a>, names: &[&'a str]) -> Result<Command<'a>, AllocError>
    ensures app { IfOk result (λ c. app_of c ≡ with_aliases (texts names.now) (app_of command.entry)) }
    ensures local { IfOk result (λ c. (fields_of command.entry).has_globals ≡ false
        → (fields_of c).has_globals ≡ false) }
{
    command.aliases(names)
}

// A command with its names, its options, those of every command, and its images.
fn command_of<'a>(alloc: Global, words: &CommandWords<'a>) -> Result<Command<'a>, AllocError>
    ensures app { IfOk result (λ c. app_of c ≡ app_in words.now) }
    ensures local { IfOk result (λ c. (fields_of c).has_globals ≡ false) }
{
    let command = Command::new(alloc, words.name)
        .about(words.about)
        .after_help(words.after_help);
    let command = with_aliases(command, words.aliases)?;
    let command = with_options(alloc, command, words.options)?;
    let command = command.arg(verbose_arg(alloc))?;
    command.arg(image_arg(alloc))
}

// The program with these commands more, in this order.
fn with_commands<'a>(
    alloc: Global,
    mut program: Command<'a>,
    commands: &[CommandWords<'a>],
) -> Result<Command<'a>, AllocError>
    ensures { IfOk result (λ c. app_of c ≡ fold with_command (app_of program.entry) commands.now) }
{
    for words in commands {
        let command = command_of(alloc, words)?;
        program = program.subcommand(command)?;
    }
    Ok(program)
}

// The commands on one image, and the one that tells of which arrays images are members.
fn examine_commands<'a>(alloc: Global, program: Command<'a>) -> Result<Command<'a>, AllocError>
    ensures { IfOk result (λ c. app_of c ≡ with_examine_commands (app_of program.entry)) }
{
    with_commands(alloc, program, &EXAMINE_COMMANDS)
}

// The commands that make an array or show it.
fn array_commands<'a>(alloc: Global, program: Command<'a>) -> Result<Command<'a>, AllocError>
    ensures { IfOk result (λ c. app_of c ≡ with_array_commands (app_of program.entry)) }
{
    with_commands(alloc, program, &ARRAY_COMMANDS)
}

// The commands on an array's data.
fn data_commands<'a>(alloc: Global, program: Command<'a>) -> Result<Command<'a>, AllocError>
    ensures { IfOk result (λ c. app_of c ≡ with_data_commands (app_of program.entry)) }
{
    with_commands(alloc, program, &DATA_COMMANDS)
}

// The commands by which the members of an array change.
fn member_commands<'a>(alloc: Global, program: Command<'a>) -> Result<Command<'a>, AllocError>
    ensures { IfOk result (λ c. app_of c ≡ with_member_commands (app_of program.entry)) }
{
    with_commands(alloc, program, &MEMBER_COMMANDS)
}

// The commands by which a member gets the data that it lacks.
fn rebuild_commands<'a>(alloc: Global, program: Command<'a>) -> Result<Command<'a>, AllocError>
    ensures { IfOk result (λ c. app_of c ≡ with_rebuild_commands (app_of program.entry)) }
{
    with_commands(alloc, program, &REBUILD_COMMANDS)
}

/// The whole command line.
pub(crate) fn command_line<'a>(alloc: Global) -> Result<Command<'a>, AllocError>
    ensures { IfOk result (λ c. app_of c ≡ mdcli) }
{
    let program = Command::new(alloc, "mdcli")
        .about("Makes, reads and writes Linux md RAID-1 arrays (metadata 1.2)")
        .version("1.0.0")
        .subcommand_required(true);
    let program = examine_commands(alloc, program)?;
    let program = array_commands(alloc, program)?;
    let program = data_commands(alloc, program)?;
    let program = member_commands(alloc, program)?;
    rebuild_commands(alloc, program)
}

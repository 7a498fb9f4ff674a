// Reading the words.
ghost use Rattle.std.specs.Prelude.{◌≡◌, IfOk, [], codes, map, option_map, position, unwrap_or};
ghost use Rattle.std.specs.Str.{bytes_eq};
ghost use Rattle.clap.specs.Words.{FailsBy, fault_of, first_of, found_of, matched_of, raw_values, rows_of, subcommand_of, subcommand_rows_of};
ghost use Rattle.md_words.specs.Words.{mdcli};
ghost use Rattle.md_words.specs.Numbers.{number_or_zero};
ghost use Rattle.md_words.specs.Parsing.{ask_found, ask_named, ask_to_change, asked, bitmap_found, bitmap_in, bitmap_word, check_form_in, chunk_in, command_fault, count_in, data_of_found, data_of_in, data_of_word, detail_form_in, has_flag, has_maps, image_form_in, image_words, images_found, is_no_size, is_verbose, lacks_option, loss_in, map_out_found, map_out_in, map_out_word, map_words, maps_found, member_at, member_fault, member_in, member_named, names_bitmap_alone, names_data_of_alone, names_map_alone, names_no_member, names_no_sectors, names_no_size, needs_readonly, option_fault, options_in, output_found, output_in, output_word, place_in, puts_sectors, rebuild_form_in, resume_found, resumes, resumes_alone, run_found, runs, sector_in, sectors_or_zero, serve_in, size_fault, size_in, text_in, uuid_in, value_fault, verbose_found, words_fault};
ghost use Rattle.md_words.specs.Asks.{ask_of, options_of};

use crate::array_command::ArrayCommand;
use crate::command::Command;
use crate::command_line::command_line;
use crate::create_options::CreateOptions;
use crate::form::{CheckForm, DetailForm, ImageForm, RebuildForm};
use crate::image_command::ImageCommand;
use crate::loss::Loss;
use crate::request::Request;
use crate::sizes::{u32_kib, u64_kib, u64_sectors};
use clap::error::ErrorKind;
use clap::{ArgMatches, Error};
use std::alloc::{AllocError, Global};

fn matches<'a>(alloc: Global, words: &'a [&'a str]) -> Result<ArgMatches<'a>, Error>
    ensures ok { IfOk result
        (λ m. subcommand_rows_of m ≡ subcommand_of mdcli (map (λ s. s.now) words.entry.now)) }
    ensures fails { FailsBy (fault_of mdcli (map (λ s. s.now) words.entry.now)) result }
{
    command_line(alloc)?.try_get_matches_from(words)
}

// The number that a text says, 0 where it says none.
fn u32_or_zero(text: &str) -> u32
    ensures { result ≡ number_or_zero 32 text.now }
{
    text.parse::<u32>().unwrap_or(0)
}

fn u64_or_zero(text: &str) -> u64
    ensures { result ≡ number_or_zero 64 text.now }
{
    text.parse::<u64>().unwrap_or(0)
}

// The value of an option, empty where it has none.
fn text_in<'a>(found: &ArgMatches<'a>, name: &str) -> &'a str
    ensures { result.now ≡ text_in name.now (rows_of (found_of found.now)) }
{
    match found.get_str(name) {
        Some(text) => text,
        None => "",
    }
}

// Whether the words have an option that takes no value.
fn has_flag(found: &ArgMatches<'_>, name: &str) -> bool
    ensures { result ≡ has_flag name.now (rows_of (found_of found.now)) }
{
    text_in(found, name) == "true"
}

// The UUID, where one is given.
fn uuid_of<'a>(found: &ArgMatches<'a>) -> Option<&'a str>
    ensures { option_map (λ s. s.now) result ≡ uuid_in (rows_of (found_of found.now)) }
{
    found.get_str("uuid")
}

fn size_of(found: &ArgMatches<'_>) -> Option<u64>
    ensures { result ≡ size_in (rows_of (found_of found.now)) }
{
    let text = found.get_str("size")?;
    Some(u64_kib(text).unwrap_or(0))
}

fn chunk_of(found: &ArgMatches<'_>) -> u32
    ensures { result ≡ chunk_in (rows_of (found_of found.now)) }
{
    u32_kib(text_in(found, "bitmap-chunk")).unwrap_or(0)
}

fn write_mostly_of(found: &ArgMatches<'_>) -> Option<u32>
    ensures { result
        ≡ option_map (number_or_zero 32) (first_of (codes "write-mostly") (rows_of (found_of found.now))) }
{
    let text = found.get_str("write-mostly")?;
    Some(u32_or_zero(text))
}

fn create_options<'a>(found: &ArgMatches<'a>) -> CreateOptions<'a>
    ensures { options_of result ≡ options_in (rows_of (found_of found.now)) }
{
    CreateOptions {
        level: text_in(found, "level"),
        raid_devices: u32_or_zero(text_in(found, "raid-devices")),
        uuid: uuid_of(found),
        name: text_in(found, "name"),
        bitmap_chunk: chunk_of(found),
        size: size_of(found),
        time: u64_or_zero(text_in(found, "time")),
        write_mostly: write_mostly_of(found),
        assume_clean: has_flag(found, "assume-clean"),
        json: has_flag(found, "json"),
    }
}

fn image_form(found: &ArgMatches<'_>) -> ImageForm
    ensures { result ≡ image_form_in (rows_of (found_of found.now)) }
{
    if has_flag(found, "all") {
        if has_flag(found, "json") {
            ImageForm::RawJson
        } else {
            ImageForm::Raw
        }
    } else if has_flag(found, "json") {
        ImageForm::Json
    } else {
        ImageForm::Text
    }
}

fn check_form(found: &ArgMatches<'_>) -> CheckForm
    ensures { result ≡ check_form_in (rows_of (found_of found.now)) }
{
    if has_flag(found, "json") {
        CheckForm::Json
    } else if has_flag(found, "list") {
        CheckForm::List
    } else {
        CheckForm::Count
    }
}

fn detail_form(found: &ArgMatches<'_>) -> DetailForm
    ensures { result ≡ detail_form_in (rows_of (found_of found.now)) }
{
    if has_flag(found, "json") {
        DetailForm::Json
    } else if has_flag(found, "verbose") {
        DetailForm::Verbose
    } else {
        DetailForm::Text
    }
}

fn rebuild_form(found: &ArgMatches<'_>) -> RebuildForm
    ensures { result ≡ rebuild_form_in (rows_of (found_of found.now)) }
{
    if has_flag(found, "json") {
        RebuildForm::Json
    } else if has_flag(found, "quiet") {
        RebuildForm::Line
    } else {
        RebuildForm::Plans
    }
}

fn loss_of(found: &ArgMatches<'_>) -> Loss
    ensures { result ≡ loss_in (rows_of (found_of found.now)) }
{
    if has_flag(found, "salvage") {
        Loss::Sectors
    } else {
        Loss::Chunks
    }
}

// The file that is to be made.
fn map_out_of<'a>(found: &ArgMatches<'a>) -> Option<&'a str>
    ensures { option_map (λ s. s.now) result ≡ map_out_in (rows_of (found_of found.now)) }
{
    found.get_str("map-out")
}

// The file that gets what is put out.
fn output_of<'a>(found: &ArgMatches<'a>) -> Option<&'a str>
    ensures { option_map (λ s. s.now) result ≡ output_in (rows_of (found_of found.now)) }
{
    found.get_str("output")
}

// The kind of the bitmap that is named.
fn bitmap_of<'a>(found: &ArgMatches<'a>) -> Option<&'a str>
    ensures { option_map (λ s. s.now) result ≡ bitmap_in (rows_of (found_of found.now)) }
{
    found.get_str("bitmap")
}

// The image that counts as a device of the array.
fn data_of_of<'a>(found: &ArgMatches<'a>) -> Option<&'a str>
    ensures { option_map (λ s. s.now) result ≡ data_of_in (rows_of (found_of found.now)) }
{
    found.get_str("data-of")
}

// The sectors that a text says, 0 where it says none.
fn sectors_or_zero(text: &str) -> u64
    ensures { result ≡ sectors_or_zero text.now }
{
    u64_sectors(text).unwrap_or(0)
}

// The first sector of the array that a command names.
fn sector_of(found: &ArgMatches<'_>) -> u64
    ensures { result ≡ sector_in (rows_of (found_of found.now)) }
{
    sectors_or_zero(text_in(found, "sector"))
}

// The number of sectors, where one is given.
fn count_of(found: &ArgMatches<'_>) -> Option<u64>
    ensures { result ≡ count_in (rows_of (found_of found.now)) }
{
    let text = found.get_str("count")?;
    Some(sectors_or_zero(text))
}

// The place among images of the first of this name.
fn position_of(images: &[&str], name: &str) -> Option<usize>
    ensures { result ≡ position (λ image. bytes_eq image.now name.now) images.now }
{
    images.iter().position(|image| *image == name)
}

// The index among images of the first of this name.
fn place_in(images: &[&str], name: &str) -> Option<u32>
    ensures { result ≡ place_in (map (λ s. s.now) images.now) name.now }
{
    match position_of(images, name) {
        Some(place) => Some(place.min(u32::MAX as usize) as u32),
        None => None,
    }
}

// The index of the member that a text says, as a number or as one of the images.
fn member_at(images: &[&str], text: &str) -> Option<u32>
    ensures { result ≡ member_at (map (λ s. s.now) images.now) text.now }
{
    match text.parse::<u32>() {
        Ok(place) => Some(place),
        Err(_) => place_in(images, text),
    }
}

// The index of the member that a command names.
fn member_named(found: &ArgMatches<'_>) -> Option<u32>
    ensures { result ≡ member_named (rows_of (found_of found.now)) }
{
    let text = text_in(found, "member");
    match found.get_strs("image") {
        Some(images) => member_at(images, text),
        None => member_at(&[], text),
    }
}

// The index of the member that a command names, or 0 where it names none.
fn member_in(found: &ArgMatches<'_>) -> u32
    ensures { result ≡ member_in (rows_of (found_of found.now)) }
{
    member_named(found).unwrap_or(0)
}

// Whether a member is named that is neither a number nor listed.
fn names_no_member(found: &ArgMatches<'_>) -> bool
    ensures { result ≡ names_no_member (rows_of (found_of found.now)) }
{
    match found.get_str("member") {
        Some(_) => member_named(found).is_none(),
        None => false,
    }
}

// The command `serve`, with the values of its options.
fn serve_command<'a>(found: &ArgMatches<'a>) -> Command<'a>
    ensures { ask_of result ≡ serve_in (rows_of (found_of found.now)) }
{
    if has_flag(found, "readonly") {
        Command::Array(ArrayCommand::Serve {
            fill: has_flag(found, "fill"),
        })
    } else {
        Command::Array(ArrayCommand::ServeWritable)
    }
}

// The command of a name, with the values of its options.
fn command_of<'a>(name: &str, found: &ArgMatches<'a>) -> Command<'a>
    ensures { ask_of result ≡ ask_named name.now (rows_of (found_of found.now)) }
{
    if name == "examine-bitmap" {
        Command::Image(ImageCommand::ExamineBitmap {
            form: image_form(found),
        })
    } else if name == "examine-badblocks" {
        Command::Image(ImageCommand::ExamineBadblocks {
            form: image_form(found),
        })
    } else if name == "scan" {
        Command::Scan {
            json: has_flag(found, "json"),
        }
    } else if name == "create" {
        Command::Create(create_options(found))
    } else if name == "grow" {
        Command::Grow {
            bitmap: text_in(found, "bitmap"),
            chunk: chunk_of(found),
        }
    } else if name == "assemble" {
        Command::Array(ArrayCommand::Assemble {
            json: has_flag(found, "json"),
            readonly: has_flag(found, "readonly"),
        })
    } else if name == "detail" {
        Command::Array(ArrayCommand::Detail {
            form: detail_form(found),
            readonly: has_flag(found, "readonly"),
        })
    } else if name == "plan" {
        Command::Array(ArrayCommand::Plan {
            member: member_in(found),
            json: has_flag(found, "json"),
            readonly: has_flag(found, "readonly"),
        })
    } else if name == "read" {
        let sector = sector_of(found);
        let count = count_of(found);
        Command::Array(ArrayCommand::Read {
            sector,
            count,
            fill: has_flag(found, "fill"),
            readonly: has_flag(found, "readonly"),
        })
    } else if name == "serve" {
        serve_command(found)
    } else if name == "check" {
        Command::Array(ArrayCommand::Check {
            form: check_form(found),
            exit_code: has_flag(found, "exit-code"),
            readonly: has_flag(found, "readonly"),
        })
    } else {
        command_that_changes(name, found)
    }
}

// The command of a name, where it is one that changes an array. Of any other it is `Examine`.
fn command_that_changes<'a>(name: &str, found: &ArgMatches<'a>) -> Command<'a>
    ensures { ask_of result ≡ ask_to_change name.now (rows_of (found_of found.now)) }
{
    if name == "write" {
        Command::Array(ArrayCommand::Write {
            sector: sector_of(found),
            count: count_of(found),
        })
    } else if name == "resync" {
        Command::Array(ArrayCommand::Resync)
    } else if name == "stop" {
        Command::Array(ArrayCommand::Stop {
            json: has_flag(found, "json"),
        })
    } else if name == "fail" {
        Command::Array(ArrayCommand::Fail {
            member: member_in(found),
        })
    } else if name == "remove" {
        Command::Array(ArrayCommand::Remove {
            member: member_in(found),
        })
    } else if name == "add" {
        Command::Array(ArrayCommand::Add {
            device: text_in(found, "device"),
            json: has_flag(found, "json"),
        })
    } else if name == "re-add" {
        Command::Array(ArrayCommand::ReAdd {
            device: text_in(found, "device"),
            full: has_flag(found, "full"),
            json: has_flag(found, "json"),
        })
    } else if name == "rebuild" {
        Command::Array(ArrayCommand::Rebuild {
            member: member_in(found),
            loss: loss_of(found),
            form: rebuild_form(found),
        })
    } else {
        Command::Image(ImageCommand::Examine {
            form: image_form(found),
        })
    }
}

fn request_of<'a>(alloc: Global, matches: &ArgMatches<'a>) -> Result<Request<'a>, AllocError>
    ensures asks { IfOk result (λ r. ask_of r.command ≡ ask_found (subcommand_rows_of matches.now)) }
    ensures images { IfOk result
        (λ r. map (λ s. s.now) r.images.items ≡ images_found (subcommand_rows_of matches.now)) }
    ensures maps { IfOk result
        (λ r. map (λ s. s.now) r.maps.items ≡ maps_found (subcommand_rows_of matches.now)) }
    ensures map_out { IfOk result
        (λ r. option_map (λ s. s.now) r.map_out ≡ map_out_found (subcommand_rows_of matches.now)) }
    ensures output { IfOk result
        (λ r. option_map (λ s. s.now) r.output ≡ output_found (subcommand_rows_of matches.now)) }
    ensures bitmap { IfOk result
        (λ r. option_map (λ s. s.now) r.bitmap ≡ bitmap_found (subcommand_rows_of matches.now)) }
    ensures data_of { IfOk result
        (λ r. option_map (λ s. s.now) r.data_of ≡ data_of_found (subcommand_rows_of matches.now)) }
    ensures resume { IfOk result (λ r. r.resume ≡ resume_found (subcommand_rows_of matches.now)) }
    ensures verbose { IfOk result (λ r. r.verbose ≡ verbose_found (subcommand_rows_of matches.now)) }
    ensures run { IfOk result (λ r. r.run ≡ run_found (subcommand_rows_of matches.now)) }
{
    let Some((name, found)) = matches.subcommand() else {
        return Ok(Request {
            command: Command::Image(ImageCommand::Examine {
                form: ImageForm::Text,
            }),
            images: Vec::new(alloc),
            maps: Vec::new(alloc),
            map_out: None,
            output: None,
            bitmap: None,
            data_of: None,
            resume: false,
            verbose: false,
            run: false,
        });
    };
    let images = values_of(alloc, found, "image")?;
    let maps = values_of(alloc, found, "map")?;
    Ok(Request {
        command: command_of(name, found),
        images,
        maps,
        map_out: map_out_of(found),
        output: output_of(found),
        bitmap: bitmap_of(found),
        data_of: data_of_of(found),
        resume: has_flag(found, "resume"),
        verbose: has_flag(found, "verbose"),
        run: has_flag(found, "run"),
    })
}

// All values of an option, or the images.
fn values_of<'a>(
    alloc: Global,
    found: &ArgMatches<'a>,
    name: &str,
) -> Result<Vec<&'a str>, AllocError>
    ensures { IfOk result (λ values. map (λ s. s.now) values.items
        ≡ unwrap_or (option_map raw_values (matched_of (found_of found.now) name.now)) []) }
{
    let Some(values) = found.get_strs(name) else {
        return Ok(Vec::new(alloc));
    };
    Vec::from_slice(alloc, values)
}

// Refuses a member that is neither a number nor listed, as the parser refuses a value.
fn check_member(alloc: Global, matches: &ArgMatches<'_>) -> Result<(), Error>
    ensures { FailsBy (member_fault (subcommand_rows_of matches.now)) result }
{
    let Some((_, found)) = matches.subcommand() else {
        return Ok(());
    };
    if !names_no_member(found) {
        return Ok(());
    }
    let mut program = command_line(alloc)?;
    let message = "invalid value for '--member <N>': it is neither a number nor one of the images";
    Err(program.error(ErrorKind::ValueValidation, message)?)
}

// Whether a size is given that is none.
fn is_no_size(found: &ArgMatches<'_>) -> bool
    ensures { result ≡ is_no_size 64 (first_of (codes "size") (rows_of (found_of found.now))) }
{
    match found.get_str("size") {
        Some(text) => u64_kib(text).is_none(),
        None => false,
    }
}

fn is_no_chunk(found: &ArgMatches<'_>) -> bool
    ensures { result ≡ is_no_size 32 (first_of (codes "bitmap-chunk") (rows_of (found_of found.now))) }
{
    match found.get_str("bitmap-chunk") {
        Some(text) => u32_kib(text).is_none(),
        None => false,
    }
}

// Whether an option gives sectors that are none.
fn names_no_sectors(found: &ArgMatches<'_>, name: &str) -> bool
    ensures { result ≡ names_no_sectors name.now (rows_of (found_of found.now)) }
{
    match found.get_str(name) {
        Some(text) => u64_sectors(text).is_none(),
        None => false,
    }
}

fn names_no_size(found: &ArgMatches<'_>) -> bool
    ensures { result ≡ names_no_size (rows_of (found_of found.now)) }
{
    is_no_size(found)
        || is_no_chunk(found)
        || names_no_sectors(found, "sector")
        || names_no_sectors(found, "count")
}

// What is said of the first that is none.
fn size_message(found: &ArgMatches<'_>) -> &'static str {
    if is_no_size(found) {
        "invalid value for '--size <SIZE>': it is no number of KiB that fits 64 bits, perhaps with the suffix K, M, G or T"
    } else if is_no_chunk(found) {
        "invalid value for '--bitmap-chunk <SIZE>': it is no number of KiB that fits 32 bits, perhaps with the suffix K, M, G or T"
    } else if names_no_sectors(found, "sector") {
        "invalid value for '--sector <S>': it is no number of sectors that fits 64 bits, nor a size with the suffix K, M, G or T"
    } else {
        "invalid value for '--count <N>': it is no number of sectors that fits 64 bits, nor a size with the suffix K, M, G or T"
    }
}

// Refuses a size that is none, as the parser refuses a value.
fn check_sizes(alloc: Global, matches: &ArgMatches<'_>) -> Result<(), Error>
    ensures { FailsBy (size_fault (subcommand_rows_of matches.now)) result }
{
    let Some((_, found)) = matches.subcommand() else {
        return Ok(());
    };
    if !names_no_size(found) {
        return Ok(());
    }
    let mut program = command_line(alloc)?;
    Err(program.error(ErrorKind::ValueValidation, size_message(found))?)
}

// Refuses a value that the parser takes.
fn check_values(alloc: Global, matches: &ArgMatches<'_>) -> Result<(), Error>
    ensures { FailsBy (value_fault (subcommand_rows_of matches.now)) result }
{
    check_member(alloc, matches)?;
    check_sizes(alloc, matches)
}

// Whether a map is to be made of a read that ends at what is not given.
fn names_map_alone(found: &ArgMatches<'_>) -> bool
    ensures { result ≡ names_map_alone (rows_of (found_of found.now)) }
{
    map_out_of(found).is_some() && !has_flag(found, "fill") && !has_flag(found, "resume")
}

// Whether maps of images are named.
fn has_maps(found: &ArgMatches<'_>) -> bool
    ensures { result ≡ has_maps (rows_of (found_of found.now)) }
{
    found.get_strs("map").is_some()
}

// Whether what is only for reading is asked of an array that is served for writing.
fn needs_readonly(name: &str, found: &ArgMatches<'_>) -> bool
    ensures { result ≡ needs_readonly name.now (rows_of (found_of found.now)) }
{
    name == "serve" && !has_flag(found, "readonly") && (has_flag(found, "fill") || has_maps(found))
}

// Whether a bitmap is named for an array whose images may be changed.
fn names_bitmap_alone(name: &str, found: &ArgMatches<'_>) -> bool
    ensures { result ≡ names_bitmap_alone name.now (rows_of (found_of found.now)) }
{
    bitmap_of(found).is_some() && !has_flag(found, "readonly") && name != "grow"
}

// Whether a command puts out sectors.
fn puts_sectors(name: &str) -> bool
    ensures { result ≡ puts_sectors name.now }
{
    name == "read" || name == "serve"
}

// Whether an image is to count as a device where images may be changed, or where sectors that no other gives end a read.
fn names_data_of_alone(name: &str, found: &ArgMatches<'_>) -> bool
    ensures { result ≡ names_data_of_alone name.now (rows_of (found_of found.now)) }
{
    data_of_of(found).is_some()
        && (!has_flag(found, "readonly") || puts_sectors(name) && !has_flag(found, "fill"))
}

// Whether a read is to go on that changes images, or of which a file is not named.
fn resumes_alone(found: &ArgMatches<'_>) -> bool
    ensures { result ≡ resumes_alone (rows_of (found_of found.now)) }
{
    has_flag(found, "resume")
        && (!has_flag(found, "readonly")
            || output_of(found).is_none()
            || map_out_of(found).is_none())
}

// Whether an option is named without one that it needs.
fn lacks_option(name: &str, found: &ArgMatches<'_>) -> bool
    ensures { result ≡ lacks_option name.now (rows_of (found_of found.now)) }
{
    names_map_alone(found)
        || resumes_alone(found)
        || names_bitmap_alone(name, found)
        || names_data_of_alone(name, found)
        || needs_readonly(name, found)
}

// What is said of the first that lacks one.
fn option_message(name: &str, found: &ArgMatches<'_>) -> &'static str {
    if names_map_alone(found) {
        "the argument '--map-out <FILE>' requires '--fill' or '--resume'"
    } else if resumes_alone(found) {
        "the argument '--resume' requires '--readonly', '--output <FILE>' and '--map-out <FILE>'"
    } else if names_bitmap_alone(name, found) {
        "the argument '--bitmap <internal>' requires '--readonly'"
    } else if names_data_of_alone(name, found) {
        "the argument '--data-of <IMAGE=NUMBER>' requires '--readonly', and '--fill' where sectors are read"
    } else {
        "the arguments '--fill' and '--map <IMAGE=FILE>' require '--readonly'"
    }
}

// Refuses that, as the parser refuses an option without one that it requires.
fn check_options(alloc: Global, matches: &ArgMatches<'_>) -> Result<(), Error>
    ensures { FailsBy (option_fault (subcommand_rows_of matches.now)) result }
{
    let Some((name, found)) = matches.subcommand() else {
        return Ok(());
    };
    if !lacks_option(name, found) {
        return Ok(());
    }
    let mut program = command_line(alloc)?;
    Err(program.error(
        ErrorKind::MissingRequiredArgument,
        option_message(name, found),
    )?)
}

// Refuses what the parser takes, and a command does not.
fn check_command(alloc: Global, matches: &ArgMatches<'_>) -> Result<(), Error>
    ensures { FailsBy (command_fault (subcommand_rows_of matches.now)) result }
{
    match check_values(alloc, matches) {
        Ok(()) => check_options(alloc, matches),
        Err(error) => Err(error),
    }
}

/// What the words ask for, or why the words are not taken.
#[tactic(auto, unfolding(crate::specs::Parsing::image_words, crate::specs::Parsing::map_words, crate::specs::Parsing::map_out_word, crate::specs::Parsing::output_word, crate::specs::Parsing::bitmap_word, crate::specs::Parsing::data_of_word, crate::specs::Parsing::resumes, crate::specs::Parsing::asked, crate::specs::Parsing::is_verbose, crate::specs::Parsing::runs, crate::specs::Parsing::words_fault))]
pub fn parse<'a>(alloc: Global, words: &'a [&'a str]) -> Result<Request<'a>, Error>
    ensures asks { IfOk result (λ r. ask_of r.command ≡ asked (map (λ s. s.now) words.entry.now)) }
    ensures images { IfOk result
        (λ r. map (λ s. s.now) r.images.items ≡ image_words (map (λ s. s.now) words.entry.now)) }
    ensures maps { IfOk result
        (λ r. map (λ s. s.now) r.maps.items ≡ map_words (map (λ s. s.now) words.entry.now)) }
    ensures map_out { IfOk result
        (λ r. option_map (λ s. s.now) r.map_out ≡ map_out_word (map (λ s. s.now) words.entry.now)) }
    ensures output { IfOk result
        (λ r. option_map (λ s. s.now) r.output ≡ output_word (map (λ s. s.now) words.entry.now)) }
    ensures bitmap { IfOk result
        (λ r. option_map (λ s. s.now) r.bitmap ≡ bitmap_word (map (λ s. s.now) words.entry.now)) }
    ensures data_of { IfOk result
        (λ r. option_map (λ s. s.now) r.data_of ≡ data_of_word (map (λ s. s.now) words.entry.now)) }
    ensures resume { IfOk result (λ r. r.resume ≡ resumes (map (λ s. s.now) words.entry.now)) }
    ensures verbose { IfOk result (λ r. r.verbose ≡ is_verbose (map (λ s. s.now) words.entry.now)) }
    ensures run { IfOk result (λ r. r.run ≡ runs (map (λ s. s.now) words.entry.now)) }
    ensures fails { FailsBy (words_fault (map (λ s. s.now) words.entry.now)) result }
{
    let matches = match matches(alloc, words) {
        Ok(matches) => matches,
        Err(error) => return Err(error),
    };
    check_command(alloc, &matches)?;
    Ok(request_of(alloc, &matches)?)
}

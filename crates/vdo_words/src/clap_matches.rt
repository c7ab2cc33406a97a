ghost use Rattle.std.specs.Prelude.{◌≡◌, IfErr, IfOk, false, map, string_bytes, true};
ghost use Rattle.clap.specs.Words.{app_of, kind_of, rule_of};
ghost use Rattle.vdo_words.specs.Given.{given};
ghost use Rattle.vdo_words.specs.OptionMatches.{app, long, rule, FindsValues};
ghost use Rattle.vdo_words.specs.Options.{are_right};

use crate::option_names::OptionName;
use clap::error::ErrorKind;
use clap::{Arg, ArgAction, ArgMatches, Command, Error};
use std::alloc::{AllocError, Global};

/// What clap calls an option.
pub(crate) fn long<'a>(name: OptionName) -> &'a str
    ensures { result.now ≡ long name }
{
    &name.spelling()[2..]
}

fn argument<'a>(alloc: Global, name: OptionName) -> Arg<'a>
    ensures told { rule_of result ≡ rule name }
    ensures local { result.global ≡ false }
{
    let argument = Arg::new(alloc, long(name))
        .long(long(name))
        .action(ArgAction::Append);
    match name {
        OptionName::Threads => argument.num_args(0),
        _ => argument,
    }
}

// The command of these options, which a word `--help` doesn't stop.
// Long to prove: each call of the builder gives a new command.
fn command<'a>(alloc: Global, names: &[OptionName]) -> Result<Command<'a>, AllocError>
    ensures { IfOk result (λ command. app_of command ≡ app names.now) }
{
    let mut command = Command::new(alloc, "vdo")
        .no_binary_name(true)
        .disable_help_flag(true);
    for name in names {
        command = command.arg(argument(alloc, *name))?;
    }
    Ok(command)
}

/// What clap finds in words that are right: for each option its value. It is refused for want of memory alone.
pub(crate) fn matches<'a>(
    alloc: Global,
    names: &[OptionName],
    words: &'a [String],
) -> Result<ArgMatches<'a>, Error>
    requires { are_right names.now (given (map string_bytes words.now)) ≡ true }
    ensures finds { IfOk result (FindsValues (given (map string_bytes words.now))) }
    ensures memory { IfErr result (λ error. kind_of error ≡ ErrorKind.OutOfMemory) }
{
    command(alloc, names)?.try_get_matches_from(words)
}

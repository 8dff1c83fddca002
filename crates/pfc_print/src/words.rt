// The words of the call.
ghost use Rattle.std.specs.Prelude.{◌≡◌, ◌≢◌, [], Err, map, string_bytes, codes, IfOk};
ghost use Rattle.clap.specs.Words.{app_of, fault_of, found_of, matches_of, rows_of, first_of};
ghost use Rattle.pfc_print.specs.Words.{print_command, says_true};
ghost use Rattle.pfc_print.specs.Words as asked;

use clap::error::ErrorKind;
use clap::{Arg, ArgAction, ArgMatches, Command};
use std::alloc::{AllocError, Global};

/// Why the words gave no answer.
#[derive(Clone, Copy, Debug, PartialEq, Eq)]
pub(crate) enum WordsRefusal {
    /// They aren't of the form.
    Form,
    /// Memory was refused.
    Memory,
}

fn command<'a>(alloc: Global) -> Result<Command<'a>, AllocError>
    ensures { IfOk result (λ made. app_of made ≡ print_command) }
{
    let verbose = Arg::new(alloc, "verbose")
        .short('v')
        .long("verbose")
        .action(ArgAction::SetTrue);
    let cinfo = Arg::new(alloc, "cinfo").required(true).num_args(1..);
    Command::new(alloc, "xrdpfc_print").arg(verbose)?.arg(cinfo)
}

/// The words behind the program's name.
pub(crate) fn line_of<'a>(alloc: Global, words: &'a [String]) -> Result<Vec<&'a str>, AllocError>
    ensures { IfOk result (λ line. map (λ word. word.now) line.items ≡ asked.line_of (map string_bytes words.now)) }
{
    let mut line = Vec::with_capacity(alloc, words.len().saturating_add(1))?;
    line.push("xrdpfc_print")?;
    for word in words {
        line.push(word.as_str())?;
    }
    Ok(line)
}

/// What `clap` finds in these words.
pub(crate) fn read_words<'a>(
    alloc: Global,
    line: &'a [&'a str],
) -> Result<ArgMatches<'a>, WordsRefusal>
    ensures taken { IfOk result (λ found. fault_of print_command (map (λ word. word.now) line.now) ≡ []) }
    ensures found { IfOk result (λ found. rows_of (found_of found) ≡ matches_of print_command (map (λ word. word.now) line.now)) }
    ensures refused { result ≡ Err WordsRefusal.Form → fault_of print_command (map (λ word. word.now) line.now) ≢ [] }
{
    let Ok(command) = command(alloc) else {
        return Err(WordsRefusal::Memory);
    };
    match command.try_get_matches_from(line) {
        Ok(found) => Ok(found),
        Err(e) => match e.kind() {
            ErrorKind::OutOfMemory => Err(WordsRefusal::Memory),
            _ => Err(WordsRefusal::Form),
        },
    }
}

/// Whether the flag is given.
pub(crate) fn is_verbose(found: &ArgMatches) -> bool
    ensures { result ≡ says_true (first_of (codes "verbose") (rows_of (found_of found.now))) }
{
    match found.get_str("verbose") {
        Some(text) => text == "true",
        None => false,
    }
}

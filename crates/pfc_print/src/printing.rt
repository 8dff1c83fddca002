// The call: its words, its files in order, and what it answers.
ghost use Rattle.std.specs.Prelude.{◌≡◌, ◌≢◌, ◌≤◌, ◌⊎◌, false, true, map, string_bytes, IfOk};
ghost use Rattle.pfc_world.specs.Texts.{Appends, AppendsFront};
ghost use Rattle.pfc_world.specs.Counts.{Rose};
ghost use Rattle.pfc_print.specs.Words.{AreTaken};
ghost use Rattle.pfc_print.specs.Text.{fault_text, usage_text};
ghost use Rattle.pfc_print.specs.Shown.{AreShown, IsCut, IsPart, IsPrinted, IsWhole, IsFault, IsStopped, IsUsage, IsMeant, IsUnhindered, Writes, WritesFront};

use crate::showing::show;
use crate::words::{WordsRefusal, is_verbose, line_of, read_words};
use pfc_base::{Memory, push_word};
use pfc_world::{Refusal, Sink, Sources, write_text};
use std::alloc::Global;

/// All files are cinfos, and their texts are written.
const DONE: u8 = 0;
/// The words aren't of the form.
const NO_FORM: u8 = 1;
/// A file is no cinfo.
const DAMAGED: u8 = 2;
/// A file can't be read.
const UNREADABLE: u8 = 3;
/// The text can't be written.
const UNWRITABLE: u8 = 4;
/// Memory was refused.
const OUT_OF_MEMORY: u8 = 5;

/// Writes how the program is called.
fn write_usage<S: Sink>(out: &mut S) -> u8
    ensures last { (result ≡ NO_FORM) ⊎ (result ≡ UNWRITABLE) }
    ensures done { result ≡ NO_FORM → Writes (λ text. text ≡ usage_text) S.told (S.written out.old) (S.written out.new) }
    ensures sink { result ≡ UNWRITABLE → Rose (S.faults out.old) (S.faults out.new) }
    ensures front { WritesFront (λ text. text ≡ usage_text) S.told (S.written out.old) (S.written out.new) }
{
    match write_text(out, b"usage: xrdpfc_print [-v] <cinfo>..\n") {
        Ok(()) => NO_FORM,
        Err(_) => UNWRITABLE,
    }
}

fn fault_line(alloc: Global, name: &str) -> Result<Vec<u8>, Memory>
    ensures { IfOk result (λ line. line.items ≡ fault_text name.now) }
{
    let mut line = Vec::new(alloc);
    push_word(&mut line, b"fault ")?;
    push_word(&mut line, name.as_bytes())?;
    push_word(&mut line, b"\n")?;
    Ok(line)
}

/// Writes that a file can't be read.
fn write_fault<S: Sink>(alloc: Global, out: &mut S, name: &str) -> u8
    ensures last { (result ≡ UNREADABLE) ⊎ ((result ≡ UNWRITABLE) ⊎ (result ≡ OUT_OF_MEMORY)) }
    ensures done { result ≡ UNREADABLE → Appends S.told (S.written out.old) (S.written out.new) (fault_text name.now) }
    ensures sink { result ≡ UNWRITABLE → Rose (S.faults out.old) (S.faults out.new) }
    ensures memory { result ≡ OUT_OF_MEMORY → S.written out.new ≡ S.written out.old }
    ensures front { AppendsFront S.told (S.written out.old) (S.written out.new) (fault_text name.now) }
{
    let Ok(line) = fault_line(alloc, name) else {
        return OUT_OF_MEMORY;
    };
    match write_text(out, &line) {
        Ok(()) => UNREADABLE,
        Err(_) => UNWRITABLE,
    }
}

/// Writes the texts of these files in order, up to one that can't be read.
fn print_files<H: Sources, S: Sink>(
    alloc: Global,
    verbose: bool,
    files: &[&str],
    host: &mut H,
    out: &mut S,
) -> u8
    ensures done { result ≡ DONE → Writes (λ text. AreShown H.told (H.texts host.old) verbose (map (λ file. file.now) files.now) text false) S.told (S.written out.old) (S.written out.new) }
    ensures damaged { result ≡ DAMAGED → Writes (λ text. AreShown H.told (H.texts host.old) verbose (map (λ file. file.now) files.now) text true) S.told (S.written out.old) (S.written out.new) }
    ensures fault { result ≡ UNREADABLE → Writes (IsCut H.told (H.texts host.old) verbose (map (λ file. file.now) files.now)) S.told (S.written out.old) (S.written out.new) }
    ensures host { result ≡ UNREADABLE → Rose (H.faults host.old) (H.faults host.new) }
    ensures sink { result ≡ UNWRITABLE → Rose (S.faults out.old) (S.faults out.new) }
    ensures memory { result ≡ OUT_OF_MEMORY → Writes (IsPart H.told (H.texts host.old) verbose (map (λ file. file.now) files.now)) S.told (S.written out.old) (S.written out.new) }
    ensures front { WritesFront (IsPrinted H.told (H.texts host.old) verbose (map (λ file. file.now) files.now)) S.told (S.written out.old) (S.written out.new) }
    ensures texts { H.texts host.new ≡ H.texts host.old }
    ensures last { (result ≢ NO_FORM) × (result ≤ OUT_OF_MEMORY) }
{
    let mut damaged = false;
    for file in files {
        let shown = match show(alloc, verbose, file, host) {
            Ok(shown) => shown,
            Err(Refusal::Fault) => return write_fault(alloc, out, file),
            Err(Refusal::Memory) => return OUT_OF_MEMORY,
        };
        if write_text(out, &shown.text).is_err() {
            return UNWRITABLE;
        }
        damaged = damaged || shown.damaged;
    }
    if damaged { DAMAGED } else { DONE }
}

/// Writes the text of each cinfo file that the words name, and with the flag `-v` its runs. The answer is the program's
/// exit status: 0 where each file is a cinfo, 1 for words that aren't of the form, 2 where a file is no cinfo, 3 where
/// one can't be read, which ends the printing, 4 for a failed sink, 5 for want of memory.
pub fn print<H: Sources, S: Sink>(alloc: Global, words: &[String], host: &mut H, out: &mut S) -> u8
    // What was written is the text of each file in order.
    ensures done { result ≡ DONE → Writes (IsWhole H.told (H.texts host.old) (map string_bytes words.now) false) S.told (S.written out.old) (S.written out.new) }
    ensures damaged { result ≡ DAMAGED → Writes (IsWhole H.told (H.texts host.old) (map string_bytes words.now) true) S.told (S.written out.old) (S.written out.new) }

    // Refused words are named so, unless that can't be written; taken words never are.
    ensures usage { result ≡ NO_FORM → Writes (IsUsage (map string_bytes words.now)) S.told (S.written out.old) (S.written out.new) }
    ensures form { ¬ AreTaken (map string_bytes words.now) → (result ≡ NO_FORM) ⊎ ((result ≡ UNWRITABLE) ⊎ (result ≡ OUT_OF_MEMORY)) }

    // The text of the files before the one that can't be read, and a line that names it.
    ensures fault { result ≡ UNREADABLE → Writes (IsFault H.told (H.texts host.old) (map string_bytes words.now)) S.told (S.written out.old) (S.written out.new) }
    ensures host { result ≡ UNREADABLE → Rose (H.faults host.old) (H.faults host.new) }
    ensures sink { result ≡ UNWRITABLE → Rose (S.faults out.old) (S.faults out.new) }

    // Memory runs out while a file is left, and what was written ends behind the one before it.
    ensures memory { result ≡ OUT_OF_MEMORY → Writes (IsStopped H.told (H.texts host.old) (map string_bytes words.now)) S.told (S.written out.old) (S.written out.new) }

    // Whatever it answers, a front of such a text was written.
    ensures front { WritesFront (IsMeant H.told (H.texts host.old) (map string_bytes words.now)) S.told (S.written out.old) (S.written out.new) }
    ensures last { result ≤ OUT_OF_MEMORY }
    ensures texts { H.texts host.new ≡ H.texts host.old }

    // Where the host tells cinfos of all names and nothing failed, the work is done, unless memory runs out.
    ensures complete { IsUnhindered H.told (H.texts host.old) (map string_bytes words.now) (H.faults host.old) (H.faults host.new) (S.faults out.old) (S.faults out.new) → (result ≡ DONE) ⊎ (result ≡ OUT_OF_MEMORY) }
{
    let Ok(line) = line_of(alloc, words) else {
        return OUT_OF_MEMORY;
    };
    let found = match read_words(alloc, &line) {
        Ok(found) => found,
        Err(WordsRefusal::Form) => return write_usage(out),
        Err(WordsRefusal::Memory) => return OUT_OF_MEMORY,
    };
    let files = found.get_strs("cinfo").unwrap_or(&[]);
    print_files(alloc, is_verbose(&found), files, host, out)
}

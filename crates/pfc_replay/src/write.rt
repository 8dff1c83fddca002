ghost use Rattle.std.specs.Prelude.{◌≡◌, ◌++◌, ◌∷◌, [], codes, OnOk};
ghost use Rattle.std.specs.Fmt.{decimal};
ghost use Rattle.pfc_world.specs.Counts.{RefusalCause};
ghost use Rattle.pfc_world.specs.Texts.{Appends, AppendsFront};
ghost use Rattle.pfc_replay.specs.Outcome.{text_of, part_text};
ghost use Rattle.pfc_replay.specs.declared.outcome.Outcome.TheVariants as outcome;
ghost use Rattle.pfc_client.specs.Replies.{client_text, head_text, line_text};
ghost use Rattle.std.specs.List.{flat_map};
ghost use Rattle.pfc_report.specs.Report.{told_text, section_text, report_text};

use crate::outcome::{Outcome, Part};
use pfc_base::{Memory, push_number, push_word};
use pfc_client::{Reply, push_reply};
use pfc_config::Kind;
use pfc_log::push_log;
use pfc_report::{Report, Section, Told};
use pfc_world::{Refusal, Sink, write_text};
use std::alloc::Global;

/// Writes the line that names the client.
fn write_head<S: Sink>(alloc: Global, out: &mut S, number: u32) -> Result<(), Refusal>
    ensures ok { OnOk result (Appends S.told (S.written out.old) (S.written out.new) (head_text number)) }
    ensures front { AppendsFront S.told (S.written out.old) (S.written out.new) (head_text number) }
    ensures cause { RefusalCause (S.faults out.old) (S.faults out.new) result }
{
    let mut line = Vec::new(alloc);
    push_word(&mut line, b"client ")?;
    push_number(alloc, &mut line, u64::from(number))?;
    push_word(&mut line, b"\n")?;
    write_text(out, &line)?;
    Ok(())
}

/// Writes one reply with its line's end, by one write where the sink takes it whole. `line` is a buffer for its text.
fn write_reply<S: Sink>(
    alloc: Global,
    out: &mut S,
    line: &mut Vec<u8>,
    reply: &Reply,
) -> Result<(), Refusal>
    ensures ok { OnOk result (Appends S.told (S.written out.old) (S.written out.new) (line_text reply.now)) }
    ensures front { AppendsFront S.told (S.written out.old) (S.written out.new) (line_text reply.now) }
    ensures cause { RefusalCause (S.faults out.old) (S.faults out.new) result }
{
    line.clear();
    push_reply(alloc, line, reply)?;
    push_word(line, b"\n")?;
    write_text(out, line)?;
    Ok(())
}

/// Writes what is printed of a client, reply by reply. After a refusal a front of it is written.
fn write_client<S: Sink>(
    alloc: Global,
    out: &mut S,
    number: u32,
    replies: &[Reply],
) -> Result<(), Refusal>
    ensures ok { OnOk result (Appends S.told (S.written out.old) (S.written out.new) (client_text number replies.now)) }
    ensures front { AppendsFront S.told (S.written out.old) (S.written out.new) (client_text number replies.now) }
    ensures cause { RefusalCause (S.faults out.old) (S.faults out.new) result }
{
    if replies.is_empty() {
        return Ok(());
    }
    write_head(alloc, out, number)?;
    let mut line = Vec::new(alloc);
    for reply in replies {
        write_reply(alloc, out, &mut line, reply)?;
    }
    Ok(())
}

/// Writes what is printed of a client.
fn write_told<S: Sink>(alloc: Global, out: &mut S, told: &Told) -> Result<(), Refusal>
    ensures ok { OnOk result (Appends S.told (S.written out.old) (S.written out.new) (told_text told.now)) }
    ensures front { AppendsFront S.told (S.written out.old) (S.written out.new) (told_text told.now) }
    ensures cause { RefusalCause (S.faults out.old) (S.faults out.new) result }
{
    write_client(alloc, out, told.number, told.replies.as_slice())
}

/// Writes what is printed of each client, one after the other.
fn write_clients<S: Sink>(alloc: Global, out: &mut S, clients: &[Told]) -> Result<(), Refusal>
    ensures ok { OnOk result (Appends S.told (S.written out.old) (S.written out.new) (flat_map told_text clients.now)) }
    ensures front { AppendsFront S.told (S.written out.old) (S.written out.new) (flat_map told_text clients.now) }
    ensures cause { RefusalCause (S.faults out.old) (S.faults out.new) result }
{
    for told in clients {
        write_told(alloc, out, told)?;
    }
    Ok(())
}

/// Writes the section of one log, by one write where the sink takes it whole.
fn write_section<S: Sink>(alloc: Global, out: &mut S, section: &Section) -> Result<(), Refusal>
    ensures ok { OnOk result (Appends S.told (S.written out.old) (S.written out.new) (section_text section.now)) }
    ensures front { AppendsFront S.told (S.written out.old) (S.written out.new) (section_text section.now) }
    ensures cause { RefusalCause (S.faults out.old) (S.faults out.new) result }
{
    let mut text = Vec::new(alloc);
    push_log(alloc, &mut text, &section.path, &section.log)?;
    write_text(out, &text)?;
    Ok(())
}

/// Writes the sections of logs, one after the other.
fn write_logs<S: Sink>(alloc: Global, out: &mut S, logs: &[Section]) -> Result<(), Refusal>
    ensures ok { OnOk result (Appends S.told (S.written out.old) (S.written out.new) (flat_map section_text logs.now)) }
    ensures front { AppendsFront S.told (S.written out.old) (S.written out.new) (flat_map section_text logs.now) }
    ensures cause { RefusalCause (S.faults out.old) (S.faults out.new) result }
{
    for section in logs {
        write_section(alloc, out, section)?;
    }
    Ok(())
}

/// Writes a report: the clients, then the logs. After a refusal a front of it is written.
fn write_report<S: Sink>(alloc: Global, out: &mut S, report: &Report) -> Result<(), Refusal>
    ensures ok { OnOk result (Appends S.told (S.written out.old) (S.written out.new) (report_text report.now)) }
    ensures front { AppendsFront S.told (S.written out.old) (S.written out.new) (report_text report.now) }
    ensures cause { RefusalCause (S.faults out.old) (S.faults out.new) result }
{
    write_clients(alloc, out, report.clients())?;
    write_logs(alloc, out, report.logs())?;
    Ok(())
}

/// The line that says how the program is called.
const USAGE: &[u8] =
    b"usage: xcache_replay <config> <origin> <cache> <capacity> <schedule> | generate <number>\n";

/// Writes how the program is called.
fn write_usage<S: Sink>(out: &mut S) -> Result<(), Refusal>
    ensures ok { OnOk result (Appends S.told (S.written out.old) (S.written out.new) (text_of outcome.Usage)) }
    ensures front { AppendsFront S.told (S.written out.old) (S.written out.new) (text_of outcome.Usage) }
    ensures cause { RefusalCause (S.faults out.old) (S.faults out.new) result }
{
    write_text(out, USAGE)?;
    Ok(())
}

/// Writes which line of the configuration is refused, and why.
fn write_config<S: Sink>(alloc: Global, out: &mut S, line: u32, kind: Kind) -> Result<(), Refusal>
    ensures ok { OnOk result (Appends S.told (S.written out.old) (S.written out.new) (text_of (outcome.Config line kind))) }
    ensures front { AppendsFront S.told (S.written out.old) (S.written out.new) (text_of (outcome.Config line kind)) }
    ensures cause { RefusalCause (S.faults out.old) (S.faults out.new) result }
{
    let mut text = Vec::new(alloc);
    push_word(&mut text, b"config ")?;
    push_number(alloc, &mut text, u64::from(line))?;
    push_word(&mut text, b" ")?;
    push_word(&mut text, kind.text().as_bytes())?;
    push_word(&mut text, b"\n")?;
    write_text(out, &text)?;
    Ok(())
}

/// Writes which line of the schedule is refused.
fn write_schedule<S: Sink>(alloc: Global, out: &mut S, line: u64) -> Result<(), Refusal>
    ensures ok { OnOk result (Appends S.told (S.written out.old) (S.written out.new) (text_of (outcome.Schedule line))) }
    ensures front { AppendsFront S.told (S.written out.old) (S.written out.new) (text_of (outcome.Schedule line)) }
    ensures cause { RefusalCause (S.faults out.old) (S.faults out.new) result }
{
    let mut text = Vec::new(alloc);
    push_word(&mut text, b"schedule ")?;
    push_number(alloc, &mut text, line)?;
    push_word(&mut text, b"\n")?;
    write_text(out, &text)?;
    Ok(())
}

/// Appends the name of what failed.
fn push_part(alloc: Global, text: &mut Vec<u8>, part: Part) -> Result<(), Memory>
    ensures { OnOk result (text.new.items ≡ text.old.items ++ part_text part) }
{
    match part {
        Part::Config => push_word(text, b"config"),
        Part::Schedule => push_word(text, b"schedule"),
        Part::Depot => push_word(text, b"depot"),
        Part::Link(number) => {
            push_word(text, b"link ")?;
            push_number(alloc, text, u64::from(number))
        }
    }
}

/// Writes what of the outside failed.
fn write_fault<S: Sink>(alloc: Global, out: &mut S, part: Part) -> Result<(), Refusal>
    ensures ok { OnOk result (Appends S.told (S.written out.old) (S.written out.new) (text_of (outcome.Fault part))) }
    ensures front { AppendsFront S.told (S.written out.old) (S.written out.new) (text_of (outcome.Fault part)) }
    ensures cause { RefusalCause (S.faults out.old) (S.faults out.new) result }
{
    let mut text = Vec::new(alloc);
    push_word(&mut text, b"fault ")?;
    push_part(alloc, &mut text, part)?;
    push_word(&mut text, b"\n")?;
    write_text(out, &text)?;
    Ok(())
}

/// Writes the text of an outcome. After a refusal a front of it is written.
pub fn write_outcome<S: Sink>(alloc: Global, out: &mut S, outcome: &Outcome) -> Result<(), Refusal>
    ensures ok { OnOk result (Appends S.told (S.written out.old) (S.written out.new) (text_of outcome.now)) }
    ensures front { AppendsFront S.told (S.written out.old) (S.written out.new) (text_of outcome.now) }
    ensures cause { RefusalCause (S.faults out.old) (S.faults out.new) result }
{
    match outcome {
        Outcome::Report(report) => write_report(alloc, out, report),
        Outcome::Usage => write_usage(out),
        Outcome::Config { line, kind } => write_config(alloc, out, *line, *kind),
        Outcome::Schedule { line } => write_schedule(alloc, out, *line),
        Outcome::Fault(part) => write_fault(alloc, out, *part),
    }
}

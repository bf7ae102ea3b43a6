// INFO: which sections are asked for, and their text. The replies to admin commands.
ghost use Rattle.std.specs.Prelude.{◌≡◌, ◌++◌, IfOk, OnErr, OnOk, Some, codes, flat_map, map, slice_get};
ghost use Rattle.std.specs.List.{list_any};
ghost use Rattle.silt_resp.specs.Info.{admin_text, behind, info_body, info_line, is_section, names_section, section_if, sections_named, server_section, stats_section, store_section};
ghost use Rattle.silt_resp.specs.Texts.{error_text, string_text};

use crate::arguments::has_word;
use crate::asked::{Sections, Tail};
use crate::command::Words;
use crate::texts::{push_line, push_string};
use silt_event::{AdminReply, Counts, Facts};
use silt_wire::{count_rows, fact_rows};
use std::alloc::{AllocError, Global};

const SERVER: &[u8] = b"# Server\r\nredis_version:7.0.0\r\nsilt_version:0.1.0\r\nloading:0\r\n";

// Whether the word with this number names this section, or all.
fn is_section(args: &Words<'_>, index: usize, name: &[u8]) -> bool
    ensures { (word : _) → slice_get args.now index ≡ Some word → result ≡ is_section name.now word }
{
    has_word(args, index, name)
        || has_word(args, index, b"all")
        || has_word(args, index, b"default")
        || has_word(args, index, b"everything")
}

// Whether one of the words names this section.
fn has_section(args: &Words<'_>, name: &[u8]) -> bool
    ensures { result ≡ list_any (is_section name.now) args.now }
{
    for index in 0..args.len() {
        if is_section(args, index, name) {
            return true;
        }
    }
    false
}

// Whether the words name this section; no words name all.
fn names_section(args: &Words<'_>, name: &[u8]) -> bool
    ensures { result ≡ names_section name.now args.now }
{
    args.len() == 0 || has_section(args, name)
}

/// The sections that words name.
pub(crate) fn sections_named(args: &Words<'_>) -> Sections
    ensures { result ≡ sections_named args.now }
{
    Sections {
        server: names_section(args, b"server"),
        store: names_section(args, b"store"),
        stats: names_section(args, b"stats"),
    }
}

// Appends a fact to a section.
fn push_fact(alloc: Global, name: &str, number: u64, out: &mut Vec<u8>) -> Result<(), AllocError>
    ensures { OnOk result (out.new.items ≡ out.old.items ++ info_line (name.now, number)) }
{
    let line = format!(in alloc; "{name}:{number}\r\n")?;
    out.extend_from_slice(line.as_bytes())
}

// Appends facts to a section.
fn push_facts(
    alloc: Global,
    rows: &[(&'static str, u64)],
    out: &mut Vec<u8>,
) -> Result<(), AllocError>
    ensures { OnOk result (out.new.items ≡ out.old.items ++ flat_map info_line (map (λ row. (row.0.now, row.1)) rows.now)) }
{
    for (name, number) in rows.iter() {
        push_fact(alloc, name, *number, out)?;
    }
    Ok(())
}

// Appends a section to those before it, with an empty line between. No text is no section.
fn push_section(section: &[u8], body: &mut Vec<u8>) -> Result<(), AllocError>
    ensures { OnOk result (body.new.items ≡ behind body.old.items section.now) }
{
    if section.is_empty() {
        return Ok(());
    }
    if !body.is_empty() {
        body.extend_from_slice(b"\r\n")?;
    }
    body.extend_from_slice(section)
}

// The section of the server, if it is asked for.
fn server_section(is_asked: bool) -> &'static [u8]
    ensures { result.now ≡ section_if is_asked server_section }
{
    if is_asked { SERVER } else { b"" }
}

// The section of the store, if it is asked for.
fn store_section(alloc: Global, is_asked: bool, facts: &Facts) -> Result<Vec<u8>, AllocError>
    ensures { IfOk result (λ section. section.items ≡ section_if is_asked (store_section facts.now)) }
{
    let mut section = Vec::new(alloc);
    if is_asked {
        section.extend_from_slice(b"# Store\r\n")?;
        push_facts(alloc, &fact_rows(facts), &mut section)?;
    }
    Ok(section)
}

// Appends the section of what was counted, if the server counts.
fn push_stats(
    alloc: Global,
    counts: &Option<Counts>,
    section: &mut Vec<u8>,
) -> Result<(), AllocError>
    ensures { OnOk result (section.new.items ≡ section.old.items ++ stats_section counts.now) }
{
    match counts {
        Some(counts) => {
            section.extend_from_slice(b"# Stats\r\n")?;
            let rows = count_rows(alloc, counts)?;
            push_facts(alloc, &rows, section)
        }
        None => Ok(()),
    }
}

// That section, if it is asked for.
fn stats_section(
    alloc: Global,
    is_asked: bool,
    counts: &Option<Counts>,
) -> Result<Vec<u8>, AllocError>
    ensures { IfOk result (λ section. section.items ≡ section_if is_asked (stats_section counts.now)) }
{
    let mut section = Vec::new(alloc);
    if is_asked {
        push_stats(alloc, counts, &mut section)?;
    }
    Ok(section)
}

// The sections that are asked for.
fn body_of(
    alloc: Global,
    sections: Sections,
    facts: &Facts,
    counts: &Option<Counts>,
) -> Result<Vec<u8>, AllocError>
    ensures { IfOk result (λ body. body.items ≡ info_body sections facts.now counts.now) }
{
    let mut body = Vec::new(alloc);
    body.extend_from_slice(server_section(sections.server))?;
    let store = store_section(alloc, sections.store, facts)?;
    push_section(&store, &mut body)?;
    let stats = stats_section(alloc, sections.stats, counts)?;
    push_section(&stats, &mut body)?;
    Ok(body)
}

// Appends the sections that are asked for as one string.
fn push_body(
    alloc: Global,
    sections: Sections,
    facts: &Facts,
    counts: &Option<Counts>,
    out: &mut Vec<u8>,
) -> Result<(), AllocError>
    ensures { OnOk result (out.new.items ≡ out.old.items ++ string_text (info_body sections facts.now counts.now)) }
{
    let body = body_of(alloc, sections, facts, counts)?;
    push_string(alloc, out, &body)
}

// Appends that nothing here does what is asked.
fn push_not_served(out: &mut Vec<u8>) -> Result<(), AllocError>
    ensures { OnOk result (out.new.items ≡ out.old.items ++ error_text (codes "ERR not served")) }
{
    push_line(out, b'-', b"ERR not served")
}

// Appends the reply to INFO.
fn push_info(
    alloc: Global,
    sections: Sections,
    reply: AdminReply,
    out: &mut Vec<u8>,
) -> Result<(), AllocError>
    ensures { OnOk result (out.new.items ≡ out.old.items ++ admin_text (Tail.Info sections) reply) }
{
    match reply {
        AdminReply::Info(facts, counts) => push_body(alloc, sections, &facts, &counts, out),
        _ => push_not_served(out),
    }
}

// Appends the reply to SHUTDOWN: none if the server ends.
fn push_shutdown(reply: AdminReply, out: &mut Vec<u8>) -> Result<(), AllocError>
    ensures { OnOk result (out.new.items ≡ out.old.items ++ admin_text Tail.Shutdown reply) }
{
    match reply {
        AdminReply::Begun | AdminReply::UnderWay => Ok(()),
        _ => push_not_served(out),
    }
}

// Appends the reply to BGSAVE.
fn push_backup(reply: AdminReply, out: &mut Vec<u8>) -> Result<(), AllocError>
    ensures { OnOk result (out.new.items ≡ out.old.items ++ admin_text Tail.Backup reply) }
{
    match reply {
        AdminReply::Begun => push_line(out, b'+', b"Background saving started"),
        AdminReply::UnderWay => push_line(out, b'-', b"ERR Background save already in progress"),
        _ => push_not_served(out),
    }
}

// Appends the reply to an admin command.
fn push_reply(
    alloc: Global,
    tail: Tail,
    reply: AdminReply,
    out: &mut Vec<u8>,
) -> Result<(), AllocError>
    ensures { OnOk result (out.new.items ≡ out.old.items ++ admin_text tail reply) }
{
    match tail {
        Tail::Info(sections) => push_info(alloc, sections, reply, out),
        Tail::Shutdown => push_shutdown(reply, out),
        Tail::Backup => push_backup(reply, out),
    }
}

/// Appends the reply to an admin command: what INFO asks for, or what becomes of it. On an error of its own nothing changes.
pub(crate) fn push_admin(
    alloc: Global,
    tail: Tail,
    reply: AdminReply,
    texts: &mut Vec<u8>,
) -> Result<(), AllocError>
    ensures ok { OnOk result (texts.new.items ≡ texts.old.items ++ admin_text tail reply) }
    ensures err { OnErr result (texts.new.items ≡ texts.old.items) }
{
    let mut text = Vec::new(alloc);
    push_reply(alloc, tail, reply, &mut text)?;
    texts.extend_from_slice(&text)
}

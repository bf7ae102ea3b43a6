// Reports to text.
ghost use Rattle.std.specs.Prelude.{◌≡◌, IfOk, OnOk, string_bytes};
ghost use Rattle.std.specs.Io.KnownBytes.{Appends};
ghost use Rattle.silt_wire.specs.Reports.{number_line, rows_line, layout_number, report_text};

use silt_event::{Layout, Report};
use std::alloc::{AllocError, Global};
use std::io::{self, Write};

// A line of one number.
#[tactic(auto, unfolding(crate::specs::Reports::number_line))]
fn number_line(alloc: Global, name: &str, number: u64) -> Result<String, AllocError>
    ensures { IfOk result (λ text. string_bytes text ≡ number_line name.now number) }
{
    format!(in alloc; "{name} {number}\n")
}

// A line of one number, and of how many rows belong to it.
#[tactic(auto, unfolding(crate::specs::Reports::rows_line))]
fn rows_line(alloc: Global, name: &str, number: u32, rows: u32) -> Result<String, AllocError>
    ensures { IfOk result (λ text. string_bytes text ≡ rows_line name.now number rows) }
{
    format!(in alloc; "{name} {number} rows {rows}\n")
}

// The number of a layout.
fn layout_number(layout: Layout) -> u64
    ensures { result ≡ layout_number layout }
{
    match layout {
        Layout::One => 1,
        Layout::Two => 2,
    }
}

/// The text of a report: seven lines, each with its line feed. Numbers are in decimal.
pub fn print_report(alloc: Global, report: &Report) -> Result<String, AllocError>
    ensures { IfOk result (λ text. string_bytes text ≡ report_text report.now) }
{
    let generation = number_line(alloc, "generation", report.generation)?;
    let active = rows_line(alloc, "active log", report.active, report.active_rows)?;
    let frozen = rows_line(alloc, "frozen logs", report.frozen, report.frozen_rows)?;
    let hashes = rows_line(alloc, "hash stores", report.hashes, report.hash_rows)?;
    let entries = number_line(alloc, "sorted entries", report.entries as u64)?;
    let charge = number_line(alloc, "charge", report.charge as u64)?;
    let layout = number_line(alloc, "layout", layout_number(report.layout))?;
    format!(in alloc; "{generation}{active}{frozen}{hashes}{entries}{charge}{layout}")
}

/// Writes the seven lines of a report.
pub fn write_report<W: Write>(alloc: Global, report: &Report, writer: &mut W) -> io::Result<()>
    ensures { OnOk result (Appends (W.contents writer.old) (W.contents writer.new) (report_text report.now)) }
{
    let text = print_report(alloc, report)?;
    writer.write_all(text.as_bytes())
}

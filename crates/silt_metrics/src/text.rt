// The text of the page.
ghost use Rattle.std.specs.Prelude.{◌≡◌, ◌++◌, IfOk, OnOk, flat_map, map, string_bytes};
ghost use Rattle.silt_metrics.specs.Pages.{count_metric, count_type, fact_metric, metric, page_text};

use silt_event::{Counts, Facts};
use silt_wire::{count_rows, fact_rows};
use std::alloc::{AllocError, Global};

// The type of a count: one that only grows is a counter.
#[tactic(auto, unfolding(crate::specs::Pages::count_type))]
fn count_type(name: &str) -> &'static str
    ensures { result.now ≡ count_type name.now }
{
    match name {
        "uptime" | "open_connections" | "last_failure" => "gauge",
        _ => "counter",
    }
}

// Appends a number with its type and its name.
#[tactic(auto, unfolding(crate::specs::Pages::metric))]
fn push_metric(
    alloc: Global,
    kind: &str,
    name: &str,
    number: u64,
    text: &mut String,
) -> Result<(), AllocError>
    ensures { OnOk result (string_bytes text.new ≡ string_bytes text.old ++ metric kind.now (name.now, number)) }
{
    let lines = format!(in alloc; "# TYPE silt_{name} {kind}\nsilt_{name} {number}\n")?;
    text.push_str(&lines)
}

// Appends facts.
fn push_facts(
    alloc: Global,
    rows: &[(&'static str, u64)],
    text: &mut String,
) -> Result<(), AllocError>
    ensures { OnOk result (string_bytes text.new ≡ string_bytes text.old ++ flat_map fact_metric (map (λ row. (row.0.now, row.1)) rows.now)) }
{
    for (name, number) in rows.iter() {
        push_metric(alloc, "gauge", name, *number, text)?;
    }
    Ok(())
}

// Appends counts.
fn push_counts(
    alloc: Global,
    rows: &[(&'static str, u64)],
    text: &mut String,
) -> Result<(), AllocError>
    ensures { OnOk result (string_bytes text.new ≡ string_bytes text.old ++ flat_map count_metric (map (λ row. (row.0.now, row.1)) rows.now)) }
{
    for (name, number) in rows.iter() {
        push_metric(alloc, count_type(name), name, *number, text)?;
    }
    Ok(())
}

/// The page: each fact of a store, or of a set, and each count of its server, with its type and its name.
pub fn page(alloc: Global, facts: &Facts, counts: &Counts) -> Result<String, AllocError>
    ensures { IfOk result (λ text. string_bytes text ≡ page_text facts.now counts.now) }
{
    let mut text = String::new(alloc);
    push_facts(alloc, &fact_rows(facts), &mut text)?;
    push_counts(alloc, &count_rows(alloc, counts)?, &mut text)?;
    Ok(text)
}

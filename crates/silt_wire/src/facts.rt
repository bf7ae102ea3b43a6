// Facts and counts to text.
ghost use Rattle.std.specs.Prelude.{◌≡◌, ◌++◌, IfOk, OnOk, flat_map, map, string_bytes};
ghost use Rattle.silt_wire.specs.Facts.{count_rows, counts_rows, fact_line, fact_rows, info_text};

use silt_event::{COUNTS, Counts, Facts};
use std::alloc::{AllocError, Global};

/// How many facts there are.
const COUNT: usize = 11;

/// The names of the counts, in their order.
const COUNT_NAMES: [&str; COUNTS] = [
    "uptime",
    "connections",
    "open_connections",
    "refused_connections",
    "gets",
    "puts",
    "deletes",
    "swaps",
    "flushes",
    "refused_1",
    "refused_2",
    "refused_3",
    "refused_4",
    "refused_5",
    "refused_6",
    "refused_7",
    "refused_8",
    "refused_9",
    "refused_10",
    "refused_11",
    "batches",
    "batches_128us",
    "batches_256us",
    "batches_512us",
    "batches_1ms",
    "batches_2ms",
    "batches_4ms",
    "batches_8ms",
    "batches_16ms",
    "batches_32ms",
    "batches_65ms",
    "batches_131ms",
    "batches_262ms",
    "batches_longer",
    "last_failure",
    "findings",
    "scrubs",
    "backups",
];

/// The facts in the order of their texts, each a name and a number.
pub fn fact_rows(facts: &Facts) -> [(&'static str, u64); COUNT]
    ensures { map (λ row. (row.0.now, row.1)) result ≡ fact_rows facts.now }
{
    [
        ("stores", facts.stores),
        ("failed", facts.failed),
        ("commands", facts.commands),
        ("charge", facts.charge),
        ("capacity", facts.capacity),
        ("generation", facts.generation),
        ("frozen_logs", facts.frozen_logs),
        ("hash_stores", facts.hash_stores),
        ("sorted_entries", facts.sorted_entries),
        ("converted_slots", facts.converted_slots),
        ("merge_steps", facts.merge_steps),
    ]
}

// Appends a fact as a line.
fn push_fact(alloc: Global, name: &str, number: u64, text: &mut String) -> Result<(), AllocError>
    ensures { OnOk result (string_bytes text.new ≡ string_bytes text.old ++ fact_line (name.now, number)) }
{
    let line = format!(in alloc; "{name} {number}\n")?;
    text.push_str(&line)
}

// Appends facts, a line each.
fn push_rows(
    alloc: Global,
    rows: &[(&'static str, u64)],
    text: &mut String,
) -> Result<(), AllocError>
    ensures { OnOk result (string_bytes text.new ≡ string_bytes text.old ++ flat_map fact_line (map (λ row. (row.0.now, row.1)) rows.now)) }
{
    for (name, number) in rows.iter() {
        push_fact(alloc, name, *number, text)?;
    }
    Ok(())
}

/// The counts in the order of their texts, each a name and a number.
pub fn count_rows(alloc: Global, counts: &Counts) -> Result<Vec<(&'static str, u64)>, AllocError>
    ensures { IfOk result (λ rows. map (λ row. (row.0.now, row.1)) rows.items ≡ count_rows counts.now) }
{
    let mut rows = Vec::new(alloc);
    for (name, number) in COUNT_NAMES.iter().zip(counts.numbers.iter()) {
        rows.push((*name, *number))?;
    }
    Ok(rows)
}

// Appends counts, a line each, if there are some.
fn push_counts(alloc: Global, counts: &Option<Counts>, text: &mut String) -> Result<(), AllocError>
    ensures { OnOk result (string_bytes text.new ≡ string_bytes text.old ++ flat_map fact_line (counts_rows counts.now)) }
{
    match counts {
        Some(counts) => {
            let rows = count_rows(alloc, counts)?;
            push_rows(alloc, &rows, text)
        }
        None => Ok(()),
    }
}

/// The text of facts and of counts: a line with a name and a number for each, and then the line `end`.
pub fn print_info(
    alloc: Global,
    facts: &Facts,
    counts: &Option<Counts>,
) -> Result<String, AllocError>
    ensures { IfOk result (λ text. string_bytes text ≡ info_text facts.now counts.now) }
{
    let mut text = String::new(alloc);
    push_rows(alloc, &fact_rows(facts), &mut text)?;
    push_counts(alloc, counts, &mut text)?;
    text.push_str("end\n")?;
    Ok(text)
}

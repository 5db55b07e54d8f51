//! The text of what is hit in the segments of a run: how many there are, and lines for each. The last
//! line says whether anything is hit.
ghost use Rattle.std.specs.Prelude.{◌≡◌, ◌++◌, length};
ghost use Rattle.nc_verify.specs.Printed.{IsPut};
ghost use Rattle.zone_cell.specs.HitLines.{finding_text, finding_texts, hit_count, is_some_hit};
ghost use Rattle.zone_cell.specs.Lines.{head_text, end_text};

use nc_outside::{PutFault, Sink};
use nc_verify::put_piece;
use zone_cell::{Finding, end_line, finding_lines, head_line};

/// Puts the lines of a segment.
fn put_finding<K: Sink>(sink: &mut K, number: u64, finding: &Finding) -> Result<(), PutFault>
    ensures { IsPut (K.state sink.old) (K.state sink.new) (finding_text number finding.now) result }
{
    put_piece(sink, &finding_lines(number, finding))
}

/// In how many segments something is hit.
fn hit_count(findings: &[Finding]) -> u64
    ensures { result ≡ hit_count findings.now }
{
    findings
        .iter()
        .filter(|finding| is_some_hit(finding))
        .count() as u64
}

/// Whether something is hit in the segment.
fn is_some_hit(finding: &Finding) -> bool
    ensures { result ≡ is_some_hit finding.now.hit }
{
    match finding.hit {
        Some(_) => true,
        None => false,
    }
}

/// Puts lines for each segment.
fn put_findings<K: Sink>(sink: &mut K, findings: &[Finding]) -> Result<(), PutFault>
    ensures { IsPut (K.state sink.old) (K.state sink.new) (finding_texts 0 findings.now) result }
{
    let mut number = 0u64;
    for finding in findings {
        put_finding(sink, number, finding)?;
        number += 1;
    }
    Ok(())
}

/// Puts the line before the segments: how many there are.
fn put_head<K: Sink>(sink: &mut K, count: u64) -> Result<(), PutFault>
    ensures { IsPut (K.state sink.old) (K.state sink.new) (head_text count) result }
{
    put_piece(sink, &head_line(count))
}

/// Writes what is hit in the segments of a run: how many segments there are; for each the code of
/// the meeting that it begins with, and whether anything is hit in it, and what.
///
/// Errors: those of the sink, which then holds a part of the text, from its start.
pub fn write_findings<K: Sink>(findings: &[Finding], sink: &mut K) -> Result<(), PutFault>
    ensures { IsPut (K.state sink.old) (K.state sink.new)
        (head_text (length findings.now) ++ finding_texts 0 findings.now) result }
{
    match put_head(sink, findings.len() as u64) {
        Ok(()) => put_findings(sink, findings),
        Err(fault) => Err(fault),
    }
}

/// Writes the last line: whether nothing is hit, or in how many segments something is.
pub fn write_end<K: Sink>(findings: &[Finding], sink: &mut K) -> Result<(), PutFault>
    ensures { IsPut (K.state sink.old) (K.state sink.new) (end_text (hit_count findings.now)) result }
{
    put_piece(sink, &end_line(hit_count(findings)))
}

// The whole report.
ghost use Rattle.std.specs.Prelude.{◌≡◌, IsTrue, OnOk, IfOk, codes, map};
ghost use Rattle.std.specs.List.{flat_map};
ghost use Rattle.sharing_rules.specs.AccessLists.{AccessList};
ghost use Rattle.sharing_rules.specs.Listed.{may_predict};
ghost use Rattle.report.specs.Added.{AddsLines, AddsText};
ghost use Rattle.report.specs.Reports.{lines_of, lines_of_findings, report_text};
ghost use Rattle.report.specs.OfLists.{AreTracksOf, report_of_list};
ghost use Rattle.report.specs.ListedTracks.{track_shown};

use crate::findings::Findings;
use crate::head::{push_ending, push_settings};
use crate::lines::{push_head, push_words};
use crate::listing::{ListedTrack, listed};
use crate::object_lines::push_objects;
use base::NoMemory;
use objects::ObjectIndex;
use std::alloc::{AllocError, Global};

// The lines of a listed track.
fn push_listed(
    text: &mut String,
    row: &ListedTrack<'_>,
    index: &ObjectIndex<'_>,
    end: u64,
) -> Result<(), AllocError>
    ensures { OnOk result (AddsLines text.old text.new
        (lines_of index.now end (track_shown row.now))) }
{
    let range = row.track.range();
    push_head(text, row.track, row.start)?;
    push_objects(text, index, range, row.start, end)?;
    push_words(text, row.track.shadow())
}

// The lines of the listed tracks.
fn push_tracks(
    text: &mut String,
    rows: &[ListedTrack<'_>],
    index: &ObjectIndex<'_>,
    end: u64,
) -> Result<(), AllocError>
    ensures { OnOk result (AddsLines text.old text.new
        (flat_map (lines_of index.now end) (map track_shown rows.now))) }
{
    for row in rows {
        push_listed(text, row, index, end)?;
    }
    Ok(())
}

// The last line.
fn push_end(text: &mut String) -> Result<(), AllocError>
    ensures { OnOk result (AddsText text.old text.new (codes "end\n")) }
{
    text.push_str("end\n")
}

// The report of findings with these listed tracks.
fn push_report(
    text: &mut String,
    findings: &Findings<'_>,
    rows: &[ListedTrack<'_>],
    index: &ObjectIndex<'_>,
) -> Result<(), AllocError>
    requires { index.now ≡ findings.now.objects.now }
    ensures { OnOk result (AddsLines text.old text.new
        (lines_of_findings findings.now (map track_shown rows.now))) }
{
    push_ending(text, &findings.ending)?;
    push_settings(text, findings.layout, findings.thresholds, rows.len())?;
    push_tracks(text, rows, index, findings.ending.accesses)?;
    push_end(text)
}

/// The report of findings: how it ended, the layout, the thresholds, the listed lines in their
/// order with what stands on each and its accessed words, and `end`.
///
/// NoMemory comes where there is no memory for the text, for 16 bytes a listed line and as many for
/// their sort, for 24 bytes a symbol and a block, or for 8 bytes each symbol or block on a line.
pub fn write_report(alloc: Global, findings: &Findings<'_>) -> Result<Vec<u8>, NoMemory>
    ensures text { IfOk result (λ text. text.items ≡ report_text findings.now) }
    // where the tracks are those that a list keeps, in any order, it is the report of the list
    ensures of_list { (t : AccessList)
        → IsTrue (may_predict findings.now.layout findings.now.thresholds)
        → AreTracksOf t findings.now
        → IfOk result (λ text. text.items ≡ report_of_list t findings.now) }
{
    // A layout's lines have some bytes, as its size says.
    let _size = findings.layout.size();
    let rows = listed(alloc, findings.tracks, findings.thresholds.report())?;
    let index = ObjectIndex::new(alloc, findings.objects)?;
    let mut text = String::new(alloc);
    push_report(&mut text, findings, &rows, &index)?;
    Ok(text.into_bytes())
}

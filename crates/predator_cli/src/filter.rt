// The command `filter`.
ghost use Rattle.std.specs.Prelude.{◌≤◌, Some};
ghost use Rattle.command_line.specs.Filter.{filter_meaning};
ghost use Rattle.command_line.specs.Words.{filter as asks};
ghost use Rattle.predator_cli.specs.Meets.{Meets};

use crate::copies::print_copies;
use crate::endings::refuse;
use crate::trace_faults::status_of_filter;
use command_io::Status;
use command_line::FilterOptions;
use filtered_counts::{filtered_lists_keep_counts, filtered_lists_keep_harts};
use shelf::Shelf;
use std::alloc::Global;
use trace_filter::{
    a_filtered_trace_has_the_filtered_list, a_filtered_trace_is_a_trace,
    a_trace_with_pcs_is_filtered_whole, filter_trace,
};

/// Writes the filtered trace of a name under another name, for regions of 2^near bytes, and prints
/// how many accesses there are and how many of them are kept. The file is written as the trace is
/// read.
pub fn filter<S: Shelf>(alloc: Global, options: &FilterOptions<'_>, shelf: &mut S) -> Status
    requires { (6 ≤ options.now.near) × (options.now.near ≤ 16) }
    ensures { Meets (Some (asks (filter_meaning options.now)))
        (S.outside shelf.old) (S.outside shelf.new) result }
{
    a_trace_with_pcs_is_filtered_whole();
    a_filtered_trace_is_a_trace();
    a_filtered_trace_has_the_filtered_list();
    filtered_lists_keep_counts();
    filtered_lists_keep_harts();
    match filter_trace(alloc, shelf, options.trace, options.near, options.file) {
        Ok(made) => print_copies(alloc, shelf, "filter", made.whole, made.kept),
        Err(fault) => refuse(alloc, shelf, status_of_filter(fault)),
    }
}

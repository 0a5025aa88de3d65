//! The laws of printed files, as the contract of a function that does nothing.
ghost use Rattle.cli_print_laws.specs.Laws.{PrintedFilesAreRead, PrintedFilesArePrintedAlike};

use bc_text_laws::{printed_types_are_read, printed_units_are_read};

/// Guarantees that a printed file makes the same calls as the file from which it was printed, in order, if none of its texts is longer than
/// a text may be; and that it is printed as itself.
pub fn printed_files_are_read()
    ensures again { PrintedFilesAreRead }
    ensures alike { PrintedFilesArePrintedAlike }
{
    printed_units_are_read();
    printed_types_are_read();
}

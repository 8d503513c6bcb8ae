//! Laws on the entries of blocks.
ghost use Rattle.output_file.specs.Entries.{EntriesOfBlocks};

/// Rows that have the first addresses of blocks in ascending order are entries.
pub fn entries_of_blocks()
    ensures { EntriesOfBlocks }
{}

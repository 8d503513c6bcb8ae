//! The limits of what is read, woven, written and run (this project's profile). Each constant is the
//! greatest number that is taken.
ghost use Rattle.std.specs.Prelude.{◌≡◌};
ghost use Rattle.machine.specs.Limits.{limit_of, limit_number, is_counted};

/// L1: the bytes of a file to be transformed, 64 MiB.
pub const MAX_FILE_BYTES: u64 = 67_108_864;

/// L1 for `run`, `list` and `harts`: the bytes of a file to be run or listed, 512 MiB. It equals L9,
/// so that every output can be run.
pub const MAX_RUN_FILE_BYTES: u64 = 536_870_912;

/// L2: the bytes from the page in which the image begins to the end of its last page, 64 MiB.
pub const MAX_IMAGE_SPAN: u64 = 67_108_864;

/// L3: the code words, each counted once an address.
pub const MAX_CODE_WORDS: u64 = 1_048_576;

/// L4: the bytes of the new code, 64 MiB.
pub const MAX_CODE_BYTES: u64 = 67_108_864;

/// L5: the sections of a file.
pub const MAX_SECTIONS: u64 = 4_096;

/// L6, for `run`, `list` and `harts`: the bytes that the PT_LOAD segments have in memory, those of all
/// files together, 256 MiB.
pub const MAX_MEMORY_BYTES: u64 = 268_435_456;

/// L7: the address behind the room for the new code, 2^63.
pub const MAX_TOP_ADDRESS: u64 = 9_223_372_036_854_775_808;

/// L8: the segments of an output.
pub const MAX_OUTPUT_SEGMENTS: u64 = 4_000;

/// L9: the bytes of an output, 512 MiB.
pub const MAX_OUTPUT_BYTES: u64 = 536_870_912;

/// L10: the bytes of the PT_LOAD segments and of the names of sections and symbols, each counted as
/// often as it is copied, together 1 GiB.
pub const MAX_COUNTED_BYTES: u64 = 1_073_741_824;

/// The sections of an output beside those that the writer adds, so that all are within L5.
pub const MAX_OUTPUT_SECTIONS: u64 = 4_000;

/// The bytes of room for the new code behind both halves and the table, 128 MiB.
pub const CODE_ROOM: u64 = 134_217_728;

/// L11: the bytes of new code in the lean form, and of the near form, 1 MiB, within which each JAL
/// reaches.
pub const MAX_NEAR_CODE_BYTES: u64 = 1_048_576;

/// The greatest distance of the halves that can be asked for, in bytes, 512 MiB.
pub const MAX_HALF: u64 = 536_870_912;

/// A limit, by what it counts. The printed texts name them L1 to L11; L1 is another for `run`, `list`
/// and `harts`.
#[derive(Clone, Copy, Debug, PartialEq, Eq)]
pub enum Limit {
    /// L1: the bytes of a file to be transformed.
    FileBytes,
    /// L1 for `run`, `list` and `harts`: the bytes of a file to be run or listed.
    RunFileBytes,
    /// L2: the bytes that the image spans, in whole pages.
    ImageSpan,
    /// L3: the code words.
    CodeWords,
    /// L4: the bytes of the new code.
    CodeBytes,
    /// L5: the sections of a file.
    Sections,
    /// L6: the bytes that the PT_LOAD segments have in memory, those of all files together.
    MemoryBytes,
    /// L7: the address behind the room for the new code.
    TopAddress,
    /// L8: the segments of an output.
    OutputSegments,
    /// L9: the bytes of an output.
    OutputBytes,
    /// L10: the bytes of segments and names.
    CountedBytes,
    /// L11: the bytes of the new code in the lean form.
    LeanBytes,
}

impl Limit {
    /// The greatest number that is taken.
    pub fn most(self) -> u64
        ensures { result ≡ limit_of self }
    {
        match self {
            Limit::FileBytes => MAX_FILE_BYTES,
            Limit::RunFileBytes => MAX_RUN_FILE_BYTES,
            Limit::ImageSpan => MAX_IMAGE_SPAN,
            Limit::CodeWords => MAX_CODE_WORDS,
            Limit::CodeBytes => MAX_CODE_BYTES,
            Limit::Sections => MAX_SECTIONS,
            Limit::MemoryBytes => MAX_MEMORY_BYTES,
            Limit::TopAddress => MAX_TOP_ADDRESS,
            Limit::OutputSegments => MAX_OUTPUT_SEGMENTS,
            Limit::OutputBytes => MAX_OUTPUT_BYTES,
            Limit::CountedBytes => MAX_COUNTED_BYTES,
            Limit::LeanBytes => MAX_NEAR_CODE_BYTES,
        }
    }

    /// The number in the limit's name, from 1 to 11.
    pub fn number(self) -> u64
        ensures { result ≡ limit_number self }
    {
        match self {
            Limit::FileBytes | Limit::RunFileBytes => 1,
            Limit::ImageSpan => 2,
            Limit::CodeWords => 3,
            Limit::CodeBytes => 4,
            Limit::Sections => 5,
            Limit::MemoryBytes => 6,
            Limit::TopAddress => 7,
            Limit::OutputSegments => 8,
            Limit::OutputBytes => 9,
            Limit::CountedBytes => 10,
            Limit::LeanBytes => 11,
        }
    }

    /// Whether the counted number is printed. It is not where a file is too long to be loaded, since
    /// nobody counts its bytes.
    pub fn is_counted(self) -> bool
        ensures { result ≡ is_counted self }
    {
        !matches!(self, Limit::FileBytes | Limit::RunFileBytes)
    }
}

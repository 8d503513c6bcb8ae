//! All rules and limits in their order.
ghost use Rattle.std.specs.Prelude.{MatchResult};
ghost use Rattle.tests.specs.Admission.CodeWords.{loads_of};
ghost use Rattle.qed_model.specs.Weave.SoundOptions.{AreSoundOptions};
ghost use Rattle.test_admission.specs.Checked.{IsChecked};
ghost use Rattle.test_admission.specs.Order.{IsCauseOf};
ghost use Rattle.test_admission.specs.Read.{AreRead};

use crate::data_ranges::{DataSpans, check_data, data_spans};
use crate::faults::check_code;
use crate::header::check_header;
use crate::places::{ImagePlaces, check_half, check_span, check_top, image_places};
use crate::shape::check_shape;
use crate::stretches::{Stretch, code_stretches};
use crate::words::check_words;
use elf_types::ElfFile;
use qed_model::{AdmitError, Options};
use std::alloc::Global;
use tests::{Span, code_ranges};

/// The parts of a file that was admitted.
#[derive(Drop)]
pub struct TestParts<'a> {
    pub ranges: Vec<Span>,
    pub code: Vec<Stretch<'a>>,
    pub places: ImagePlaces,
    pub spans: DataSpans,
}

/// Tests all rules and limits, and gives the parts of the file that they were tested on.
pub fn check_rules<'a>(
    alloc: Global,
    file: &'a ElfFile,
    options: &Options,
) -> Result<TestParts<'a>, AdmitError>
    requires sound { AreSoundOptions options.now }
    requires read { AreRead (loads_of file.now) }
    ensures { MatchResult result (IsChecked file.now options.now) (IsCauseOf file.now options.now) }
{
    check_header(file)?;
    let ranges = code_ranges(alloc, file)?;
    check_shape(file, &ranges)?;
    let code = code_stretches(alloc, file, &ranges)?;
    let places = image_places(file);
    check_code(file, &code, places.base)?;
    let spans = data_spans(alloc, file)?;
    check_data(file, &spans)?;
    check_half(file, options, &places)?;
    check_span(file, options, &places)?;
    check_words(file, options, &code)?;
    check_top(file, options, &places)?;
    Ok(TestParts {
        ranges,
        code,
        places,
        spans,
    })
}

//! All lines of a text.
ghost use Rattle.std.specs.Prelude.{◌≡◌, ◌≤◌, ◌++◌, IfOk, MatchResult, OnOk, Ok, [], unwrap_or, length};
ghost use Rattle.rv_asm.specs.Assembled.{code_given, data_given, symbol_in, symbol as symbol_of, file_of_given as file_with_of, IsTextRefused};
ghost use Rattle.rv_asm.specs.Lines.{label_in as label_in_of, lines_of};
ghost use Rattle.rv_asm.specs.Program.{IsTextProgram};

use crate::error::AsmError;
use crate::file::file_with;
use crate::given::{Given, give};
use crate::labels::labels_of;
use crate::lines::{label_name, parts};
use crate::place::Place;
use elf_types::abi::{SHN_ABS, STB_LOCAL, STT_NOTYPE};
use elf_types::{Bytes, OutFile, Symbol};
use std::alloc::{AllocError, Global};

/// What the lines of a text give.
#[derive(Debug, Drop)]
pub struct Program {
    /// Code words.
    pub code: Vec<u32>,
    /// Data words.
    pub values: Vec<u64>,
    /// Labels, as symbols.
    pub symbols: Vec<Symbol>,
}

impl Program {
    /// Adds what a line gives.
    fn add(
        &mut self,
        alloc: Global,
        given: Given,
        word: &[u8],
        address: u64,
    ) -> Result<(), AllocError>
        ensures code { OnOk result (self.new.code.items ≡ self.old.code.items ++ code_given (Ok given)) }
        ensures words { OnOk result (self.new.values.items ≡ self.old.values.items ++ data_given (Ok given)) }
        ensures symbols { OnOk result (self.new.symbols.items ≡ self.old.symbols.items ++ symbol_in word.now address (Ok given)) }
    {
        match given {
            Given::Nothing => {}
            Given::Code(word) => self.code.push(word)?,
            Given::Data(value) => self.values.push(value)?,
            Given::Label => self.symbols.push(symbol(alloc, word, address)?)?,
        }
        Ok(())
    }

    /// The file of the words and labels.
    ///
    /// The only error is want of memory.
    pub fn into_file(self, alloc: Global) -> Result<OutFile, AllocError>
        ensures { IfOk result (λ file. file ≡ file_with_of self.code.items self.values.items self.symbols.items) }
    {
        let symbols = self.symbols;
        Ok(file_with(alloc, &self.code, &self.values, symbols)?)
    }
}

/// The symbol of the label that a first word defines.
fn symbol(alloc: Global, word: &[u8], address: u64) -> Result<Symbol, AllocError>
    ensures { IfOk result (λ symbol. symbol ≡ symbol_of (unwrap_or (label_in_of word.now) []) address) }
{
    Ok(Symbol {
        name: Bytes::copied(alloc, label_name(word))?,
        value: address,
        size: 0,
        kind: STT_NOTYPE,
        binding: STB_LOCAL,
        other: 0,
        index: SHN_ABS,
    })
}

/// What the lines of a text give, or the first line at fault.
pub fn program_of(alloc: Global, text: &[u8]) -> Result<Program, AsmError>
    requires { length text.now ≤ 67108864 }
    ensures { MatchResult result (λ program. IsTextProgram (lines_of text.now) program) (λ e. IsTextRefused text.now e) }
{
    let labels = labels_of(alloc, text)?;
    let code = Vec::new(alloc);
    let values = Vec::new(alloc);
    let symbols = Vec::new(alloc);
    let mut program = Program {
        code,
        values,
        symbols,
    };
    let mut place = Place::FIRST;
    let mut number = 0;
    for line in text.split(|byte| *byte == b'\n') {
        let line = parts(line);
        match give(&labels, place, number, &line) {
            Ok(given) => program.add(alloc, given, line.word, place.address())?,
            Err(fault) => return Err(AsmError::Line(fault, number + 1)),
        }
        place = place.behind(line.head);
        number += 1;
    }
    Ok(program)
}

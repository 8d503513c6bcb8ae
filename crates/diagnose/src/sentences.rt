//! What is wrong and what mends it, in a sentence.

/// Lines `KEY = SENTENCE`. A key is the rest of a printed line behind its first word; with a colon
/// it is for one kind of a rule.
const SENTENCES: &str = "no command = a command is missing
unknown command = this is no command
empty word = this word is empty
unknown option at = this is no option of the command
repeated option at = the option was given before
missing value at = the option has no value
extra word = this is a file more than the command takes
missing file = a file is missing
missing option = the option must be given
bad number = this is no number: digits, or 0x and hexadecimal digits, below 2^64
bad shape slip = --slip is STEP:skip, STEP:branch, STEP:result=V, STEP:store=V or STEP:place=ADDR
bad shape = this is not of the option's form
out of range changes = this is out of the option's range: with --only slips leave --changes out, since a slip is one instruction
out of range = this is out of the option's range
split = twice --inst-min is above --inst-max and one: lower --inst-min or raise --inst-max
all entries = with --lean only reached words have entries: leave --entries all out
slip and reached = a run watches for one of --slip and --reached: leave one out
few steps = a block may have as many steps as there are from check to check: lower --inst-max, or raise --every above
E1 = this is no ELF file
E2: class 1 = this is an ELF file of 32 bits: compile with -march=rv64im -mabi=lp64
E2 = this is no ELF file of 64 bits
E3 = this ELF file is not little-endian
E4 = this ELF file is not of version 1
E5: type 1 = this is an object file: link it
E5: type 3 = this is position independent: link with -static and without -pie
E5: type 4 = this is a core dump, and no program
E5 = this is no executable file: link it with -static and without -pie
E6: machine 3 = this is a program for x86: take a compiler for riscv64
E6: machine 40 = this is a program for ARM: take a compiler for riscv64
E6: machine 62 = this is a program for x86-64: take a compiler for riscv64
E6: machine 183 = this is a program for AArch64: take a compiler for riscv64
E6 = this is no program for RISC-V: take a compiler for riscv64
E7 = the header has sizes that no ELF file of 64 bits has: the file is damaged
E8 = the part ends behind the end of the file: the file was cut off
E9 = the segment has more bytes in the file than in memory, or ends above 2^64: look at the linker script
E10 = the segments share an address: look at the linker script
E11 = the section is damaged
E12 = the symbol is damaged
E13 = the relocation is damaged: link without -q, which leaves relocations out
A1 = a part has compressed code: compile each part, the start file too, with -march=rv64im
A2 = this is linked dynamically: link with -static, and without shared libraries
A3 = the segment can be written and executed: give .data a page of its own, by -Tdata or . = ALIGN(4096) in the linker script
A4 = the entry is no code: name it by ENTRY in the linker script, and give its section the flags AX
A5 = the part does not begin and end at a multiple of 4, or is not all in an executable segment: put texts and constants into .rodata
A6 = a word is no instruction of RV64IM: move data out of .text, leave out unimp and Clang's __builtin_trap(), and leave CSRs, fence.i, atomics and floats to what starts the test
A7 = an instruction uses a register above x13: compile with -ffixed-x14 to -ffixed-x31; no function may have more than four arguments; neither assembler nor helpers of libgcc may use such a register; an output is no test
A8 = there is an ebreak: leave __builtin_trap() out, and uses of a null pointer
A9 = an auipc reaches 256 MiB or more beyond the test: write the address as a number, or move the data
A10 = data begins where code or its constants end: put . = ALIGN(4096) between them in the linker script
A11 = the test is longer than the half that --half gives: take a greater one, or leave it out
L1 = the file is too large: drop debug information by strip -d
L2 = the segments span too much memory: link them close together
L3 = there is too much code: split the test
L4 = the new code is too large: split the test, or leave jumps by register out
L5 = there are too many sections
L6 = the segments have too many bytes in memory
L7 = the test stands too high: link it lower
L8 = the output would have too many segments
L9 = the output would be too large: drop symbols by strip
L10 = the file is too large: drop debug information by strip -d
L11 = the new code is too large for the lean form: leave --lean out, or split the test
S1 = the line is no instruction, label, .data or .word64; or code stands behind .data
S2 = what follows the first word is not of its form: registers are x0 to x31, and there are no pseudo-instructions
S3 = the number or the label is out of the instruction's reach
S4 = no line has the label
S5 = an earlier line has the same label
S6 = the text has too many words
S7 = the text has no instruction
N1 = no word of the new code stands at this address: addresses are those of the output, multiples of 4
H1 = the files stand at the same addresses: link one of them elsewhere
going = the steps were spent: give more by --steps
fetch = the test goes on where no code is: end it by an ecall
word = this is no instruction of RV64IM: CSRs, fence.i, compressed code, atomics and floats are none
load = the test reads where nothing may be read: set sp and gp in the start code; no device is there
store = the test writes where nothing may be written: set sp and gp in the start code; no device is there
target = the test jumps to an address that is no multiple of 4
";

/// The sentence of a key.
pub(crate) fn sentence_of(key: &str) -> Option<&'static str> {
    for line in SENTENCES.lines() {
        if let Some((name, sentence)) = line.split_once(" = ") {
            if name == key {
                return Some(sentence);
            }
        }
    }
    None
}

/// The sentence of a rule: that of its kind, or else of the rule.
pub(crate) fn rule_sentence(line: &str) -> &'static str {
    if let Some(sentence) = sentence_of(line) {
        return sentence;
    }
    let (rule, _) = line.split_once(":").unwrap_or((line, ""));
    sentence_of(rule).unwrap_or("")
}

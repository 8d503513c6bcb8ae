//! The texts of `help` and `version`.
ghost use Rattle.std.specs.Prelude.{◌≡◌, IfOk};
ghost use Rattle.report.specs.Help.{help_text as help_text_of};

use elf_types::Bytes;
use qed_words::{Command, Topic};
use std::alloc::{AllocError, Global};

/// All commands and the exit codes.
pub const HELP: &str =
    "qed rewrites tests for RISC-V chips: they compute twice and compare, to show electrical bugs early.

qed transform IN OUT    makes the output of a test
qed plan IN             prints what transform would make
qed explain IN          prints what each word of the output is for
qed run FILE            runs a file
qed campaign IN         strikes the output of a test many times
qed gen OUT             makes a test from random words
qed list FILE           prints the instructions of a file
qed asm IN OUT          makes a test from a text
qed harts FILE..        runs up to 8 files on one memory
qed help [COMMAND]      prints this, or the options of a command with an example
qed version             prints the version

Exit codes: 0 done; 2 usage, 3 refused, 4 above a limit, 5 a file could not be read, 6 a file or a
text could not be written, 7 no memory; 10 a check fired, 11 a step trapped, 12 the steps were spent.
";

/// The command `transform`: its options with their ranges and defaults, and an example.
pub const TRANSFORM: &str = "qed transform IN OUT [OPTION..]

IN is a test: an ELF file for RV64IM, linked statically, on the registers x0 to x13. OUT does what
IN does twice, and compares. What is printed are the sizes of OUT, and its bounds in steps.

--inst-min N   the floor of --inst-max, 1 to 1024: by default 4; no output depends on it
--inst-max N   the most instructions of a piece, 1 to 1024: by default 16
--round N      the data words that are compared behind a piece, 1 to 1024: by default 1
--half N       the bytes from half to half, a multiple of 4096 up to 536870912: by default what fits
--entries SET  where jumps by register may go: all words, or reached ones alone: by default all
--sweep        compares all registers and data words before the end
--diverse      does the second computation by other instructions
--lean         compares every so many steps alone, with --entries reached; --inst-max 128, --round 4
--every N      with --lean: the most steps from check to check, 1 to 2047: by default 1200
--land         with --lean: each entry tests the signature, so that a jump to another entry fires

$ qed transform two_sums.elf out.elf
code 264 bytes, entries 1, pieces 1, half 4096, register bound 272, word bound none
";

/// The command `plan`: its options with their ranges and defaults, and an example.
pub const PLAN: &str = "qed plan IN [OPTION..]

Prints what transform would make of IN, as one JSON object, and stores nothing. The options are
those of transform.

$ qed plan two_sums.elf --inst-max 2
{\"base\":65536,\"bounds\":{\"piece\":50,\"register\":132,\"word\":null},\"code\":264,\"entries\":[[65536,77944]],\"half\":4096,\"pieces\":[[65536,65536,2]],\"words\":0}
";

/// The command `explain`: its options with their ranges and defaults, and an example.
pub const EXPLAIN: &str = "qed explain IN [OPTION..]

Prints what each word of the new code of IN is for: its text, its address, its role. The options
are those of transform, and

--at ADDR   the word at this address alone, with its symbol and, of a check, what differed

$ qed explain first.elf --at 0x431d0
ebreak # 0x00000000000431d0 compare x10 0x000000000001000c..0x0000000000010018
symbol next+0x0
fired: x10 and x26 differ
";

/// The command `run`: its options with their ranges and defaults, and an example.
pub const RUN: &str = "qed run FILE [OPTION..]

Runs an ELF file for RV64IM from registers 0, and prints how the run stands and x1 to x31.

--steps N             the most steps, 0 to 1000000000000: by default 1000000
--fault STEP:xR=V     sets x1 to x31 to V after so many steps: up to 64 faults
--fault STEP:ADDR=V   the same with the 8 bytes at a multiple of 8
--slip STEP:WAY       the instruction behind so many steps goes wrong: by skip or branch
--slip STEP:WAY=V     the same by result=V, store=V or place=V, where V is an address
--dump ADDR:LEN       prints 1 to 65536 bytes of memory too
--reached             tells of a test whether all its jumps by register led to reached words

$ qed run out.elf --fault 40:x10=5
fired after 48 steps at 0x00000000000130e4
";

/// The command `campaign`: its options with their ranges and defaults, and an example.
pub const CAMPAIGN: &str = "qed campaign IN --seed N --count N [OPTION..]

Strikes the output of the test IN: each strike changes registers or data words at random steps. What
is printed is what came of each, and how often each came. The other options are those of transform.

--seed N      what is drawn from, any number: it must be given
--count N     how many strikes, 1 to 10000: it must be given
--changes N   how many changes in each, 1 to 16: by default 1
--only KIND   registers or words: changes these alone; slips: one instruction goes wrong
--from T      the least step of a change, 0 to 1000000: by default 0
--to T        the step behind the greatest, up to 1000000 and above --from: by default the output's end
--results     says of each end whether it is right: with the values of the end of IN

$ qed campaign two_sums.elf --seed 7 --count 1
0 step 2 x10=0xe6ceaafb3f2a01d4 ended 49
strikes 1, fired 0, ended 1, same 0, closed 0, not reached 0, longest 0, register bound 272, word bound none
";

/// The command `gen`: its options with their ranges and defaults, and an example.
pub const GEN: &str = "qed gen OUT --seed N --size N

Makes a test from random words, runs it and its output, and stores the test as OUT.

--seed N   what is drawn from, any number
--size N   how many instructions, 1 to 60000

$ qed gen test.elf --seed 5 --size 1
seed 5, size 1, code words 45, input ended after 129 steps, output code 10340 bytes, output ended after 1039 steps, register bound 278, word bound 31889
";

/// The command `list`: its options with their ranges and defaults, and an example.
pub const LIST: &str = "qed list FILE

Prints each code word of a file: its instruction, its address and the word.

$ qed list two_sums.elf
addi x10, x0, 7 # 0x0000000000010000 0x00700513
add x11, x10, x10 # 0x0000000000010004 0x00a505b3
ecall # 0x0000000000010008 0x00000073
";

/// The command `asm`: its options with their ranges and defaults, and an example.
pub const ASM: &str = "qed asm IN OUT

Makes a test of the text IN, a line for each instruction, as list prints them, or for a label.

$ qed asm first.s first.elf
code 10 words, data 5 words
";

/// The command `harts`: its options with their ranges and defaults, and an example.
pub const HARTS: &str = "qed harts FILE.. [OPTION..]

Runs 1 to 8 files on one memory, each on a hart of its own, and prints of each what run prints.

--turns T   whose turns they are, 1 to 64 digits that are repeated: by default 0, 1 and so on
--steps N   the most turns of all harts together, 0 to 1000000000000: by default 1000000

$ qed harts two_sums.elf
hart 0
ended after 3 steps at 0x0000000000010008
";

/// The version.
pub const VERSION: &str = "qed 1.0.0
";

/// The text about a topic.
pub fn topic_text(topic: Topic) -> &'static str
    ensures { result.now ≡ help_text_of topic }
{
    match topic {
        Topic::All | Topic::One(Command::Help | Command::Version) => HELP,
        Topic::One(Command::Transform) => TRANSFORM,
        Topic::One(Command::Plan) => PLAN,
        Topic::One(Command::Explain) => EXPLAIN,
        Topic::One(Command::Run) => RUN,
        Topic::One(Command::Campaign) => CAMPAIGN,
        Topic::One(Command::Gen) => GEN,
        Topic::One(Command::List) => LIST,
        Topic::One(Command::Asm) => ASM,
        Topic::One(Command::Harts) => HARTS,
        Topic::Version => VERSION,
    }
}

/// The text about a topic, as a copy.
pub fn help_text(alloc: Global, topic: Topic) -> Result<Bytes, AllocError>
    ensures { IfOk result (λ text. text ≡ help_text_of topic) }
{
    Bytes::copied(alloc, topic_text(topic).as_bytes())
}

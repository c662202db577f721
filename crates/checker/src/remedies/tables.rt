//! The tables of remedies.

/// Words with blanks between them, and what is said of each.
pub(crate) type Row = (&'static str, &'static str);

/// The instructions to write in place of words with this number of operands: @1, @2 and @3 are these, @4 is the last one, a
/// number, with the other sign, and @5 the lines that put it into the first one.
pub(crate) struct Instead {
    pub words: &'static str,
    pub count: usize,
    pub lines: &'static str,
}

/// A character that is often copied from elsewhere: its bytes, its name, and what to do about it.
pub(crate) struct Character {
    pub bytes: &'static [u8],
    pub name: &'static str,
    pub help: &'static str,
}

macro_rules! rows {
    ($($words:literal => $said:expr,)*) => {
        [$(($words, $said)),*]
    };
}

macro_rules! instead {
    ($($words:literal $count:literal => $lines:literal,)*) => {
        [$(Instead { words: $words, count: $count, lines: $lines }),*]
    };
}

macro_rules! characters {
    ($($bytes:literal $name:literal => $help:literal,)*) => {
        [$(Character { bytes: $bytes, name: $name, help: $help }),*]
    };
}

/// What is said where real numbers are meant.
pub(crate) const NO_REALS: &str = "Compute with whole numbers: there is no floating point.";

/// What is said of words for which no instruction with their operands is written.
pub(crate) static WORDS: [Row; 24] = rows! {
    "ret" => "Write jr $ra.",
    "halt exit ebreak" => "Write break.",
    ".data" => "Leave it out: there are no sections. .space and .word may stand anywhere.",
    ".text" => "Leave it out: there are no sections. Instructions may stand anywhere.",
    ".kdata .ktext .section .rdata" => "Leave it out: there are no sections.",
    ".bss" =>
        "Leave it out, and write .space n for n bytes of 0, n a multiple of 4: there are no sections.",
    ".globl .global" => "Leave it out: a run begins at the first instruction.",
    ".extern" => "Leave it out: a listing is one file.",
    ".ent .end .frame .mask .file" => "Leave it out: there is nothing for a debugger.",
    ".type .size" => "Leave it out: there is nothing for a linker.",
    ".set" => "Leave it out: there is nothing to set. There are no delay slots.",
    ".align" => "Leave it out: data stands at multiples of 4.",
    ".include" => "Copy the other file here: a listing is one file.",
    ".macro .endm .end_macro" => "Write the instructions out: there are no macros.",
    ".eqv .equ" => "Write the number: there are no names for numbers.",
    ".asciiz .ascii .string" =>
        "Write .word with four bytes in each number, the first of them lowest: there is no text.",
    ".byte" => "Write .word with four bytes in each number, the first of them lowest.",
    ".half" => "Write .word with two halfwords in each number, the first of them lower.",
    ".float .double lwc1 swc1 ldc1 sdc1 mtc1 mfc1 ctc1 cfc1 bc1t bc1f" => NO_REALS,
    "syscall ecall" =>
        "Write break where the run ends, else leave it out: there is no system, and a report has registers and memory.",
    "eret" => "Leave it out: there is no system.",
    "ulw" =>
        "Put the word together from bytes, by lbu, sll and or: there are no unaligned accesses.",
    "la" =>
        "Write addiu, or lui and then ori, with the number of the byte, from 0 on: data has no labels.",
    "* */ **" => "Write # before each line of a comment.",
};

/// The instructions to write in place of operations of other assemblers, or of operations with other operands. Of the rows of
/// a word the first is told that the listing language takes.
pub(crate) static INSTEAD: [Instead; 79] = instead! {
    "move mov" 2 => "addu @1,@2,$zero",
    "li move mov" 2 => "@5",
    "clear" 1 => "addu @1,$zero,$zero",
    "inc" 1 => "addiu @1,@1,1",
    "dec" 1 => "addiu @1,@1,-1",
    "not" 2 => "nor @1,@2,$zero",
    "abs" 2 => "sra $at,@2,31\nxor @1,$at,@2\nsubu @1,@1,$at",
    "neg" 2 => "sub @1,$zero,@2",
    "negu" 2 => "subu @1,$zero,@2",
    "b" 1 => "beq $zero,$zero,@1",
    "bal call" 1 => "jal @1",
    "beqz" 2 => "beq @1,$zero,@2",
    "bnez" 2 => "bne @1,$zero,@2",
    "beq" 3 => "beq @1,@2,@3",
    "bne" 3 => "bne @1,@2,@3",
    "blt" 3 => "slt $at,@1,@2\nbne $at,$zero,@3",
    "blt" 3 => "slti $at,@1,@2\nbne $at,$zero,@3",
    "bge" 3 => "slt $at,@1,@2\nbeq $at,$zero,@3",
    "bge" 3 => "slti $at,@1,@2\nbeq $at,$zero,@3",
    "bgt" 3 => "slt $at,@2,@1\nbne $at,$zero,@3",
    "ble" 3 => "slt $at,@2,@1\nbeq $at,$zero,@3",
    "bltu" 3 => "sltu $at,@1,@2\nbne $at,$zero,@3",
    "bltu" 3 => "sltiu $at,@1,@2\nbne $at,$zero,@3",
    "bgeu" 3 => "sltu $at,@1,@2\nbeq $at,$zero,@3",
    "bgeu" 3 => "sltiu $at,@1,@2\nbeq $at,$zero,@3",
    "bgtu" 3 => "sltu $at,@2,@1\nbne $at,$zero,@3",
    "bleu" 3 => "sltu $at,@2,@1\nbeq $at,$zero,@3",
    "mul mulo mult" 3 => "mult @2,@3\nmflo @1",
    "rem" 3 => "div @2,@3\nmfhi @1",
    "remu" 3 => "divu @2,@3\nmfhi @1",
    "multu" 3 => "multu @2,@3\nmflo @1",
    "div" 3 => "div @2,@3\nmflo @1",
    "divu" 3 => "divu @2,@3\nmflo @1",
    "seq" 3 => "xor @1,@2,@3\nsltiu @1,@1,1",
    "seq" 3 => "xori @1,@2,@3\nsltiu @1,@1,1",
    "sne" 3 => "xor @1,@2,@3\nsltu @1,$zero,@1",
    "sne" 3 => "xori @1,@2,@3\nsltu @1,$zero,@1",
    "sgt" 3 => "slt @1,@3,@2",
    "sgtu" 3 => "sltu @1,@3,@2",
    "sge" 3 => "slt @1,@2,@3\nxori @1,@1,1",
    "sge" 3 => "slti @1,@2,@3\nxori @1,@1,1",
    "sgeu" 3 => "sltu @1,@2,@3\nxori @1,@1,1",
    "sgeu" 3 => "sltiu @1,@2,@3\nxori @1,@1,1",
    "sle" 3 => "slt @1,@3,@2\nxori @1,@1,1",
    "sleu" 3 => "sltu @1,@3,@2\nxori @1,@1,1",
    "sub subi" 3 => "sub @1,@2,@3",
    "sub subi" 3 => "addi @1,@2,@4",
    "subu subiu" 3 => "subu @1,@2,@3",
    "subu subiu" 3 => "addiu @1,@2,@4",
    "nor" 3 => "nor @1,@2,@3",
    "addu addiu" 3 => "addu @1,@2,@3",
    "addu addiu" 3 => "addiu @1,@2,@3",
    "add addi" 3 => "add @1,@2,@3",
    "add addi" 3 => "addi @1,@2,@3",
    "and andi" 3 => "and @1,@2,@3",
    "and andi" 3 => "andi @1,@2,@3",
    "or ori" 3 => "or @1,@2,@3",
    "or ori" 3 => "ori @1,@2,@3",
    "xor xori" 3 => "xor @1,@2,@3",
    "xor xori" 3 => "xori @1,@2,@3",
    "slt slti" 3 => "slt @1,@2,@3",
    "slt slti" 3 => "slti @1,@2,@3",
    "sltu sltiu" 3 => "sltu @1,@2,@3",
    "sltu sltiu" 3 => "sltiu @1,@2,@3",
    "sll sllv" 3 => "sll @1,@2,@3",
    "sll sllv" 3 => "sllv @1,@2,@3",
    "srl srlv" 3 => "srl @1,@2,@3",
    "srl srlv" 3 => "srlv @1,@2,@3",
    "sra srav" 3 => "sra @1,@2,@3",
    "sra srav" 3 => "srav @1,@2,@3",
    "push" 1 => "addiu $sp,$sp,-4\nsw @1,0($sp)",
    "pop" 1 => "lw @1,0($sp)\naddiu $sp,$sp,4",
    "lwu" 2 => "lw @1,@2",
    "call jal" 1 => "jalr @1",
    "jmp jr" 1 => "j @1",
    "jmp j" 1 => "jr @1",
    "jalr" 1 => "jal @1",
    "jr" 0 => "jr $ra",
    "break" 1 => "break",
};

/// The characters that are often copied from elsewhere.
pub(crate) static CHARACTERS: [Character; 28] = characters! {
    b"\xe2\x88\x92" "U+2212, a minus sign" => "Write -",
    b"\xe2\x80\x90" "U+2010, a hyphen" => "Write -",
    b"\xe2\x80\x91" "U+2011, a non-breaking hyphen" => "Write -",
    b"\xe2\x80\x93" "U+2013, an en dash" => "Write -",
    b"\xe2\x80\x94" "U+2014, an em dash" => "Write -",
    b"\xef\xb9\xa3" "U+FE63, a small minus" => "Write -",
    b"\xef\xbc\x8d" "U+FF0D, a wide minus" => "Write -",
    b"\xc2\xad" "U+00AD, a soft hyphen" => "Take it out",
    b"\xc2\xa0" "U+00A0, a no-break space" => "Write a blank",
    b"\xe2\x80\x82" "U+2002, an en space" => "Write a blank",
    b"\xe2\x80\x83" "U+2003, an em space" => "Write a blank",
    b"\xe2\x80\x87" "U+2007, a figure space" => "Write a blank",
    b"\xe2\x80\x89" "U+2009, a thin space" => "Write a blank",
    b"\xe2\x80\xaf" "U+202F, a narrow no-break space" => "Write a blank",
    b"\xe3\x80\x80" "U+3000, a wide space" => "Write a blank",
    b"\xe2\x80\x8b" "U+200B, a space of no width" => "Take it out",
    b"\xef\xbb\xbf" "U+FEFF, a byte order mark" => "Save the file without it",
    b"\xff\xfe" "a byte order mark of UTF-16" => "Save the file as UTF-8",
    b"\xfe\xff" "a byte order mark of UTF-16" => "Save the file as UTF-8",
    b"\xe2\x80\x98" "U+2018, a quotation mark" => "Take it out",
    b"\xe2\x80\x99" "U+2019, a quotation mark" => "Take it out",
    b"\xe2\x80\x9c" "U+201C, a quotation mark" => "Take it out",
    b"\xe2\x80\x9d" "U+201D, a quotation mark" => "Take it out",
    b"\xef\xbc\x8c" "U+FF0C, a wide comma" => "Write ,",
    b"\xef\xbc\x84" "U+FF04, a wide dollar sign" => "Write $",
    b"\x00" "a byte 0" => "Save the file as plain text",
    b"\x0c" "a form feed" => "Take it out",
    b"\r" "a carriage return" => "End the line by a line feed",
};

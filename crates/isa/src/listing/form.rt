//! The forms of the operations.
ghost use Rattle.std.specs.Prelude.{◌≡◌, map, Err, ok_or, if◌then◌else◌};
ghost use Rattle.std.specs.List.{list_any, find};
ghost use Rattle.std.specs.Str.{str_eq_ignore_ascii_case};
ghost use Rattle.isa.specs.Reading.{Reads};
ghost use Rattle.isa.specs.declared.listing.fault.FaultKind.TheVariants.{BadOperands, UnknownOp};
ghost use Rattle.isa.specs.Forms.{has_word, has_word_and_count, form_as_written, form_of, form_view, forms};

use super::fault::FaultKind;
use super::slot::Operands;
use instructions::Op;

/// A word with its operation and its operands.
#[derive(Clone, Copy)]
pub struct Form {
    pub word: &'static str,
    pub op: Op,
    pub operands: Operands,
}

macro_rules! form {
    ($word:literal, $op:ident, $operands:ident) => {
        Form {
            word: $word,
            op: Op::$op,
            operands: Operands::$operands,
        }
    };
}

// Each operation as a listing writes it, in the order of `Op`, and then the forms that are only read:
// `jalr` without the register that it writes, which is 31 then, and `nop`, a shift of register 0.
static FORMS: [Form; 53] = [
    form!("addu", Addu, RdRsRt),
    form!("subu", Subu, RdRsRt),
    form!("add", Add, RdRsRt),
    form!("sub", Sub, RdRsRt),
    form!("and", And, RdRsRt),
    form!("or", Or, RdRsRt),
    form!("xor", Xor, RdRsRt),
    form!("nor", Nor, RdRsRt),
    form!("slt", Slt, RdRsRt),
    form!("sltu", Sltu, RdRsRt),
    form!("sll", Sll, RdRtAmount),
    form!("srl", Srl, RdRtAmount),
    form!("sra", Sra, RdRtAmount),
    form!("sllv", Sllv, RdRtRs),
    form!("srlv", Srlv, RdRtRs),
    form!("srav", Srav, RdRtRs),
    form!("mult", Mult, RsRt),
    form!("multu", Multu, RsRt),
    form!("div", Div, RsRt),
    form!("divu", Divu, RsRt),
    form!("mflo", Mflo, Rd),
    form!("mfhi", Mfhi, Rd),
    form!("mtlo", Mtlo, Rs),
    form!("mthi", Mthi, Rs),
    form!("addiu", Addiu, RtRsSigned),
    form!("addi", Addi, RtRsSigned),
    form!("slti", Slti, RtRsSigned),
    form!("sltiu", Sltiu, RtRsSigned),
    form!("andi", Andi, RtRsUnsigned),
    form!("ori", Ori, RtRsUnsigned),
    form!("xori", Xori, RtRsUnsigned),
    form!("lui", Lui, RtUnsigned),
    form!("lb", Lb, Load),
    form!("lbu", Lbu, Load),
    form!("lh", Lh, Load),
    form!("lhu", Lhu, Load),
    form!("lw", Lw, Load),
    form!("sb", Sb, Store),
    form!("sh", Sh, Store),
    form!("sw", Sw, Store),
    form!("beq", Beq, RsRtLabel),
    form!("bne", Bne, RsRtLabel),
    form!("blez", Blez, RsLabel),
    form!("bgtz", Bgtz, RsLabel),
    form!("bltz", Bltz, RsLabel),
    form!("bgez", Bgez, RsLabel),
    form!("j", J, Label),
    form!("jal", Jal, Label),
    form!("jr", Jr, Rs),
    form!("jalr", Jalr, RdRs),
    form!("break", Break, Nothing),
    form!("jalr", Jalr, Rs),
    form!("nop", Sll, Nothing),
];

/// All forms. The first one of an operation is that in which a listing writes it.
pub fn forms() -> &'static [Form]
    ensures { map form_view result.now ≡ forms }
{
    FORMS.as_slice()
}

/// The form in which a listing writes an operation.
pub fn form_as_written(op: Op) -> Form
    ensures { form_view result ≡ form_as_written op }
{
    FORMS[op as usize]
}

/// Whether two words are equal but for the case of their letters.
pub fn same_word(a: &[u8], b: &[u8]) -> bool
    ensures { result ≡ str_eq_ignore_ascii_case a.now b.now }
{
    a.eq_ignore_ascii_case(b)
}

impl Form {
    /// Whether the form has this word, in letters of either case.
    pub fn has_word(&self, word: &[u8]) -> bool
        ensures { result ≡ has_word word.now (form_view self.now) }
    {
        same_word(self.word.as_bytes(), word)
    }
}

// The form with this word and number of operands, or the fault: no form has the word, or none of its forms has this
// number.
fn find_in(table: &[Form], word: &[u8], count: usize) -> Result<Form, FaultKind>
    ensures { Reads form_view result (if list_any (has_word word.now) (map form_view table.now)
        then ok_or (find (has_word_and_count word.now count) (map form_view table.now)) BadOperands
        else Err UnknownOp) }
{
    let mut fault = FaultKind::UnknownOp;
    for form in table {
        if form.has_word(word) {
            if form.operands.slots().len() == count {
                return Ok(*form);
            }
            fault = FaultKind::BadOperands;
        }
    }
    Err(fault)
}

/// The form of a word, in letters of either case, with this number of operands.
pub fn form_of(word: &[u8], count: usize) -> Result<Form, FaultKind>
    ensures { Reads form_view result (form_of word.now count) }
{
    find_in(FORMS.as_slice(), word, count)
}

ghost use Rattle.std.specs.Prelude.{◌≡◌, ◌<◌, ◌^◌, IfSome, pos, true};
ghost use Rattle.orc_words.specs.Bits.{fits_bits, low_of};
ghost use Rattle.rv_insn.specs.Range.{InRange, is_number};
ghost use Rattle.asm_lines.specs.Insns as want;

use rv_insn::{Insn, rows};

// The rows of one form of operands, out of the table of instructions. Each tries its names in turn.
macro_rules! op_rows {
    (($name:ident $rd:ident $rs1:ident $rs2:ident)
        op { $($op:ident $op_0:literal $op_1:literal $op_name:literal;)* }
        $($rest:tt)*
    ) => {
        $(if $name == $op_name.as_bytes() {
            return Some(Insn::$op { rd: $rd, rs1: $rs1, rs2: $rs2 });
        })*
    };
}

macro_rules! op_32_rows {
    (($name:ident $rd:ident $rs1:ident $rs2:ident)
        op { $($op:tt)* }
        op_32 { $($op_32:ident $op_32_0:literal $op_32_1:literal $op_32_name:literal;)* }
        $($rest:tt)*
    ) => {
        $(if $name == $op_32_name.as_bytes() {
            return Some(Insn::$op_32 { rd: $rd, rs1: $rs1, rs2: $rs2 });
        })*
    };
}

macro_rules! imm_rows {
    (($name:ident $rd:ident $rs1:ident $value:ident)
        op { $($op:tt)* }
        op_32 { $($op_32:tt)* }
        imm { $($imm:ident $imm_0:literal $imm_name:literal;)* }
        shift { $($shift:tt)* }
        imm_32 { $($imm_32:ident $imm_32_0:literal $imm_32_name:literal;)* }
        $($rest:tt)*
    ) => {
        $(if $name == $imm_name.as_bytes() {
            return Some(Insn::$imm { rd: $rd, rs1: $rs1, imm: $value });
        })*
        $(if $name == $imm_32_name.as_bytes() {
            return Some(Insn::$imm_32 { rd: $rd, rs1: $rs1, imm: $value });
        })*
    };
}

macro_rules! shift_rows {
    (($name:ident $rd:ident $rs1:ident $value:ident)
        op { $($op:tt)* }
        op_32 { $($op_32:tt)* }
        imm { $($imm:tt)* }
        shift { $($shift:ident $shift_0:literal $shift_1:literal $shift_name:literal;)* }
        $($rest:tt)*
    ) => {
        $(if $name == $shift_name.as_bytes() {
            return Some(Insn::$shift { rd: $rd, rs1: $rs1, amount: $value });
        })*
    };
}

macro_rules! shift_32_rows {
    (($name:ident $rd:ident $rs1:ident $value:ident)
        op { $($op:tt)* }
        op_32 { $($op_32:tt)* }
        imm { $($imm:tt)* }
        shift { $($shift:tt)* }
        imm_32 { $($imm_32:tt)* }
        shift_32 { $($shift_32:ident $shift_32_0:literal $shift_32_1:literal $shift_32_name:literal;)* }
        $($rest:tt)*
    ) => {
        $(if $name == $shift_32_name.as_bytes() {
            return Some(Insn::$shift_32 { rd: $rd, rs1: $rs1, amount: $value });
        })*
    };
}

macro_rules! load_rows {
    (($name:ident $rd:ident $rs1:ident $value:ident)
        op { $($op:tt)* }
        op_32 { $($op_32:tt)* }
        imm { $($imm:tt)* }
        shift { $($shift:tt)* }
        imm_32 { $($imm_32:tt)* }
        shift_32 { $($shift_32:tt)* }
        load { $($load:ident $load_0:literal $load_name:literal;)* }
        $($rest:tt)*
    ) => {
        $(if $name == $load_name.as_bytes() {
            return Some(Insn::$load { rd: $rd, rs1: $rs1, imm: $value });
        })*
    };
}

macro_rules! store_rows {
    (($name:ident $rs1:ident $rs2:ident $value:ident)
        op { $($op:tt)* }
        op_32 { $($op_32:tt)* }
        imm { $($imm:tt)* }
        shift { $($shift:tt)* }
        imm_32 { $($imm_32:tt)* }
        shift_32 { $($shift_32:tt)* }
        load { $($load:tt)* }
        store { $($store:ident $store_0:literal $store_name:literal;)* }
        $($rest:tt)*
    ) => {
        $(if $name == $store_name.as_bytes() {
            return Some(Insn::$store { rs1: $rs1, rs2: $rs2, imm: $value });
        })*
    };
}

macro_rules! branch_rows {
    (($name:ident $rs1:ident $rs2:ident)
        op { $($op:tt)* }
        op_32 { $($op_32:tt)* }
        imm { $($imm:tt)* }
        shift { $($shift:tt)* }
        imm_32 { $($imm_32:tt)* }
        shift_32 { $($shift_32:tt)* }
        load { $($load:tt)* }
        store { $($store:tt)* }
        branch { $($branch:ident $branch_0:literal $branch_name:literal;)* }
        $($rest:tt)*
    ) => {
        $(if $name == $branch_name.as_bytes() {
            return Some(Insn::$branch { rs1: $rs1, rs2: $rs2, imm: 0 });
        })*
    };
}

macro_rules! upper_rows {
    (($name:ident $rd:ident $value:ident)
        op { $($op:tt)* }
        op_32 { $($op_32:tt)* }
        imm { $($imm:tt)* }
        shift { $($shift:tt)* }
        imm_32 { $($imm_32:tt)* }
        shift_32 { $($shift_32:tt)* }
        load { $($load:tt)* }
        store { $($store:tt)* }
        branch { $($branch:tt)* }
        upper { $($upper:ident $upper_0:literal $upper_name:literal;)* }
        $($rest:tt)*
    ) => {
        $(if $name == $upper_name.as_bytes() {
            return Some(Insn::$upper { rd: $rd, imm: $value });
        })*
    };
}

/// The instruction of a name that takes three registers, on 64 bits.
#[tactic(auto, unfolding(crate::specs::Insns::op_insn_of))]
pub(crate) fn op_insn(name: &[u8], rd: u8, rs1: u8, rs2: u8) -> Option<Insn>
    requires rd_in { rd < 32 }
    requires rs1_in { rs1 < 32 }
    requires rs2_in { rs2 < 32 }
    ensures exact { result ≡ want.op_insn_of name.now rd rs1 rs2 }
    ensures in_range { IfSome result InRange }
{
    rows!(op_rows name rd rs1 rs2);
    None
}

/// The instruction of a name that takes three registers, on 32 bits.
#[tactic(auto, unfolding(crate::specs::Insns::op_32_insn_of))]
pub(crate) fn op_32_insn(name: &[u8], rd: u8, rs1: u8, rs2: u8) -> Option<Insn>
    requires rd_in { rd < 32 }
    requires rs1_in { rs1 < 32 }
    requires rs2_in { rs2 < 32 }
    ensures exact { result ≡ want.op_32_insn_of name.now rd rs1 rs2 }
    ensures in_range { IfSome result InRange }
{
    rows!(op_32_rows name rd rs1 rs2);
    None
}

/// The instruction of a name that takes two registers and an immediate.
#[tactic(auto, unfolding(crate::specs::Insns::imm_insn_of))]
pub(crate) fn imm_insn(name: &[u8], rd: u8, rs1: u8, imm: i64) -> Option<Insn>
    requires rd_in { rd < 32 }
    requires rs1_in { rs1 < 32 }
    requires imm_in { fits_bits 12 imm ≡ true }
    ensures exact { result ≡ want.imm_insn_of name.now rd rs1 imm }
    ensures in_range { IfSome result InRange }
{
    rows!(imm_rows name rd rs1 imm);
    None
}

/// The shift of 64 bits of a name.
#[tactic(auto, unfolding(crate::specs::Insns::shift_insn_of))]
pub(crate) fn shift_insn(name: &[u8], rd: u8, rs1: u8, amount: i64) -> Option<Insn>
    requires rd_in { rd < 32 }
    requires rs1_in { rs1 < 32 }
    requires amount_in { is_number 6 amount ≡ true }
    ensures exact { result ≡ want.shift_insn_of name.now rd rs1 amount }
    ensures in_range { IfSome result InRange }
{
    rows!(shift_rows name rd rs1 amount);
    None
}

/// The shift of 32 bits of a name.
#[tactic(auto, unfolding(crate::specs::Insns::shift_32_insn_of))]
pub(crate) fn shift_32_insn(name: &[u8], rd: u8, rs1: u8, amount: i64) -> Option<Insn>
    requires rd_in { rd < 32 }
    requires rs1_in { rs1 < 32 }
    requires amount_in { is_number 5 amount ≡ true }
    ensures exact { result ≡ want.shift_32_insn_of name.now rd rs1 amount }
    ensures in_range { IfSome result InRange }
{
    rows!(shift_32_rows name rd rs1 amount);
    None
}

/// The load of a name.
#[tactic(auto, unfolding(crate::specs::Insns::load_insn_of))]
pub(crate) fn load_insn(name: &[u8], rd: u8, rs1: u8, imm: i64) -> Option<Insn>
    requires rd_in { rd < 32 }
    requires rs1_in { rs1 < 32 }
    requires imm_in { fits_bits 12 imm ≡ true }
    ensures exact { result ≡ want.load_insn_of name.now rd rs1 imm }
    ensures in_range { IfSome result InRange }
{
    rows!(load_rows name rd rs1 imm);
    None
}

/// The store of a name.
#[tactic(auto, unfolding(crate::specs::Insns::store_insn_of))]
pub(crate) fn store_insn(name: &[u8], rs1: u8, rs2: u8, imm: i64) -> Option<Insn>
    requires rs1_in { rs1 < 32 }
    requires rs2_in { rs2 < 32 }
    requires imm_in { fits_bits 12 imm ≡ true }
    ensures exact { result ≡ want.store_insn_of name.now rs1 rs2 imm }
    ensures in_range { IfSome result InRange }
{
    rows!(store_rows name rs1 rs2 imm);
    None
}

/// The branch of a name, with distance 0.
#[tactic(auto, unfolding(crate::specs::Insns::branch_insn_of))]
pub(crate) fn branch_insn(name: &[u8], rs1: u8, rs2: u8) -> Option<Insn>
    requires rs1_in { rs1 < 32 }
    requires rs2_in { rs2 < 32 }
    ensures exact { result ≡ want.branch_insn_of name.now rs1 rs2 (pos 0) }
    ensures in_range { IfSome result InRange }
{
    rows!(branch_rows name rs1 rs2);
    None
}

/// The instruction of a name that takes an upper part.
#[tactic(auto, unfolding(crate::specs::Insns::upper_insn_of))]
pub(crate) fn upper_insn(name: &[u8], rd: u8, imm: i64) -> Option<Insn>
    requires rd_in { rd < 32 }
    requires imm_in { fits_bits 32 imm ≡ true }
    requires imm_upper { low_of 12 imm ≡ 0 }
    ensures exact { result ≡ want.upper_insn_of name.now rd imm }
    ensures in_range { IfSome result InRange }
{
    rows!(upper_rows name rd imm);
    None
}

/// Whether a word is an instruction of this form.
#[tactic(auto, using(crate::proofs::Given::op_made))]
pub(crate) fn is_op(word: &[u8]) -> bool
    ensures { result ≡ want.is_op word.now }
{
    op_insn(word, 0, 0, 0).is_some()
}

/// Whether a word is an instruction of this form.
#[tactic(auto, using(crate::proofs::Given::op_32_made))]
pub(crate) fn is_op_32(word: &[u8]) -> bool
    ensures { result ≡ want.is_op_32 word.now }
{
    op_32_insn(word, 0, 0, 0).is_some()
}

/// Whether a word is an instruction of this form.
#[tactic(auto, using(crate::proofs::Given::imm_made))]
pub(crate) fn is_imm(word: &[u8]) -> bool
    ensures { result ≡ want.is_imm word.now }
{
    imm_insn(word, 0, 0, 0).is_some()
}

/// Whether a word is an instruction of this form.
#[tactic(auto, using(crate::proofs::Given::shift_made))]
pub(crate) fn is_shift(word: &[u8]) -> bool
    ensures { result ≡ want.is_shift word.now }
{
    shift_insn(word, 0, 0, 0).is_some()
}

/// Whether a word is an instruction of this form.
#[tactic(auto, using(crate::proofs::Given::shift_32_made))]
pub(crate) fn is_shift_32(word: &[u8]) -> bool
    ensures { result ≡ want.is_shift_32 word.now }
{
    shift_32_insn(word, 0, 0, 0).is_some()
}

/// Whether a word is an instruction of this form.
#[tactic(auto, using(crate::proofs::Given::load_made))]
pub(crate) fn is_load(word: &[u8]) -> bool
    ensures { result ≡ want.is_load word.now }
{
    load_insn(word, 0, 0, 0).is_some()
}

/// Whether a word is an instruction of this form.
#[tactic(auto, using(crate::proofs::Given::store_made))]
pub(crate) fn is_store(word: &[u8]) -> bool
    ensures { result ≡ want.is_store word.now }
{
    store_insn(word, 0, 0, 0).is_some()
}

/// Whether a word is an instruction of this form.
#[tactic(auto, using(crate::proofs::Given::branch_made))]
pub(crate) fn is_branch(word: &[u8]) -> bool
    ensures { result ≡ want.is_branch word.now }
{
    branch_insn(word, 0, 0).is_some()
}

/// Whether a word is an instruction of this form.
#[tactic(auto, using(crate::proofs::Given::upper_made))]
pub(crate) fn is_upper(word: &[u8]) -> bool
    ensures { result ≡ want.is_upper word.now }
{
    upper_insn(word, 0, 0).is_some()
}

ghost use Rattle.std.specs.Prelude.{◌≡◌, IsSome, IfSome};
ghost use Rattle.link_model.specs.Kinds.{row_of, rule_of};
ghost use Rattle.reloc_table.specs.Rows.{HasWidth, HasReach};

use link_model::{Form, Formula, Rule, Span};

// The kinds in the order of the standard (RISC-V ELF psABI, "Relocations"), each with its number, its
// value's formula, the range of its values, what is written, and the number of bytes. S is the
// symbol's address, A the addend, P the patched place, G the symbol's cell, V what stands there.
macro_rules! kinds {
    ($arms:ident $kind:expr) => {
        $arms! { $kind;
            0 Zero Any Unwritten 0; // NONE
            1 Absolute Word Number 4; // 32: S + A
            2 Absolute Any Number 8; // 64: S + A
            16 Relative Branch FormatB 4; // BRANCH: S + A - P
            17 Relative Jump FormatJ 4; // JAL: S + A - P
            18 Relative Split Call 8; // CALL: S + A - P
            19 Relative Split Call 8; // CALL_PLT: S + A - P
            20 Relative Split FormatU 4; // GOT_HI20: G + A - P
            23 Relative Split FormatU 4; // PCREL_HI20: S + A - P
            24 Paired Any FormatI 4; // PCREL_LO12_I: the value of the HI20 edge at S
            25 Paired Any FormatS 4; // PCREL_LO12_S: the value of the HI20 edge at S
            26 Absolute Split FormatU 4; // HI20: S + A
            27 Absolute Any FormatI 4; // LO12_I: S + A
            28 Absolute Any FormatS 4; // LO12_S: S + A
            33 Absolute Any Sum 1; // ADD8: V + S + A
            34 Absolute Any Sum 2; // ADD16: V + S + A
            35 Absolute Any Sum 4; // ADD32: V + S + A
            36 Absolute Any Sum 8; // ADD64: V + S + A
            37 Absolute Any Difference 1; // SUB8: V - S - A
            38 Absolute Any Difference 2; // SUB16: V - S - A
            39 Absolute Any Difference 4; // SUB32: V - S - A
            40 Absolute Any Difference 8; // SUB64: V - S - A
            43 Zero Any Unwritten 0; // ALIGN
            51 Zero Any Unwritten 0; // RELAX
            52 Absolute Any LowSixDifference 1; // SUB6: V - S - A
            53 Absolute Any LowSix 1; // SET6: S + A
            54 Absolute Any Number 1; // SET8: S + A
            55 Absolute Any Number 2; // SET16: S + A
            56 Absolute Any Number 4; // SET32: S + A
            57 Relative SignedWord Number 4; // 32_PCREL: S + A - P
            59 Relative SignedWord Number 4; // PLT32: S + A - P
        }
    };
}

macro_rules! rule_arms {
    ($kind:expr; $($number:literal $formula:ident $span:ident $form:ident $width:literal;)*) => {
        match $kind {
            $($number => Some(Rule {
                formula: Formula::$formula,
                span: Span::$span,
                form: Form::$form,
                width: $width,
            }),)*
            _ => None,
        }
    };
}

/// The row of a relocation kind; none where the number is no kind of the table.
#[tactic(auto, unfolding(link_model::specs::Kinds::row_of))]
pub fn find(kind: u32) -> Option<Rule>
    ensures exact { result ≡ row_of kind }
    ensures width { IfSome result (λ rule. HasWidth rule.form rule.width) }
    ensures reach { IfSome result (λ rule. HasReach rule.form rule.span) }
{
    kinds!(rule_arms kind)
}

/// The row of a kind of the table.
pub fn rule(kind: u32) -> Rule
    requires { IsSome (row_of kind) }
    ensures exact { result ≡ rule_of kind }
    ensures width { HasWidth result.form result.width }
    ensures reach { HasReach result.form result.span }
{
    match find(kind) {
        Some(rule) => rule,
        None => unreachable!(),
    }
}

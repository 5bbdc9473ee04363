/// The table of RV64IM, which `decode` and `encode` are made from (RISC-V unprivileged
/// manual, "RV32/64G Instruction Set Listings"). `rows!(use_them of ..)` hands the whole table to the
/// macro `use_them`, after what it works on. A row has the instruction, its bits 14..12, for R and
/// shifts the bits that name it above the registers (31..25, or 31..26 in `shift`), and its name.
#[macro_export]
macro_rules! rows {
    ($use:ident $($of:tt)*) => {
        $use! {
            ($($of)*)
            op {
                Add 0 0x00 "add";
                Sub 0 0x20 "sub";
                Sll 1 0x00 "sll";
                Slt 2 0x00 "slt";
                Sltu 3 0x00 "sltu";
                Xor 4 0x00 "xor";
                Srl 5 0x00 "srl";
                Sra 5 0x20 "sra";
                Or 6 0x00 "or";
                And 7 0x00 "and";
                Mul 0 0x01 "mul";
                Mulh 1 0x01 "mulh";
                Mulhsu 2 0x01 "mulhsu";
                Mulhu 3 0x01 "mulhu";
                Div 4 0x01 "div";
                Divu 5 0x01 "divu";
                Rem 6 0x01 "rem";
                Remu 7 0x01 "remu";
            }
            op_32 {
                Addw 0 0x00 "addw";
                Subw 0 0x20 "subw";
                Sllw 1 0x00 "sllw";
                Srlw 5 0x00 "srlw";
                Sraw 5 0x20 "sraw";
                Mulw 0 0x01 "mulw";
                Divw 4 0x01 "divw";
                Divuw 5 0x01 "divuw";
                Remw 6 0x01 "remw";
                Remuw 7 0x01 "remuw";
            }
            imm {
                Addi 0 "addi";
                Slti 2 "slti";
                Sltiu 3 "sltiu";
                Xori 4 "xori";
                Ori 6 "ori";
                Andi 7 "andi";
            }
            shift {
                Slli 1 0x00 "slli";
                Srli 5 0x00 "srli";
                Srai 5 0x10 "srai";
            }
            imm_32 {
                Addiw 0 "addiw";
            }
            shift_32 {
                Slliw 1 0x00 "slliw";
                Srliw 5 0x00 "srliw";
                Sraiw 5 0x20 "sraiw";
            }
            load {
                Lb 0 "lb";
                Lh 1 "lh";
                Lw 2 "lw";
                Ld 3 "ld";
                Lbu 4 "lbu";
                Lhu 5 "lhu";
                Lwu 6 "lwu";
            }
            store {
                Sb 0 "sb";
                Sh 1 "sh";
                Sw 2 "sw";
                Sd 3 "sd";
            }
            branch {
                Beq 0 "beq";
                Bne 1 "bne";
                Blt 4 "blt";
                Bge 5 "bge";
                Bltu 6 "bltu";
                Bgeu 7 "bgeu";
            }
            upper {
                Lui 0x37 "lui";
                Auipc 0x17 "auipc";
            }
            jump {
                Jal 0x6F "jal";
            }
            jump_register {
                Jalr 0 "jalr";
            }
            fence {
                Fence 0 "fence";
            }
            system {
                Ecall 0x0000_0073 "ecall";
                Ebreak 0x0010_0073 "ebreak";
            }
        }
    };
}

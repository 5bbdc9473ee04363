ghost use Rattle.std.specs.Prelude.{◌≡◌, ◌<◌, IfSome};
ghost use Rattle.asm_lines.specs.Registers as want;

use crate::words::is_digit;

/// A number of one or two digits, written without a leading zero.
#[tactic(auto, unfolding(crate::specs::Registers::small_number))]
fn small_number(text: &[u8]) -> Option<u8>
    ensures exact { result ≡ want.small_number text.now }
    ensures small { IfSome result (λ n. n < 100) }
{
    match text {
        [a] if is_digit(*a) => Some(*a - b'0'),
        [a, b] if is_digit(*a) && is_digit(*b) && *a != b'0' => {
            Some((*a - b'0') * 10 + (*b - b'0'))
        }
        _ => None,
    }
}

/// The register of a bank and its number there.
fn banked(bank: u8, n: u8) -> Option<u8>
    requires { n < 100 }
    ensures exact { result ≡ want.banked bank n }
    ensures register { IfSome result (λ r. r < 32) }
{
    match bank {
        b'x' if n < 32 => Some(n),
        b't' if n < 3 => Some(n + 5),
        b't' if n < 7 => Some(n + 25),
        b's' if n < 2 => Some(n + 8),
        b's' if n < 12 => Some(n + 16),
        b'a' if n < 8 => Some(n + 10),
        _ => None,
    }
}

fn bank_register(text: &[u8]) -> Option<u8>
    ensures exact { result ≡ want.bank_register text.now }
    ensures register { IfSome result (λ r. r < 32) }
{
    let (bank, digits) = text.split_first()?;
    banked(*bank, small_number(digits)?)
}

/// The number of a register by its name (RISC-V ELF psABI, "Integer Register Convention").
#[tactic(auto, unfolding(crate::specs::Registers::register_of))]
pub(crate) fn register_of(text: &[u8]) -> Option<u8>
    ensures exact { result ≡ want.register_of text.now }
    ensures register { IfSome result (λ r. r < 32) }
{
    match text {
        b"zero" => Some(0),
        b"ra" => Some(1),
        b"sp" => Some(2),
        b"gp" => Some(3),
        b"tp" => Some(4),
        _ => bank_register(text),
    }
}

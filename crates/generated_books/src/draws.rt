//! The draws that transactions are made of.
ghost use Rattle.std.specs.Prelude.{◌≡◌, ◌<◌, ◌≤◌, ◌+◌, ◌*◌, IfOk};
ghost use Rattle.generated_books.specs.Draws.{modulus, next, number_drawn};
ghost use Rattle.generated_books.specs.Numbers.{AreDraws};

use field_values::NoMemory;
use std::alloc::Global;

/// The number that follows one.
#[tactic(auto, unfolding(crate::specs::Draws::next))]
fn next(number: u64) -> u64
    requires { number < modulus }
    ensures is { result ≡ next number }
    ensures below { result < modulus }
{
    (1_103_515_245 * number + 12_345) % 2_147_483_648
}

/// The draws of so many transactions, four of each, from the first on.
pub(crate) fn draws_of(alloc: Global, count: u32) -> Result<Vec<u32>, NoMemory>
    requires { count ≤ 100_000 }
    ensures { IfOk result (λ draws. AreDraws draws.items count) }
{
    let mut draws = Vec::new(alloc);
    let mut number = 1;
    for _at in 0..4 * count {
        number = next(number);
        draws.push((number / 256) as u32)?;
    }
    Ok(draws)
}
